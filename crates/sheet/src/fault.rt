// Why a call on a sheet is refused. A refusal changes nothing.
ghost use Rattle.std.specs.Prelude.{◌≡◌, Some};
ghost use Rattle.sheet.specs.Faults.{fault_text, number_of, number_of_store, of_season, place_of, at_lot};
ghost use Rattle.sheet.specs.declared.fault.SheetFault.TheVariants.{Store};

use nvalue::season::SeasonFault;
use std::fmt;
use store::fault::StoreFault;

// The store's own refusal, whole, with the lot that was named.
#[derive(Clone, Copy, PartialEq, Eq, Debug)]
pub struct StoreRefusal {
    pub lot: usize,
    pub fault: StoreFault,
}

#[derive(Clone, Copy, PartialEq, Eq, Debug)]
pub enum SheetFault {
    // the store refuses: no such lot, or a window that would be empty
    Store(StoreRefusal),
    // a day above 9,999
    NoSuchDay,
    // no lot under a rule, or one behind the last
    NoSuchStretch,
    // a rule's floor is the higher number, or its ceiling is 257 or more
    NoSuchCount,
    // a rule that is not in the book
    NoSuchRule(usize),
    // fewer than 4,096 working words
    ShortWork,
    // fewer answer words than lots
    ShortAnswer,
    // more than 256 lots
    TooManyLots,
    // the first lot whose window is empty or has a day above 9,999
    FaultyWindow(usize),
    // 32 rules stand already
    BookFull,
    // a floor would pass the ceiling of this rule, or a ceiling its floor
    NoCountLeft(usize),
    // inside the sheet lies none that is firm
    NoFirmWindows,
    // the sheet has no plan
    NoPlan,
    // slip, book and store do not belong together
    Mismatch,
}

impl SheetFault {
    // The number by which a house knows this refusal.
    pub fn number(self) -> u32
        ensures { result ≡ number_of self }
    {
        match self {
            SheetFault::Store(refusal) => store_number(refusal.fault),
            SheetFault::NoSuchDay => 2,
            SheetFault::NoSuchStretch => 3,
            SheetFault::NoSuchCount => 4,
            SheetFault::NoSuchRule(_) => 5,
            SheetFault::ShortWork => 6,
            SheetFault::ShortAnswer => 7,
            SheetFault::TooManyLots => 20,
            SheetFault::FaultyWindow(_) => 21,
            SheetFault::BookFull => 22,
            SheetFault::NoCountLeft(_) => 24,
            SheetFault::NoFirmWindows => 25,
            SheetFault::NoPlan => 26,
            SheetFault::Mismatch => 27,
        }
    }

    // The lot or the rule that it names, 0 where it names none.
    pub fn place(self) -> usize
        ensures { result ≡ place_of self }
    {
        match self {
            SheetFault::Store(refusal) => refusal.lot,
            SheetFault::NoSuchRule(rule) => rule,
            SheetFault::FaultyWindow(lot) => lot,
            SheetFault::NoCountLeft(rule) => rule,
            _ => 0,
        }
    }
}

fn store_number(fault: StoreFault) -> u32
    ensures { result ≡ number_of_store fault }
{
    match fault {
        StoreFault::NoSuchLot => 1,
        StoreFault::WouldEmpty => 23,
    }
}

// The number, and the lot or the rule that is named.
impl fmt::Display for SheetFault {
    ghost output = { λ fault. Some (fault_text fault) };

    fn fmt<W: fmt::Write>(&self, f: &mut fmt::Formatter<W>) -> fmt::Result {
        write!(f, "refused {} place {}", self.number(), self.place())
    }
}

// What a store answered about a lot: a refusal names the lot. Only the caller knows it, so no `From` can add it.
pub fn about_lot(lot: usize, answer: Result<(), StoreFault>) -> Result<(), StoreRefusal>
    ensures { result ≡ at_lot lot answer }
{
    answer.map_err(|fault| StoreRefusal { lot, fault })
}

impl From<StoreRefusal> for SheetFault {
    ghost from_gives = { λ value r. r ≡ Store value };

    fn from(value: StoreRefusal) -> SheetFault {
        SheetFault::Store(value)
    }
}

impl From<SeasonFault> for SheetFault {
    ghost from_gives = { λ value r. r ≡ of_season value };

    fn from(value: SeasonFault) -> SheetFault {
        match value {
            SeasonFault::TooManyLots => SheetFault::TooManyLots,
            SeasonFault::FaultyWindow(lot) => SheetFault::FaultyWindow(lot),
        }
    }
}
