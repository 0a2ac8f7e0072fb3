// Why a question for the fewest or the most days is refused. A refusal writes no answer word.
ghost use Rattle.std.specs.Prelude.{◌≡◌, Some};
ghost use Rattle.count.specs.Faults.{fault_text, number_of, of_season, place_of};

use nvalue::season::SeasonFault;
use std::fmt;

#[derive(Clone, Copy, PartialEq, Eq, Debug)]
pub enum CountFault {
    // fewer than 4,096 working words
    ShortWork,
    // more than 256 lots in the store
    TooManyLots,
    // the first lot whose window is empty or has a day above 9,999
    FaultyWindow(usize),
    // a stretch of no lots, or one that goes past the end
    NoSuchStretch,
    // fewer than 2 answer words a lot
    ShortAnswer,
}

impl CountFault {
    // The number by which a house knows this refusal.
    pub fn number(self) -> u32
        ensures { result ≡ number_of self }
    {
        match self {
            CountFault::ShortWork => 6,
            CountFault::TooManyLots => 20,
            CountFault::FaultyWindow(_) => 21,
            CountFault::NoSuchStretch => 3,
            CountFault::ShortAnswer => 7,
        }
    }

    // The lot that it names, 0 where it names none.
    pub fn place(self) -> usize
        ensures { result ≡ place_of self }
    {
        match self {
            CountFault::FaultyWindow(place) => place,
            _ => 0,
        }
    }
}

// The number, and the lot that is named.
impl fmt::Display for CountFault {
    ghost output = { λ fault. Some (fault_text fault) };

    fn fmt<W: fmt::Write>(&self, f: &mut fmt::Formatter<W>) -> fmt::Result {
        write!(f, "refused {} place {}", self.number(), self.place())
    }
}

impl From<SeasonFault> for CountFault {
    ghost from_gives = { λ value r. r ≡ of_season value };

    fn from(value: SeasonFault) -> CountFault {
        match value {
            SeasonFault::TooManyLots => CountFault::TooManyLots,
            SeasonFault::FaultyWindow(lot) => CountFault::FaultyWindow(lot),
        }
    }
}
