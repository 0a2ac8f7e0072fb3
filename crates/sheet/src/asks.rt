// The asks: with a closed slip, a lot's window or a rule's count window is narrowed.
ghost use Rattle.std.specs.Prelude.{◌≡◌, ◌<◌};
ghost use Rattle.store.specs.Checks.{Checked};
ghost use Rattle.store.specs.Windows.{Onward};
ghost use Rattle.store.specs.declared.half_line.HalfLine.TheVariants.{From, UpTo};
ghost use Rattle.sheet.specs.Asks.{AllAgree, AsksCounts, AsksDays, AtLeast, AtMost, NotAfter, NotBefore};
ghost use Rattle.sheet.specs.Drafts.{Matched};

use crate::book::Book;
use crate::fault::{SheetFault, about_lot};
use crate::slip::Closed;
use nvalue::count_window::CountWindow;
use store::half_line::HalfLine;
use store::limits::LAST_DAY;
use store::store::WindowStore;

// A lot is to be extracted on a day or later.
pub fn not_before<S: WindowStore>(
    slip: &Closed,
    store: &mut S,
    book: &Book,
    lot: usize,
    day: u32,
) -> Result<(), SheetFault>
    ensures asks { NotBefore lot day slip.now.lots slip.now.rules book.now
        (S.WindowStore.windows store.old) result (S.WindowStore.windows store.new) }
    ensures reach { Onward (S.WindowStore.reached store.old) (S.WindowStore.reached store.new)
        (S.WindowStore.windows store.new) }
    ensures memory { S.WindowStore.memory store.new
        ≡ S.WindowStore.reached store.old (S.WindowStore.windows store.new) }
    ensures framed { S.WindowStore.frame store.new ≡ S.WindowStore.frame store.old }
{
    ask_days(slip, store, book, lot, HalfLine::From(day))
}

// A lot is to be extracted on a day or earlier.
pub fn not_after<S: WindowStore>(
    slip: &Closed,
    store: &mut S,
    book: &Book,
    lot: usize,
    day: u32,
) -> Result<(), SheetFault>
    ensures asks { NotAfter lot day slip.now.lots slip.now.rules book.now
        (S.WindowStore.windows store.old) result (S.WindowStore.windows store.new) }
    ensures reach { Onward (S.WindowStore.reached store.old) (S.WindowStore.reached store.new)
        (S.WindowStore.windows store.new) }
    ensures memory { S.WindowStore.memory store.new
        ≡ S.WindowStore.reached store.old (S.WindowStore.windows store.new) }
    ensures framed { S.WindowStore.frame store.new ≡ S.WindowStore.frame store.old }
{
    ask_days(slip, store, book, lot, HalfLine::UpTo(day))
}

// A lot is to be extracted on a day of a half-line.
fn ask_days<S: WindowStore>(
    slip: &Closed,
    store: &mut S,
    book: &Book,
    lot: usize,
    days: HalfLine,
) -> Result<(), SheetFault>
    ensures asks { AsksDays lot days slip.now.lots slip.now.rules book.now
        (S.WindowStore.windows store.old) result (S.WindowStore.windows store.new) }
    ensures reach { Onward (S.WindowStore.reached store.old) (S.WindowStore.reached store.new)
        (S.WindowStore.windows store.new) }
    ensures memory { S.WindowStore.memory store.new
        ≡ S.WindowStore.reached store.old (S.WindowStore.windows store.new) }
    ensures framed { S.WindowStore.frame store.new ≡ S.WindowStore.frame store.old }
{
    all_agree(slip, book, store)?;
    let (HalfLine::From(end) | HalfLine::UpTo(end)) = days;
    if end > LAST_DAY {
        return Err(SheetFault::NoSuchDay);
    }
    about_lot(lot, store.trim(lot, days))?;
    Ok(())
}

// A rule's stretch is to take this many different days or more.
pub fn at_least(slip: &Closed, book: &mut Book, rule: usize, number: u32) -> Result<(), SheetFault>
    ensures { AtLeast rule number slip.now.lots slip.now.rules book.old result book.new }
{
    ask_counts(slip, book, rule, HalfLine::From(number))
}

// A rule's stretch is to take this many different days or fewer.
pub fn at_most(slip: &Closed, book: &mut Book, rule: usize, number: u32) -> Result<(), SheetFault>
    ensures { AtMost rule number slip.now.lots slip.now.rules book.old result book.new }
{
    ask_counts(slip, book, rule, HalfLine::UpTo(number))
}

// A rule's stretch is to take a number of different days that lies in a half-line.
fn ask_counts(
    slip: &Closed,
    book: &mut Book,
    rule: usize,
    counts: HalfLine,
) -> Result<(), SheetFault>
    ensures { AsksCounts rule counts slip.now.lots slip.now.rules book.old result book.new }
{
    book.agree(slip.lots, slip.rules)?;
    let count = book.rule(rule).ok_or(SheetFault::NoSuchRule(rule))?.count;
    let (floor, ceiling) = match counts {
        HalfLine::From(number) => (count.floor().max(number), count.ceiling()),
        HalfLine::UpTo(number) => (count.floor(), count.ceiling().min(number)),
    };
    let tightened = CountWindow::new(floor, ceiling).ok_or(SheetFault::NoCountLeft(rule))?;
    book.narrow(rule, tightened);
    Ok(())
}

// Refuses a slip and a book that differ in lots or in rules, and a store with another number of lots.
pub fn all_agree<S: WindowStore>(slip: &Closed, book: &Book, store: &S) -> Result<(), SheetFault>
    ensures { Matched result
        (AllAgree slip.now.lots slip.now.rules book.now (S.WindowStore.windows store.now)) }
{
    book.agree(slip.lots, slip.rules)?;
    if slip.lots != store.lots() {
        return Err(SheetFault::Mismatch);
    }
    Ok(())
}
