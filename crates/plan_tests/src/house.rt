// What the tests share: settling or planning a sheet in one go.
use nvalue::stretch::Stretch;
use plan::planning::plan;
use plan::settle::settle;
use rules::row::Row;
use sheet::book::Book;
use sheet::fault::SheetFault;
pub use sheet::start::closed;
use store::store::WindowStore;

pub fn rule(first: usize, length: usize, floor: u32, ceiling: u32) -> Row {
    Row {
        stretch: Stretch { first, length },
        floor,
        ceiling,
    }
}

// Closes and settles.
pub fn settled<S: WindowStore>(
    house: &mut S,
    book: &mut Book,
    rules: &[Row],
) -> Result<(), SheetFault> {
    let slip = closed(house, book, rules)?;
    let mut work = [0; 4096];
    let answer = settle(&slip, house, book, &mut work);
    slip.put_away();
    answer
}

// Closes and plans.
pub fn planned<S: WindowStore>(
    house: &S,
    rules: &[Row],
    days: &mut [u32],
) -> Result<usize, SheetFault> {
    let mut book = Book::empty(0);
    let slip = closed(house, &mut book, rules)?;
    let mut work = [0; 4096];
    let answer = plan(&slip, house, &book, days, &mut work);
    slip.put_away();
    answer
}

// The count window of a rule, absent where there is no such rule.
pub fn counts(book: &Book, number: usize) -> Option<(u32, u32)> {
    let row = book.rows().get(number)?;
    Some((row.floor, row.ceiling))
}
