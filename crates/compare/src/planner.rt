// The planner on a small sheet.
use answers::answer::Answer;
use answers::small::Small;
use base_stores::words::WordStore;
use count::fewest::fewest;
use count::most::most;
use plan::WORDS;
use plan::planning::plan;
use plan::settle::settle;
use rules::row::Row;
use sheet::book::Book;
use sheet::start::closed;
use std::alloc::{AllocError, Global};
use store::store::{WindowStore, read_window};
use store::window::Window;

// What settle leaves.
pub fn settled(alloc: Global, sheet: &Small) -> Result<Answer, AllocError> {
    let mut words = words_of(alloc, &sheet.windows)?;
    let mut house = WordStore::new(&mut words);
    let mut book = Book::empty(0);
    let slip = match closed(&house, &mut book, &sheet.rules) {
        Ok(slip) => slip,
        Err(fault) => return Ok(Answer::Refused(fault.number())),
    };
    let mut work = [0; WORDS];
    let answer = settle(&slip, &mut house, &mut book, &mut work);
    slip.put_away();
    match answer {
        Ok(()) => Ok(Answer::Windows(read_back(alloc, &house, &book)?)),
        Err(fault) => Ok(Answer::Refused(fault.number())),
    }
}

// What plan answers.
pub fn planned(alloc: Global, sheet: &Small) -> Result<Answer, AllocError> {
    let mut words = words_of(alloc, &sheet.windows)?;
    planned_on(alloc, &WordStore::new(&mut words), &sheet.rules)
}

// The same on any store.
pub fn planned_on<S: WindowStore>(
    alloc: Global,
    house: &S,
    rules: &[Row],
) -> Result<Answer, AllocError> {
    let mut days = vec![in alloc; 0; house.lots()]?;
    let mut book = Book::empty(0);
    let slip = match closed(house, &mut book, rules) {
        Ok(slip) => slip,
        Err(fault) => return Ok(Answer::Refused(fault.number())),
    };
    let mut work = [0; WORDS];
    let answer = plan(&slip, house, &book, &mut days, &mut work);
    slip.put_away();
    match answer {
        Ok(count) => Ok(Answer::Plan(days, count)),
        Err(fault) => Ok(Answer::Refused(fault.number())),
    }
}

// The fewest different days that the lots of a rule may take, whatever its count window.
pub fn fewest_days(alloc: Global, sheet: &Small, rule: &Row) -> Result<Answer, AllocError> {
    let mut words = words_of(alloc, &sheet.windows)?;
    let house = WordStore::new(&mut words);
    let mut answer = vec![in alloc; 0; sheet.windows.len().saturating_mul(2)]?;
    let mut work = [0; WORDS];
    match fewest(&house, rule.stretch, &mut answer, &mut work) {
        Ok(count) => Ok(Answer::Number(count as u64)),
        Err(fault) => Ok(Answer::Refused(fault.number())),
    }
}

// The most.
pub fn most_days(alloc: Global, sheet: &Small, rule: &Row) -> Result<Answer, AllocError> {
    let mut words = words_of(alloc, &sheet.windows)?;
    let house = WordStore::new(&mut words);
    let mut answer = vec![in alloc; 0; sheet.windows.len().saturating_mul(2)]?;
    let mut work = [0; WORDS];
    match most(&house, rule.stretch, &mut answer, &mut work) {
        Ok(found) => Ok(Answer::Number(found.count as u64)),
        Err(fault) => Ok(Answer::Refused(fault.number())),
    }
}

// The windows that a store shows.
pub fn shown<S: WindowStore>(alloc: Global, house: &S) -> Result<Answer, AllocError> {
    Ok(Answer::Windows(read_back(alloc, house, &Book::empty(0))?))
}

// A house's words: each window's first day and last day, lot after lot.
fn words_of(alloc: Global, windows: &[Window]) -> Result<Vec<u32>, AllocError> {
    windows
        .iter()
        .flat_map(|window| [window.low, window.high])
        .collect(alloc)
}

// The windows of a store and the rules of a book.
// No `From`: they are read from a store, as a house reads them.
fn read_back<S: WindowStore>(alloc: Global, house: &S, book: &Book) -> Result<Small, AllocError> {
    Ok(Small {
        windows: (0..house.lots())
            .filter_map(|lot| read_window(house, lot))
            .collect(alloc)?,
        rules: book.rows().to_vec(alloc)?,
    })
}
