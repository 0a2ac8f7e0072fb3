// A house's sheet: rules, asks, settle and plan, and what a refusal leaves.
use crate::told::{show_rules, show_windows};
use base_stores::words::WordStore;
use nvalue::stretch::Stretch;
use plan::WORDS;
use plan::planning::plan;
use sheet::asks::{at_most, not_before};
use sheet::book::Book;
use sheet::fault::SheetFault;
use sheet::start::{add_rule, start};
use std::io;

// One lot and no rule: there is something to plan all the same.
pub fn one_lot(rt: &HostRuntime) -> io::Result<()> {
    println!(rt; "One lot on day 7, and no rule")?;
    let mut words = [7, 7];
    let house = WordStore::new(&mut words);
    let mut book = Book::empty(0);
    let slip = match start(&house, &mut book) {
        Ok(draft) => draft.close(),
        Err(fault) => return println!(rt; "  {fault}"),
    };
    let mut answer = [0; 1];
    let mut work = [0; WORDS];
    let planned = plan(&slip, &house, &book, &mut answer, &mut work);
    slip.put_away();
    match planned {
        Ok(count) => {
            let day = answer[0];
            println!(rt; "  lot 0 on {day}, days in all: {count}")
        }
        Err(fault) => println!(rt; "  {fault}"),
    }
}

// What the asks of `two_lots` came to.
#[derive(Clone, Copy)]
struct Asked {
    past: Result<usize, SheetFault>,
    added: Result<usize, SheetFault>,
    pushed: Result<(), SheetFault>,
    lowered: Result<(), SheetFault>,
}

// A rule is refused, a first day is pushed past the last: every window and rule is read before and after.
pub fn two_lots(rt: &HostRuntime) -> io::Result<()> {
    println!(rt; "Two lots, which are to take at most 3 days")?;
    let mut words = [3, 5, 4, 8];
    let mut book = Book::empty(0);
    show_windows(rt, &WordStore::new(&mut words))?;
    let asked = match ask(&mut words, &mut book) {
        Ok(asked) => asked,
        Err(fault) => return println!(rt; "  {fault}"),
    };
    println!(rt; "A rule over three lots is asked for")?;
    tell(rt, asked.past)?;
    println!(rt; "A rule over both lots is asked for")?;
    tell(rt, asked.added)?;
    println!(rt; "Lot 0 is to start on day 9 or later, past its last day")?;
    match asked.pushed {
        Ok(()) => println!(rt; "  accepted")?,
        Err(fault) => println!(rt; "  {fault}")?,
    }
    println!(rt; "Every window and rule after that")?;
    show_windows(rt, &WordStore::new(&mut words))?;
    show_rules(rt, &book)?;
    let lowered = asked.lowered.is_ok();
    println!(rt; "Both lots are to take at most 3 days, as they do already: accepted is {lowered}")
}

fn ask(words: &mut [u32], book: &mut Book) -> Result<Asked, SheetFault> {
    let mut house = WordStore::new(words);
    let both = Stretch {
        first: 0,
        length: 2,
    };
    let three = Stretch {
        first: 0,
        length: 3,
    };
    let mut draft = start(&house, book)?;
    let past = add_rule(&mut draft, book, three, 0, 3);
    let added = add_rule(&mut draft, book, both, 0, 3);
    let slip = draft.close();
    let pushed = not_before(&slip, &mut house, book, 0, 9);
    let lowered = at_most(&slip, book, 0, 3);
    slip.put_away();
    Ok(Asked {
        past,
        added,
        pushed,
        lowered,
    })
}

// A sentence of this program alone, so no `Display` of a library.
fn tell(rt: &HostRuntime, added: Result<usize, SheetFault>) -> io::Result<()> {
    match added {
        Ok(number) => println!(rt; "  accepted, with the number {number}"),
        Err(fault) => println!(rt; "  {fault}"),
    }
}
