// Five lots and two rules: from the windows of a house to a plan.
#![tactic(auto)]

use base_stores::words::WordStore;
use nvalue::stretch::Stretch;
use plan::WORDS;
use plan::planning::plan;
use plan::settle::settle;
use sheet::asks::not_before;
use sheet::book::Book;
use sheet::fault::SheetFault;
use sheet::slip::{Closed, Draft};
use sheet::start::{add_rule, start};
use std::io;
use store::store::{WindowStore, read_window};

const LOTS: usize = 5;

fn main(rt: HostRuntime) -> io::Result<()> {
    // two words a lot: its first day, then its last
    let mut words = [3, 5, 4, 8, 6, 9, 1, 2, 9, 12];
    let mut house = WordStore::new(&mut words);
    let mut days = [0; LOTS];
    let count = match plan_season(&mut house, &mut days) {
        Ok(count) => count,
        Err(fault) => return println!(rt; "{fault}"),
    };
    for (lot, day) in days.iter().enumerate() {
        if let Some(window) = read_window(&house, lot) {
            println!(rt; "lot {lot}: settled to {window}, planned on {day}")?;
        }
    }
    println!(rt; "different days in all: {count}")
}

// Starts a sheet over the house, adds its rules and closes it; then asks, settles and plans. A slip is put away on
// every way out, so no `?` stands where one is held: what may be refused is called with the slip borrowed.
fn plan_season<S: WindowStore>(house: &mut S, days: &mut [u32]) -> Result<usize, SheetFault> {
    let mut book = Book::empty(0);
    let mut draft = start(house, &mut book)?;
    if let Err(fault) = add_rules(&mut draft, &mut book) {
        draft.put_away();
        return Err(fault);
    }
    let slip = draft.close();
    let planned = ask_and_plan(&slip, house, &mut book, days);
    slip.put_away();
    planned
}

// All lots on at most 3 different days, and the first three on 2 at least.
fn add_rules(draft: &mut Draft, book: &mut Book) -> Result<(), SheetFault> {
    let all = Stretch {
        first: 0,
        length: LOTS,
    };
    let early = Stretch {
        first: 0,
        length: 3,
    };
    add_rule(draft, book, all, 0, 3)?;
    add_rule(draft, book, early, 2, 3)?;
    Ok(())
}

// Lot 1 is not to be extracted before day 5.
fn ask_and_plan<S: WindowStore>(
    slip: &Closed,
    house: &mut S,
    book: &mut Book,
    days: &mut [u32],
) -> Result<usize, SheetFault> {
    let mut work = [0; WORDS];
    not_before(slip, house, book, 1, 5)?;
    settle(slip, house, book, &mut work)?;
    plan(slip, house, book, days, &mut work)
}
