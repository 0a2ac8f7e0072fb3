// An early group and a late one: settled and planned by lists of calls, in each calendar, and the early one extracted.
use crate::told::{show_days, show_outcome, show_rules, show_windows};
use base_stores::words::WordStore;
use calendar::dispatch::Dispatch;
use calendar::period::{Period, PeriodLength};
use nvalue::stretch::Stretch;
use plan::WORDS;
use plan::calls::{Call, Outcome};
use plan::run::make_calls;
use rules::row::Row;
use sheet::book::Book;
use sheet::start::closed;
use std::alloc::AllocError;
use std::io;
use store::store::{WindowStore, read_window};

const EARLY: usize = 4;

const LOTS: usize = 9;

// the first and the last day of each lot's window
const SEASON: [u32; 2 * LOTS] = [
    1, 3, 5, 7, 9, 11, 13, 15, 20, 25, 22, 28, 24, 29, 30, 31, 27, 33,
];

const CALLS: [Call; 5] = [
    Call::NotBefore(4, 21),
    Call::NotAfter(0, 0),
    Call::Settle,
    Call::AtMost(1, 2),
    Call::Plan,
];

// Four early lots with no limit and five late ones on at most three days, while the season uses more.
pub fn two_groups(rt: &HostRuntime) -> io::Result<()> {
    let mut words = SEASON;
    println!(rt; "Four early lots, and five late ones on at most 3 days")?;
    work_on(rt, &mut WordStore::new(&mut words), 3)?;
    println!(rt; "The early group is extracted, and its windows are deleted")?;
    let late = WordStore::new(&mut words[2 * EARLY..2 * LOTS]);
    let lots = late.lots();
    println!(rt; "  lots left: {lots}")?;
    match read_window(&late, LOTS - 1) {
        Some(_) => println!(rt; "  lot 8 is still there"),
        None => println!(rt; "  lot 8 is gone"),
    }
}

// The same season in days before dispatch on day 40.
pub fn before_dispatch(rt: &HostRuntime) -> io::Result<()> {
    let mut words = SEASON;
    println!(rt; "The same in days before dispatch, which is on day 40")?;
    work_on(rt, &mut Dispatch::new(WordStore::new(&mut words), 40), 3)
}

// And in weeks, where the late lots take no more than two.
pub fn in_weeks(rt: &HostRuntime) -> io::Result<()> {
    let mut words = SEASON;
    let Ok(week) = PeriodLength::new(7) else {
        return println!(rt; "No such period");
    };
    println!(rt; "The same in weeks, the late lots on at most 2")?;
    work_on(rt, &mut Period::new(WordStore::new(&mut words), week), 2)
}

// Closes the sheet of both groups, makes the calls, and shows what they answered and left.
fn work_on<S: WindowStore>(rt: &HostRuntime, house: &mut S, limit: u32) -> io::Result<()> {
    let mut book = Book::empty(0);
    let slip = match closed(house, &mut book, &rules(limit)) {
        Ok(slip) => slip,
        Err(fault) => return println!(rt; "  {fault}"),
    };
    let mut answer = [0; LOTS];
    let mut work = [0; WORDS];
    let mut outcomes = [Outcome::Settled(Ok(())); CALLS.len()];
    let made = make_calls(
        &slip,
        house,
        &mut book,
        &CALLS,
        &mut outcomes,
        &mut answer,
        &mut work,
    );
    slip.put_away();
    if let Err(fault) = made {
        return println!(rt; "  {fault}");
    }
    println!(rt;
        "Lot 4 not before 21; lot 0 not after 0; settle; the late lots on at most 2; plan"
    )?;
    for outcome in outcomes {
        show_outcome(rt, outcome)?;
    }
    show_windows(rt, house)?;
    show_rules(rt, &book)?;
    println!(rt; "  the plan")?;
    show_days(rt, &answer)
}

// No limit for the early lots, and one for the late ones.
fn rules(limit: u32) -> [Row; 2] {
    [
        Row {
            stretch: Stretch {
                first: 0,
                length: EARLY,
            },
            floor: 0,
            ceiling: 256,
        },
        Row {
            stretch: Stretch {
                first: EARLY,
                length: LOTS - EARLY,
            },
            floor: 0,
            ceiling: limit,
        },
    ]
}
