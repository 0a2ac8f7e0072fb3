// Single calls in a row: whoever makes them one by one is left with the plans that meet every ask that was accepted.
use crate::house::{closed, rule};
use base_stores::words::WordStore;
use plan::WORDS;
use plan::planning::plan;
use plan::settle::settle;
use sheet::asks::{at_least, at_most, not_after, not_before};
use sheet::book::Book;
use sheet::slip::Closed;
use std::test::Fail;

// Is there a plan that gives these two lots these days? Each window of the house is narrowed to its day.
fn is_planned(slip: &Closed, words: [u32; 4], mut book: Book, days: [u32; 2]) -> bool {
    let mut words = words;
    let mut house = WordStore::new(&mut words);
    let mut work = [0; WORDS];
    let mut answer = [0; 2];
    for (lot, day) in days.iter().enumerate() {
        if not_before(slip, &mut house, &book, lot, *day).is_err()
            || not_after(slip, &mut house, &book, lot, *day).is_err()
        {
            return false;
        }
    }
    plan(slip, &house, &book, &mut answer, &mut work).is_ok()
}

#[test]
fn plans_that_meet_the_asks_are_left(rt: HostRuntime) -> Result<(), Fail> {
    let words = [1, 4, 2, 6];
    let mut book = Book::empty(0);
    let mut left = words;
    let slip = closed(&WordStore::new(&mut left), &mut book, &[rule(0, 2, 1, 2)])?;
    let before = book;
    let mut work = [0; WORDS];
    let mut house = WordStore::new(&mut left);
    // accepted, refused, refused, accepted, accepted, refused
    let first = not_before(&slip, &mut house, &book, 0, 2);
    let past = not_after(&slip, &mut house, &book, 1, 1);
    let many = at_least(&slip, &mut book, 0, 3);
    let last = not_after(&slip, &mut house, &book, 1, 4);
    let settled = settle(&slip, &mut house, &mut book, &mut work);
    let share = at_most(&slip, &mut book, 0, 1);
    let none = at_most(&slip, &mut book, 0, 0);
    let mut agree = true;
    let mut plans: u32 = 0;
    for one in 0..8 {
        for other in 0..8 {
            let was = is_planned(&slip, words, before, [one, other]);
            let is = is_planned(&slip, left, book, [one, other]);
            let meets = 2 <= one && other <= 4 && one == other;
            agree = agree && is == (was && meets);
            plans = plans.saturating_add(is as u32);
        }
    }
    slip.put_away();
    assert!(rt; first.is_ok() && last.is_ok() && settled.is_ok() && share.is_ok());
    assert!(rt; past.is_err() && many.is_err() && none.is_err());
    assert!(rt; agree);
    assert_eq!(rt; plans, 3);
    Ok(())
}
