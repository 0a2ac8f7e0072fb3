// Start, add rule and close.
use crate::house::row;
use base_stores::words::WordStore;
use nvalue::stretch::Stretch;
use rules::row::Row;
use sheet::book::Book;
use sheet::fault::SheetFault;
use sheet::slip::{Draft, SlipState};
use sheet::start::{add_rule, start};
use std::test::Fail;
use store::store::WindowStore;

fn lots(first: usize, length: usize) -> Stretch {
    Stretch { first, length }
}

// What start refuses with, if it does.
fn refusal(words: &mut [u32], book: &mut Book) -> Option<SheetFault> {
    match start(&WordStore::new(words), book) {
        Ok(slip) => {
            slip.put_away();
            None
        }
        Err(fault) => Some(fault),
    }
}

fn add(
    slip: &mut Draft,
    book: &mut Book,
    first: usize,
    length: usize,
    floor: u32,
    ceiling: u32,
) -> Result<usize, SheetFault> {
    add_rule(slip, book, lots(first, length), floor, ceiling)
}

#[test]
fn one_lot_and_no_rule(rt: HostRuntime) -> Result<(), Fail> {
    let mut words = [7, 7];
    let mut book = Book::empty(9);
    let slip = start(&WordStore::new(&mut words), &mut book)?;
    let drafting = slip.state();
    let closed = slip.close();
    let asking = closed.state();
    let (lots, rules) = (closed.lots(), closed.rules());
    closed.put_away();
    assert_eq!(rt; drafting, SlipState::Drafting);
    assert_eq!(rt; asking, SlipState::Asking);
    assert_eq!(rt; (lots, rules), (1, 0));
    assert_eq!(rt; (book.lots(), book.rules()), (1, 0));
    Ok(())
}

#[test]
fn start_empties_a_full_book(rt: HostRuntime) -> Result<(), Fail> {
    let mut words = [1, 2, 1, 2];
    let mut book = Book::empty(2);
    let mut slip = start(&WordStore::new(&mut words), &mut book)?;
    let added = add(&mut slip, &mut book, 0, 2, 0, 1);
    slip.put_away();
    let again = start(&WordStore::new(&mut words), &mut book)?;
    let (lots, rules) = (again.lots(), again.rules());
    again.put_away();
    assert_eq!(rt; added, Ok(0));
    assert_eq!(rt; (lots, rules), (2, 0));
    assert_eq!(rt; (book.rules(), row(&book, 0)), (0, None));
    Ok(())
}

#[test]
fn start_at_its_edges(rt: HostRuntime) {
    let mut book = Book::empty(3);
    assert_eq!(rt;
        refusal(&mut [1; 514], &mut book),
        Some(SheetFault::TooManyLots)
    );
    assert_eq!(rt;
        refusal(&mut [9, 1, 10_000, 10_000], &mut book),
        Some(SheetFault::FaultyWindow(0))
    );
    assert_eq!(rt;
        refusal(&mut [0, 9999, 1, 10_000, 3, 2], &mut book),
        Some(SheetFault::FaultyWindow(1))
    );
    assert_eq!(rt; book.lots(), 3);
    assert_eq!(rt; refusal(&mut [1; 512], &mut book), None);
    assert_eq!(rt; refusal(&mut [9999, 9999], &mut book), None);
    assert_eq!(rt; refusal(&mut [], &mut book), None);
    assert_eq!(rt; book.lots(), 0);
}

#[test]
fn rules_are_numbered_from_0(rt: HostRuntime) -> Result<(), Fail> {
    let mut words = [1, 2, 1, 2, 1, 2];
    let mut book = Book::empty(0);
    let mut slip = start(&WordStore::new(&mut words), &mut book)?;
    let first = add(&mut slip, &mut book, 0, 2, 1, 1);
    // the widest count window, over one lot
    let second = add(&mut slip, &mut book, 2, 1, 0, 256);
    let rules = slip.rules();
    slip.put_away();
    assert_eq!(rt; (first, second, rules), (Ok(0), Ok(1), 2));
    assert_eq!(rt;
        row(&book, 0),
        Some(Row {
            stretch: lots(0, 2),
            floor: 1,
            ceiling: 1,
        })
    );
    assert_eq!(rt;
        row(&book, 1),
        Some(Row {
            stretch: lots(2, 1),
            floor: 0,
            ceiling: 256,
        })
    );
    assert_eq!(rt; row(&book, 2), None);
    Ok(())
}

#[test]
fn add_rule_refuses_in_order(rt: HostRuntime) -> Result<(), Fail> {
    let mut words = [1, 2, 1, 2];
    let mut book = Book::empty(0);
    let mut slip = start(&WordStore::new(&mut words), &mut book)?;
    // the stretch before the count
    let empty = add(&mut slip, &mut book, 0, 0, 9, 8);
    let past = add(&mut slip, &mut book, 1, 2, 9, 8);
    let far = add(&mut slip, &mut book, usize::MAX, usize::MAX, 0, 1);
    let turned = add(&mut slip, &mut book, 0, 2, 2, 1);
    let high = add(&mut slip, &mut book, 0, 2, 0, 257);
    let rules = slip.rules();
    slip.put_away();
    assert_eq!(rt; empty, Err(SheetFault::NoSuchStretch));
    assert_eq!(rt; past, Err(SheetFault::NoSuchStretch));
    assert_eq!(rt; far, Err(SheetFault::NoSuchStretch));
    assert_eq!(rt; turned, Err(SheetFault::NoSuchCount));
    assert_eq!(rt; high, Err(SheetFault::NoSuchCount));
    assert_eq!(rt; (rules, book.rules()), (0, 0));
    Ok(())
}

#[test]
fn the_32nd_rule_is_the_last(rt: HostRuntime) -> Result<(), Fail> {
    let mut words = [1, 2];
    let mut book = Book::empty(0);
    let mut slip = start(&WordStore::new(&mut words), &mut book)?;
    let mut accepted = 0;
    for _ in 0..32 {
        if let Ok(_) = add(&mut slip, &mut book, 0, 1, 0, 1) {
            accepted = book.rules();
        }
    }
    let next = add(&mut slip, &mut book, 0, 1, 0, 1);
    // the count before the book
    let turned = add(&mut slip, &mut book, 0, 1, 2, 1);
    let rules = slip.rules();
    slip.put_away();
    assert_eq!(rt; (accepted, rules, book.rules()), (32, 32, 32));
    assert_eq!(rt; next, Err(SheetFault::BookFull));
    assert_eq!(rt; turned, Err(SheetFault::NoSuchCount));
    Ok(())
}

#[test]
fn a_slip_of_another_sheet(rt: HostRuntime) -> Result<(), Fail> {
    let mut two = [1, 2, 1, 2];
    let mut three = [1, 2, 1, 2, 1, 2];
    let mut book = Book::empty(0);
    let mut other = Book::empty(0);
    let mut slip = start(&WordStore::new(&mut two), &mut book)?;
    let second = match start(&WordStore::new(&mut three), &mut other) {
        Ok(second) => second,
        Err(fault) => {
            slip.put_away();
            return Err(Fail::from(fault));
        }
    };
    second.put_away();
    // even before a stretch of no lots
    let lots_differ = add(&mut slip, &mut other, 0, 0, 0, 1);
    let added = add(&mut slip, &mut book, 0, 1, 0, 1);
    let mut empty = Book::empty(2);
    let rules_differ = add(&mut slip, &mut empty, 0, 1, 0, 1);
    slip.put_away();
    assert_eq!(rt; lots_differ, Err(SheetFault::Mismatch));
    assert_eq!(rt; added, Ok(0));
    assert_eq!(rt; rules_differ, Err(SheetFault::Mismatch));
    assert_eq!(rt; (other.rules(), empty.rules()), (0, 0));
    Ok(())
}
