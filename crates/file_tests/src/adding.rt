// The rules of a file added to a book: all of them or none.
use crate::house::{bytes_of, rule};
use base_stores::words::WordStore;
use file::fault::FileFault;
use file::rows::add_rules;
use nvalue::stretch::Stretch;
use rules::row::Row;
use sheet::book::Book;
use sheet::fault::SheetFault;
use sheet::start::{add_rows, start};
use std::alloc::Global;
use std::test::Fail;

// The rule that a book has before any is added.
const FIRST: Row = Row {
    stretch: Stretch {
        first: 1,
        length: 2,
    },
    floor: 1,
    ceiling: 2,
};

// A rule over lot 0 alone, from 0 to 1 days.
const ONE_LOT: [u8; 8] = [0, 0, 1, 0, 0, 0, 1, 0];

// What adding answers, how many rules the slip then has, and the book.
#[derive(Drop)]
struct Added {
    answer: Result<(), FileFault>,
    rules: usize,
    book: Book,
}

// Adds the rules of the bytes to a sheet of 256 lots that has the first rule already.
fn add(bytes: &[u8]) -> Result<Added, SheetFault> {
    let mut book = Book::empty(0);
    let mut slip = start(&WordStore::new(&mut [1; 512]), &mut book)?;
    let first = add_rows(&mut slip, &mut book, &[FIRST]);
    let answer = add_rules(&mut slip, &mut book, bytes);
    let rules = slip.rules();
    slip.put_away();
    first?;
    Ok(Added {
        answer,
        rules,
        book,
    })
}

// The same where the rules are given as numbers, four for each.
fn add_numbers(alloc: Global, numbers: &[u16]) -> Result<Added, Fail> {
    let bytes = bytes_of(alloc, numbers)?;
    Ok(add(&bytes)?)
}

#[test]
fn rules_are_added_behind_those_that_stand(rt: HostRuntime) -> Result<(), Fail> {
    let added = add_numbers(rt.alloc(), &[255, 1, 0, 256, 0, 256, 256, 256])?;
    assert_eq!(rt; added.answer, Ok(()));
    assert_eq!(rt; added.rules, 3);
    assert_eq!(rt;
        added.book.rows(),
        [FIRST, rule(255, 1, 0, 256), rule(0, 256, 256, 256)].as_slice()
    );
    Ok(())
}

#[test]
fn fewer_than_eight_bytes_are_no_rule(rt: HostRuntime) -> Result<(), Fail> {
    let bytes = [1; 7];
    for length in 0..8 {
        let none = add(&bytes[..length])?;
        assert_eq!(rt; none.answer, Ok(()));
        assert_eq!(rt; (none.rules, none.book.rows()), (1, [FIRST].as_slice()));
    }
    let one = add(&[0, 0, 5, 0, 0, 0, 3, 0, 9, 9, 9, 9, 9, 9, 9])?;
    assert_eq!(rt; one.answer, Ok(()));
    assert_eq!(rt; one.rules, 2);
    assert_eq!(rt; one.book.rows(), [FIRST, rule(0, 5, 0, 3)].as_slice());
    Ok(())
}

// The first rule is fine and the second is refused; so would be the third, for another reason.
#[test]
fn the_first_refused_rule_is_told_and_none_is_added(rt: HostRuntime) -> Result<(), Fail> {
    for (second, third, fault) in [
        ([0, 0, 0, 1], [0, 1, 2, 1], SheetFault::NoSuchStretch),
        ([255, 2, 0, 1], [0, 1, 2, 1], SheetFault::NoSuchStretch),
        ([256, 1, 0, 1], [0, 1, 2, 1], SheetFault::NoSuchStretch),
        (
            [65_535, 65_535, 0, 1],
            [0, 1, 2, 1],
            SheetFault::NoSuchStretch,
        ),
        ([0, 1, 2, 1], [0, 0, 0, 1], SheetFault::NoSuchCount),
        ([0, 1, 0, 257], [0, 0, 0, 1], SheetFault::NoSuchCount),
        (
            [0, 1, 65_535, 65_535],
            [0, 0, 0, 1],
            SheetFault::NoSuchCount,
        ),
        // the stretch before the count
        ([0, 0, 2, 1], [0, 1, 2, 1], SheetFault::NoSuchStretch),
    ] {
        let mut numbers = [0, 4, 1, 4].to_vec(rt.alloc())?;
        numbers.extend_from_slice(&second)?;
        numbers.extend_from_slice(&third)?;
        let added = add_numbers(rt.alloc(), &numbers)?;
        assert_eq!(rt; added.answer, Err(FileFault::Sheet(fault)), "at {second:?}");
        assert_eq!(rt; (added.rules, added.book.rows()), (1, [FIRST].as_slice()));
    }
    Ok(())
}

#[test]
fn up_to_32_rules_with_those_that_stand(rt: HostRuntime) -> Result<(), Fail> {
    let added = add(&ONE_LOT.repeat(rt.alloc(), 31)?)?;
    assert_eq!(rt; added.answer, Ok(()));
    assert_eq!(rt; (added.rules, added.book.rules()), (32, 32));
    assert_eq!(rt; added.book.rows().get(31), Some(&rule(0, 1, 0, 1)));
    for rules in 32..35 {
        let full = add(&ONE_LOT.repeat(rt.alloc(), rules)?)?;
        assert_eq!(rt;
            full.answer,
            Err(FileFault::Sheet(SheetFault::BookFull)),
            "at {rules}"
        );
        assert_eq!(rt; (full.rules, full.book.rows()), (1, [FIRST].as_slice()));
    }
    Ok(())
}

// The book's 33rd rule is looked at before the book is told to be full, and none behind it is.
#[test]
fn a_refused_rule_at_a_full_book(rt: HostRuntime) -> Result<(), Fail> {
    for (fine, fault) in [(31, SheetFault::NoSuchCount), (32, SheetFault::BookFull)] {
        let mut bytes = ONE_LOT.repeat(rt.alloc(), fine)?;
        bytes.extend_from_slice(&[0, 0, 1, 0, 2, 0, 1, 0])?;
        let full = add(&bytes)?;
        assert_eq!(rt; full.answer, Err(FileFault::Sheet(fault)), "at {fine}");
        assert_eq!(rt; (full.rules, full.book.rows()), (1, [FIRST].as_slice()));
    }
    Ok(())
}

#[test]
fn a_slip_of_another_sheet(rt: HostRuntime) -> Result<(), Fail> {
    let mut book = Book::empty(0);
    let mut slip = start(&WordStore::new(&mut [1; 4]), &mut book)?;
    let mut other = Book::empty(3);
    // even before a stretch of no lots
    let answer = add_rules(&mut slip, &mut other, &[0, 0, 0, 0, 0, 0, 1, 0]);
    let none = add_rules(&mut slip, &mut other, &[]);
    let rules = slip.rules();
    slip.put_away();
    assert_eq!(rt; answer, Err(FileFault::Sheet(SheetFault::Mismatch)));
    assert_eq!(rt; none, Ok(()));
    assert_eq!(rt; (rules, other.lots(), other.rules()), (0, 3, 0));
    Ok(())
}
