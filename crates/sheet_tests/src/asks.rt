// The four asks, and count windows that are written.
use crate::house::row;
use base_stores::words::WordStore;
use nvalue::count_window::CountWindow;
use nvalue::stretch::Stretch;
use rules::row::Row;
use sheet::asks::{at_least, at_most, not_after, not_before};
use sheet::book::Book;
use sheet::fault::{SheetFault, StoreRefusal};
use sheet::slip::Closed;
use sheet::start::{add_rows, add_rule, start};
use std::test::Fail;
use store::fault::StoreFault;

// A closed sheet with one rule over all lots, from 1 to 3 days.
fn closed(words: &mut [u32], book: &mut Book) -> Result<Closed, SheetFault> {
    let length = words.len() / 2;
    let mut slip = start(&WordStore::new(words), book)?;
    let all = Stretch { first: 0, length };
    if let Err(fault) = add_rule(&mut slip, book, all, 1, 3) {
        slip.put_away();
        return Err(fault);
    }
    Ok(slip.close())
}

fn counts(floor: u32, ceiling: u32) -> Option<Row> {
    Some(over_lots(0, 2, floor, ceiling))
}

fn over_lots(first: usize, length: usize, floor: u32, ceiling: u32) -> Row {
    let stretch = Stretch { first, length };
    Row {
        stretch,
        floor,
        ceiling,
    }
}

fn store_refusal(lot: usize, fault: StoreFault) -> SheetFault {
    SheetFault::Store(StoreRefusal { lot, fault })
}

fn narrowed(book: &mut Book, number: usize, floor: u32, ceiling: u32) -> Option<bool> {
    let count = CountWindow::new(floor, ceiling)?;
    Some(book.narrow(number, count))
}

#[test]
fn asks_for_days_move_one_end(rt: HostRuntime) -> Result<(), Fail> {
    let mut words = [3, 5, 4, 8];
    let mut book = Book::empty(0);
    let slip = closed(&mut words, &mut book)?;
    let mut house = WordStore::new(&mut words);
    let later = not_before(&slip, &mut house, &book, 1, 6);
    let earlier = not_after(&slip, &mut house, &book, 0, 4);
    let stays = not_before(&slip, &mut house, &book, 0, 0);
    let stays_too = not_after(&slip, &mut house, &book, 0, 9999);
    slip.put_away();
    assert_eq!(rt;
        (later, earlier, stays, stays_too),
        (Ok(()), Ok(()), Ok(()), Ok(()))
    );
    assert_eq!(rt; words, [3, 4, 6, 8]);
    Ok(())
}

#[test]
fn asks_for_days_refuse_in_order(rt: HostRuntime) -> Result<(), Fail> {
    let mut words = [3, 5, 4, 8];
    let mut book = Book::empty(0);
    let slip = closed(&mut words, &mut book)?;
    let mut house = WordStore::new(&mut words);
    // the day before the lot, the lot before the window
    let no_day = not_before(&slip, &mut house, &book, 7, 10_000);
    let no_day_after = not_after(&slip, &mut house, &book, 7, u32::MAX);
    let no_lot = not_before(&slip, &mut house, &book, 2, 9999);
    let no_lot_after = not_after(&slip, &mut house, &book, 3, 0);
    let past = not_before(&slip, &mut house, &book, 0, 9999);
    let before = not_after(&slip, &mut house, &book, 1, 3);
    slip.put_away();
    assert_eq!(rt; no_day, Err(SheetFault::NoSuchDay));
    assert_eq!(rt; no_day_after, Err(SheetFault::NoSuchDay));
    assert_eq!(rt; no_lot, Err(store_refusal(2, StoreFault::NoSuchLot)));
    assert_eq!(rt; no_lot_after, Err(store_refusal(3, StoreFault::NoSuchLot)));
    assert_eq!(rt; past, Err(store_refusal(0, StoreFault::WouldEmpty)));
    assert_eq!(rt; before, Err(store_refusal(1, StoreFault::WouldEmpty)));
    assert_eq!(rt; words, [3, 5, 4, 8]);
    Ok(())
}

#[test]
fn asks_for_counts_move_one_end(rt: HostRuntime) -> Result<(), Fail> {
    let mut words = [3, 5, 4, 8];
    let mut book = Book::empty(0);
    let slip = closed(&mut words, &mut book)?;
    let stays = at_least(&slip, &mut book, 0, 1);
    let lifts = at_least(&slip, &mut book, 0, 2);
    let lifted = row(&book, 0);
    let stays_too = at_most(&slip, &mut book, 0, 256);
    let drops = at_most(&slip, &mut book, 0, 2);
    slip.put_away();
    assert_eq!(rt;
        (stays, lifts, stays_too, drops),
        (Ok(()), Ok(()), Ok(()), Ok(()))
    );
    assert_eq!(rt; (lifted, row(&book, 0)), (counts(2, 3), counts(2, 2)));
    Ok(())
}

#[test]
fn asks_for_counts_refuse_in_order(rt: HostRuntime) -> Result<(), Fail> {
    let mut words = [3, 5, 4, 8];
    let mut book = Book::empty(0);
    let slip = closed(&mut words, &mut book)?;
    let no_rule = at_least(&slip, &mut book, 1, 9);
    let no_rule_most = at_most(&slip, &mut book, 4, 0);
    let above = at_least(&slip, &mut book, 0, 4);
    let below = at_most(&slip, &mut book, 0, 0);
    slip.put_away();
    assert_eq!(rt; no_rule, Err(SheetFault::NoSuchRule(1)));
    assert_eq!(rt; no_rule_most, Err(SheetFault::NoSuchRule(4)));
    assert_eq!(rt; above, Err(SheetFault::NoCountLeft(0)));
    assert_eq!(rt; below, Err(SheetFault::NoCountLeft(0)));
    assert_eq!(rt; row(&book, 0), counts(1, 3));
    Ok(())
}

#[test]
fn slip_book_and_store_disagree(rt: HostRuntime) -> Result<(), Fail> {
    let mut words = [3, 5, 4, 8];
    let mut more = [3, 5, 4, 8, 1, 1];
    let mut book = Book::empty(0);
    let slip = closed(&mut words, &mut book)?;
    let mut empty = Book::empty(2);
    // even before a day above 9,999, and before a rule that is not there
    let another_store = not_before(&slip, &mut WordStore::new(&mut more), &book, 0, 10_000);
    let another_book = not_after(&slip, &mut WordStore::new(&mut words), &empty, 9, 4);
    let rules_differ = at_least(&slip, &mut empty, 7, 1);
    let mut longer = Book::empty(3);
    let lots_differ = at_most(&slip, &mut longer, 7, 1);
    slip.put_away();
    assert_eq!(rt; another_store, Err(SheetFault::Mismatch));
    assert_eq!(rt; another_book, Err(SheetFault::Mismatch));
    assert_eq!(rt; rules_differ, Err(SheetFault::Mismatch));
    assert_eq!(rt; lots_differ, Err(SheetFault::Mismatch));
    assert_eq!(rt; words, [3, 5, 4, 8]);
    assert_eq!(rt; more, [3, 5, 4, 8, 1, 1]);
    Ok(())
}

#[test]
fn a_rule_never_loosens(rt: HostRuntime) -> Result<(), Fail> {
    let mut words = [3, 5, 4, 8];
    let mut book = Book::empty(0);
    let slip = closed(&mut words, &mut book)?;
    slip.put_away();
    let wider = narrowed(&mut book, 0, 0, 3);
    let longer = narrowed(&mut book, 0, 1, 4);
    let no_rule = narrowed(&mut book, 1, 2, 2);
    assert_eq!(rt;
        (wider, longer, no_rule),
        (Some(false), Some(false), Some(false))
    );
    assert_eq!(rt; row(&book, 0), counts(1, 3));
    assert_eq!(rt; narrowed(&mut book, 0, 2, 2), Some(true));
    assert_eq!(rt; row(&book, 0), counts(2, 2));
    Ok(())
}

#[test]
fn all_rules_narrow_at_once(rt: HostRuntime) -> Result<(), Fail> {
    let mut words = [3, 5, 4, 8];
    let mut book = Book::empty(0);
    let mut slip = start(&WordStore::new(&mut words), &mut book)?;
    let rows = [over_lots(0, 2, 0, 3), over_lots(1, 1, 1, 2)];
    let added = add_rows(&mut slip, &mut book, &rows);
    slip.put_away();
    assert_eq!(rt; added, Ok(()));
    // fewer rows, another stretch, a looser end of the last rule, a count window that is empty
    for refused in [
        [over_lots(0, 2, 1, 2)].as_slice(),
        [over_lots(0, 2, 1, 2), over_lots(0, 1, 1, 1)].as_slice(),
        [over_lots(0, 2, 1, 2), over_lots(1, 1, 0, 1)].as_slice(),
        [over_lots(0, 2, 1, 2), over_lots(1, 1, 1, 3)].as_slice(),
        [over_lots(0, 2, 3, 2), over_lots(1, 1, 1, 1)].as_slice(),
    ] {
        assert!(rt; !book.narrow_all(refused));
        assert_eq!(rt; book.rows(), rows.as_slice());
    }
    let tighter = [over_lots(0, 2, 0, 2), over_lots(1, 1, 1, 1)];
    assert!(rt; book.narrow_all(&tighter));
    assert_eq!(rt; (book.lots(), book.rows()), (2, tighter.as_slice()));
    let mut none = Book::empty(2);
    assert!(rt; none.narrow_all(&[]));
    Ok(())
}

#[test]
fn every_refusal_has_its_number_and_place(rt: HostRuntime) {
    let cases = [
        (store_refusal(7, StoreFault::NoSuchLot), 1, 7),
        (SheetFault::NoSuchDay, 2, 0),
        (SheetFault::NoSuchStretch, 3, 0),
        (SheetFault::NoSuchCount, 4, 0),
        (SheetFault::NoSuchRule(9), 5, 9),
        (SheetFault::ShortWork, 6, 0),
        (SheetFault::ShortAnswer, 7, 0),
        (SheetFault::TooManyLots, 20, 0),
        (SheetFault::FaultyWindow(8), 21, 8),
        (SheetFault::BookFull, 22, 0),
        (store_refusal(6, StoreFault::WouldEmpty), 23, 6),
        (SheetFault::NoCountLeft(5), 24, 5),
        (SheetFault::NoFirmWindows, 25, 0),
        (SheetFault::NoPlan, 26, 0),
        (SheetFault::Mismatch, 27, 0),
    ];
    for (fault, number, place) in cases {
        assert_eq!(rt; (fault.number(), fault.place()), (number, place));
    }
}
