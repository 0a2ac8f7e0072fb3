// Lists of calls, refused ones among them.
use crate::house::{closed, counts, rule, settled};
use base_stores::masks::MaskStore;
use base_stores::words::WordStore;
use plan::calls::{Call, Outcome};
use plan::run::make_calls;
use sheet::book::Book;
use sheet::fault::{SheetFault, StoreRefusal};
use std::test::Fail;
use store::fault::StoreFault;

#[test]
fn refused_calls_change_nothing(rt: HostRuntime) -> Result<(), Fail> {
    let calls = [
        Call::NotBefore(0, 9),
        Call::NotBefore(1, 10_000),
        Call::AtLeast(0, 4),
        Call::AtMost(3, 1),
        Call::NotBefore(1, 5),
        Call::AtMost(0, 1),
        Call::Settle,
        Call::Plan,
    ];
    let mut words = [3, 5, 4, 8];
    let mut book = Book::empty(0);
    let slip = closed(&WordStore::new(&mut words), &mut book, &[rule(0, 2, 0, 3)])?;
    let mut answer = [0; 2];
    let mut work = [7; 4096];
    let mut outcomes = [Outcome::Planned(Ok(9)); 9];
    let made = make_calls(
        &slip,
        &mut WordStore::new(&mut words),
        &mut book,
        &calls,
        &mut outcomes,
        &mut answer,
        &mut work,
    );
    slip.put_away();
    made?;
    let past = StoreRefusal {
        lot: 0,
        fault: StoreFault::WouldEmpty,
    };
    let wanted = [
        Outcome::Asked(Err(SheetFault::Store(past))),
        Outcome::Asked(Err(SheetFault::NoSuchDay)),
        Outcome::Asked(Err(SheetFault::NoCountLeft(0))),
        Outcome::Asked(Err(SheetFault::NoSuchRule(3))),
        Outcome::Asked(Ok(())),
        Outcome::Asked(Ok(())),
        Outcome::Settled(Ok(())),
        Outcome::Planned(Ok(1)),
        Outcome::Planned(Ok(9)),
    ];
    assert_eq!(rt; outcomes, wanted);
    assert_eq!(rt; words, [5, 5, 5, 5]);
    assert_eq!(rt; counts(&book, 0), Some((1, 1)));
    assert_eq!(rt; answer, [5, 5]);
    Ok(())
}

#[test]
fn no_calls(rt: HostRuntime) -> Result<(), Fail> {
    let mut words = [3, 5];
    let mut book = Book::empty(0);
    let slip = closed(&WordStore::new(&mut words), &mut book, &[])?;
    let mut work = [7; 3];
    let made = make_calls(
        &slip,
        &mut WordStore::new(&mut words),
        &mut book,
        &[],
        &mut [],
        &mut [],
        &mut work,
    );
    slip.put_away();
    made?;
    assert_eq!(rt; words, [3, 5]);
    assert_eq!(rt; work, [7, 7, 7]);
    Ok(())
}

#[test]
fn too_little_room_for_the_outcomes(rt: HostRuntime) -> Result<(), Fail> {
    let mut words = [3, 5, 4, 8];
    let mut book = Book::empty(0);
    let slip = closed(&WordStore::new(&mut words), &mut book, &[rule(0, 2, 0, 3)])?;
    let mut outcomes = [Outcome::Planned(Ok(9))];
    let mut answer = [7; 2];
    let mut work = [7; 4096];
    let made = make_calls(
        &slip,
        &mut WordStore::new(&mut words),
        &mut book,
        &[Call::NotBefore(0, 5), Call::Plan],
        &mut outcomes,
        &mut answer,
        &mut work,
    );
    slip.put_away();
    assert_eq!(rt; made, Err(SheetFault::ShortAnswer));
    assert_eq!(rt; words, [3, 5, 4, 8]);
    assert_eq!(rt; counts(&book, 0), Some((0, 3)));
    assert_eq!(rt; outcomes, [Outcome::Planned(Ok(9))]);
    assert_eq!(rt; answer, [7, 7]);
    assert_eq!(rt; work[0], 7);
    Ok(())
}

// Settle moves one lot's window; the masks of the others keep their gaps.
#[test]
fn masks_with_gaps_stay(rt: HostRuntime) -> Result<(), Fail> {
    let mut masks = [0b10_1001, 0b1_0000, 0b1001_0000];
    let mut book = Book::empty(0);
    let rules = [rule(0, 2, 0, 1), rule(2, 1, 0, 1)];
    settled(&mut MaskStore::new(&mut masks), &mut book, &rules)?;
    assert_eq!(rt; masks, [0b1_0000, 0b1_0000, 0b1001_0000]);
    Ok(())
}
