// The same sheet over every store: counts belong to the calendar that is shown.
use crate::house::{planned, rule, settled};
use base_stores::masks::MaskStore;
use base_stores::words::WordStore;
use calendar::dispatch::Dispatch;
use calendar::period::{Period, PeriodLength};
use sheet::book::Book;
use sheet::fault::SheetFault;
use std::test::Fail;

#[test]
fn before_dispatch(rt: HostRuntime) {
    let mut words = [3, 5, 4, 8, 6, 9, 1, 2, 9, 12];
    let mut days = [0; 5];
    let house = Dispatch::new(WordStore::new(&mut words), 20);
    assert_eq!(rt; planned(&house, &[rule(0, 5, 0, 3)], &mut days), Ok(3));
    assert_eq!(rt; days, [15, 15, 11, 18, 11]);
    let mut book = Book::empty(0);
    let mut turned = Dispatch::new(WordStore::new(&mut words), 20);
    assert_eq!(rt;
        settled(&mut turned, &mut book, &[rule(0, 5, 0, 3)]),
        Ok(())
    );
    assert_eq!(rt; words, [4, 5, 4, 5, 9, 9, 1, 2, 9, 9]);
}

#[test]
fn in_weeks(rt: HostRuntime) -> Result<(), Fail> {
    let week = PeriodLength::new(7)?;
    let mut words = [3, 5, 4, 8, 6, 9, 15, 16, 9, 12];
    let mut days = [0; 5];
    // two weeks are too few, though three days of the season would be too
    let refused = planned(
        &Period::new(WordStore::new(&mut words), week),
        &[rule(0, 5, 0, 2)],
        &mut days,
    );
    assert_eq!(rt; refused, Err(SheetFault::NoPlan));
    let answer = planned(
        &Period::new(WordStore::new(&mut words), week),
        &[rule(0, 5, 0, 3)],
        &mut days,
    );
    assert_eq!(rt; answer, Ok(3));
    assert_eq!(rt; days, [0, 0, 0, 2, 1]);
    Ok(())
}

#[test]
fn in_weeks_before_dispatch(rt: HostRuntime) -> Result<(), Fail> {
    let week = PeriodLength::new(7)?;
    let mut words = [3, 5, 4, 8, 6, 9, 15, 16, 9, 12];
    let mut days = [0; 5];
    let house = Period::new(Dispatch::new(WordStore::new(&mut words), 20), week);
    assert_eq!(rt; planned(&house, &[rule(0, 5, 0, 3)], &mut days), Ok(3));
    assert_eq!(rt; days, [2, 1, 1, 0, 1]);
    Ok(())
}

#[test]
fn on_masks(rt: HostRuntime) {
    // days 3 to 5, 4 to 8 with gaps, 6 to 9, 1 to 2, 9 to 12
    let mut masks = [56, 272, 960, 6, 7680];
    let mut days = [0; 5];
    assert_eq!(rt;
        planned(&MaskStore::new(&mut masks), &[rule(0, 5, 0, 3)], &mut days),
        Ok(3)
    );
    assert_eq!(rt; days, [4, 4, 9, 1, 9]);
    assert_eq!(rt; masks, [56, 272, 960, 6, 7680]);
    let mut book = Book::empty(0);
    assert_eq!(rt;
        settled(
            &mut MaskStore::new(&mut masks),
            &mut book,
            &[rule(0, 5, 0, 3)]
        ),
        Ok(())
    );
    assert_eq!(rt; masks, [48, 48, 512, 6, 512]);
}
