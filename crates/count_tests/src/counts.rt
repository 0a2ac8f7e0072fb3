// The fewest and the most days, with what shows them.
use crate::house::{few, few_of_all, lots, many_of_all};
use base_stores::words::WordStore;
use calendar::period::{Period, PeriodLength};
use count::fewest::fewest;
use count::most::{Most, most};
use nvalue::count::different_days;
use std::test::Fail;

const NONE: u32 = 99_999;

#[test]
fn different_days_are_counted_once(rt: HostRuntime) {
    assert_eq!(rt; different_days(&[]), 0);
    assert_eq!(rt; different_days(&[6, 6, 6, 6, 6]), 1);
    assert_eq!(rt; different_days(&[3, 1, 7, 1, 6]), 4);
    assert_eq!(rt; different_days(&[6, 3, 0, 2, 9]), 5);
}

// Picking disjoint windows by their first day would find one.
#[test]
fn a_long_window_hides_no_point(rt: HostRuntime) {
    let mut words = [1, 9, 2, 3, 4, 5];
    let mut answer = [NONE; 7];
    let mut work = [1; 4097];
    assert_eq!(rt; few(&mut words, lots(0, 3), &mut answer, &mut work), Ok(2));
    assert_eq!(rt; answer, [5, 3, 5, 1, 2, NONE, NONE]);
    assert!(rt; work[0] == 0 && work[4095] == 0 && work[4096] == 1);
}

// The surplus of one run alone would give three.
#[test]
fn every_run_has_its_surplus(rt: HostRuntime) {
    let mut words = [1, 1, 1, 1, 5, 5, 5, 5];
    let mut answer = [NONE; 9];
    let got = many_of_all(&mut words, &mut answer);
    assert_eq!(rt; got, Ok(Most { count: 2, runs: 2 }));
    assert_eq!(rt; answer, [1, 1, 5, 5, 1, 1, 5, 5, NONE]);
}

#[test]
fn five_lots_need_three_days(rt: HostRuntime) {
    let mut words = [3, 5, 4, 8, 6, 9, 1, 2, 9, 12];
    let mut answer = [NONE; 10];
    assert_eq!(rt; few_of_all(&mut words, &mut answer), Ok(3));
    assert_eq!(rt; answer, [5, 5, 9, 2, 9, 3, 0, 2, NONE, NONE]);
}

#[test]
fn a_violated_run_costs_a_day(rt: HostRuntime) {
    let mut words = [1, 2, 1, 2, 1, 2, 2, 4, 4, 4];
    let mut answer = [NONE; 10];
    let got = many_of_all(&mut words, &mut answer);
    assert_eq!(rt; got, Ok(Most { count: 4, runs: 1 }));
    assert!(rt; answer[5] == 1 && answer[6] == 2 && answer[7] == NONE);
}

// Lot numbers are those of the store, not of the stretch.
#[test]
fn a_stretch_in_the_middle(rt: HostRuntime) {
    let mut words = [1, 1, 3, 5, 7, 8, 2, 2];
    let mut answer = [NONE; 4];
    let mut work = [0; 4096];
    assert_eq!(rt; few(&mut words, lots(1, 2), &mut answer, &mut work), Ok(2));
    assert_eq!(rt; answer, [5, 8, 1, 2]);
}

#[test]
fn one_lot_has_one_day(rt: HostRuntime) {
    let mut words = [7, 9999];
    let mut answer = [NONE; 2];
    assert_eq!(rt; few_of_all(&mut words, &mut answer), Ok(1));
    assert_eq!(rt; answer, [9999, 0]);
    let got = many_of_all(&mut words, &mut answer);
    assert_eq!(rt; got, Ok(Most { count: 1, runs: 0 }));
}

#[test]
fn a_full_house_with_one_window(rt: HostRuntime) {
    let mut words = [10; 512];
    let mut answer = [NONE; 512];
    assert_eq!(rt; few_of_all(&mut words, &mut answer), Ok(1));
    let got = many_of_all(&mut words, &mut answer);
    assert_eq!(rt; got, Ok(Most { count: 1, runs: 1 }));
}

#[test]
fn a_full_house_on_as_many_days(rt: HostRuntime) {
    let mut words = [0; 512];
    one_day_each(&mut words);
    let mut answer = [NONE; 512];
    assert_eq!(rt; few_of_all(&mut words, &mut answer), Ok(256));
    let got = many_of_all(&mut words, &mut answer);
    let wanted = Most {
        count: 256,
        runs: 0,
    };
    assert_eq!(rt; got, Ok(wanted));
}

// Lot i gets the window [i, i].
fn one_day_each(words: &mut [u32]) {
    for (i, word) in words.iter_mut().enumerate() {
        *word = (i / 2 % 256) as u32;
    }
}

#[test]
fn counts_in_weeks_are_counts_of_weeks(rt: HostRuntime) -> Result<(), Fail> {
    let week = PeriodLength::new(7)?;
    let mut words = [0, 6, 3, 6, 7, 20];
    let mut answer = [NONE; 6];
    let mut work = [0; 4096];
    let house = Period::new(WordStore::new(&mut words), week);
    assert_eq!(rt; fewest(&house, lots(0, 3), &mut answer, &mut work), Ok(2));
    let got = most(&house, lots(0, 3), &mut answer, &mut work);
    assert_eq!(rt; got, Ok(Most { count: 2, runs: 1 }));
    Ok(())
}
