// Each refusal at its edge, in the order of the checks, with the answer untouched and the working words cleared.
use crate::house::{few, lots, many};
use count::fault::CountFault;
use count::most::Most;

#[test]
fn too_few_working_words(rt: HostRuntime) {
    let mut words = [9, 1];
    let mut answer = [5; 1];
    let mut work = [8; 4095];
    let got = few(&mut words, lots(9, 0), &mut answer, &mut work);
    assert_eq!(rt; got, Err(CountFault::ShortWork));
    assert!(rt; work[0] == 8 && work[4094] == 8 && answer[0] == 5);
}

#[test]
fn too_many_lots(rt: HostRuntime) {
    let mut words = [1; 514];
    let mut answer = [5; 2];
    let mut work = [8; 4096];
    let got = many(&mut words, lots(0, 1), &mut answer, &mut work);
    assert_eq!(rt; got, Err(CountFault::TooManyLots));
    assert_eq!(rt; CountFault::TooManyLots.number(), 20);
    assert!(rt; work[0] == 0 && work[4095] == 0 && answer[0] == 5);
}

#[test]
fn the_first_faulty_window_is_named(rt: HostRuntime) {
    let mut words = [0, 9999, 1, 10_000, 3, 2];
    let mut answer = [5; 2];
    let mut work = [8; 4096];
    let got = few(&mut words, lots(0, 0), &mut answer, &mut work);
    assert_eq!(rt; got, Err(CountFault::FaultyWindow(1)));
    assert_eq!(rt; CountFault::FaultyWindow(1).place(), 1);
    assert_eq!(rt; CountFault::FaultyWindow(1).number(), 21);
    let mut empty = [3, 2];
    let got = few(&mut empty, lots(0, 0), &mut answer, &mut work);
    assert_eq!(rt; got, Err(CountFault::FaultyWindow(0)));
}

#[test]
fn stretches_that_are_not_there(rt: HostRuntime) {
    let mut words = [1, 2, 3, 4];
    let mut answer = [5; 1];
    let mut work = [8; 4096];
    let none = few(&mut words, lots(0, 0), &mut answer, &mut work);
    assert_eq!(rt; none, Err(CountFault::NoSuchStretch));
    let past = many(&mut words, lots(1, 2), &mut answer, &mut work);
    assert_eq!(rt; past, Err(CountFault::NoSuchStretch));
    let far = lots(usize::MAX, usize::MAX);
    let far = few(&mut words, far, &mut answer, &mut work);
    assert_eq!(rt; far, Err(CountFault::NoSuchStretch));
    assert_eq!(rt; CountFault::NoSuchStretch.number(), 3);
}

#[test]
fn answers_that_do_not_fit(rt: HostRuntime) {
    let mut words = [1, 2, 3, 4];
    let mut work = [8; 4096];
    let both = lots(0, 2);
    let mut short = [5; 3];
    let fewest = few(&mut words, both, &mut short, &mut work);
    assert_eq!(rt; fewest, Err(CountFault::ShortAnswer));
    let most = many(&mut words, both, &mut short, &mut work);
    assert_eq!(rt; most, Err(CountFault::ShortAnswer));
    assert_eq!(rt; short, [5; 3]);
    let mut enough = [5; 4];
    let most = many(&mut words, both, &mut enough, &mut work);
    assert_eq!(rt; most, Ok(Most { count: 2, runs: 0 }));
    assert_eq!(rt; CountFault::ShortAnswer.number(), 7);
    assert_eq!(rt; CountFault::ShortWork.number(), 6);
}
