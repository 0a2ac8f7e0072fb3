// Sheets small enough to settle and plan by hand.
use crate::house::{counts, planned, rule, settled};
use base_stores::words::WordStore;
use sheet::book::Book;
use sheet::fault::SheetFault;

#[test]
fn no_lots_and_no_rule(rt: HostRuntime) {
    let mut words = [];
    let mut days = [8; 1];
    assert_eq!(rt; planned(&WordStore::new(&mut words), &[], &mut days), Ok(0));
    assert_eq!(rt; days, [8]);
    let mut book = Book::empty(0);
    assert_eq!(rt;
        settled(&mut WordStore::new(&mut words), &mut book, &[]),
        Ok(())
    );
}

#[test]
fn one_lot_and_no_rule(rt: HostRuntime) {
    let mut words = [5, 9];
    let mut days = [0; 1];
    assert_eq!(rt; planned(&WordStore::new(&mut words), &[], &mut days), Ok(1));
    assert_eq!(rt; days, [5]);
}

#[test]
fn a_count_that_cannot_be_0(rt: HostRuntime) {
    let mut words = [7, 7];
    let mut book = Book::empty(0);
    assert_eq!(rt;
        settled(
            &mut WordStore::new(&mut words),
            &mut book,
            &[rule(0, 1, 0, 1)]
        ),
        Ok(())
    );
    assert_eq!(rt; counts(&book, 0), Some((1, 1)));
    assert_eq!(rt; words, [7, 7]);
}

// A fewest that is also the ceiling.
#[test]
fn five_lots_on_three_days(rt: HostRuntime) {
    let mut words = [3, 5, 4, 8, 6, 9, 1, 2, 9, 12];
    let mut days = [0; 5];
    assert_eq!(rt;
        planned(&WordStore::new(&mut words), &[rule(0, 5, 0, 3)], &mut days),
        Ok(3)
    );
    assert_eq!(rt; days, [4, 4, 9, 1, 9]);
    assert_eq!(rt; words, [3, 5, 4, 8, 6, 9, 1, 2, 9, 12]);
    let mut book = Book::empty(0);
    assert_eq!(rt;
        settled(
            &mut WordStore::new(&mut words),
            &mut book,
            &[rule(0, 5, 0, 3)]
        ),
        Ok(())
    );
    assert_eq!(rt; words, [4, 5, 4, 5, 9, 9, 1, 2, 9, 9]);
    assert_eq!(rt; counts(&book, 0), Some((3, 3)));
}

#[test]
fn five_lots_on_two_days(rt: HostRuntime) {
    let mut words = [3, 5, 4, 8, 6, 9, 1, 2, 9, 12];
    let mut book = Book::empty(0);
    let answer = settled(
        &mut WordStore::new(&mut words),
        &mut book,
        &[rule(0, 5, 0, 2)],
    );
    assert_eq!(rt; answer, Err(SheetFault::NoFirmWindows));
    assert_eq!(rt; words, [3, 5, 4, 8, 6, 9, 1, 2, 9, 12]);
    assert_eq!(rt; counts(&book, 0), Some((0, 2)));
    let mut days = [8; 5];
    assert_eq!(rt;
        planned(&WordStore::new(&mut words), &[rule(0, 5, 0, 2)], &mut days),
        Err(SheetFault::NoPlan)
    );
    assert_eq!(rt; days, [8; 5]);
}

// A most that is also the floor.
#[test]
fn three_lots_crowd_two_days(rt: HostRuntime) {
    let mut words = [1, 2, 1, 2, 1, 2, 2, 4, 4, 4];
    let mut days = [0; 5];
    assert_eq!(rt;
        planned(&WordStore::new(&mut words), &[rule(0, 5, 4, 5)], &mut days),
        Ok(4)
    );
    assert_eq!(rt; days, [1, 1, 2, 3, 4]);
    let mut book = Book::empty(0);
    assert_eq!(rt;
        settled(
            &mut WordStore::new(&mut words),
            &mut book,
            &[rule(0, 5, 4, 5)]
        ),
        Ok(())
    );
    assert_eq!(rt; words, [1, 2, 1, 2, 1, 2, 3, 3, 4, 4]);
    assert_eq!(rt; counts(&book, 0), Some((4, 4)));
}

#[test]
fn three_lots_crowd_two_days_too_much(rt: HostRuntime) {
    let mut words = [1, 2, 1, 2, 1, 2, 2, 4, 4, 4];
    let mut book = Book::empty(0);
    let answer = settled(
        &mut WordStore::new(&mut words),
        &mut book,
        &[rule(0, 5, 5, 5)],
    );
    assert_eq!(rt; answer, Err(SheetFault::NoFirmWindows));
    assert_eq!(rt; words, [1, 2, 1, 2, 1, 2, 2, 4, 4, 4]);
}

// Every rule is firm by itself, and no plan keeps all of them.
#[test]
fn firm_and_yet_no_plan(rt: HostRuntime) {
    let rules = [rule(0, 2, 1, 1), rule(1, 2, 1, 1), rule(0, 3, 2, 3)];
    let mut words = [1, 2, 1, 2, 1, 2];
    let mut book = Book::empty(0);
    assert_eq!(rt;
        settled(&mut WordStore::new(&mut words), &mut book, &rules),
        Ok(())
    );
    assert_eq!(rt; words, [1, 2, 1, 2, 1, 2]);
    assert_eq!(rt;
        (counts(&book, 0), counts(&book, 1), counts(&book, 2)),
        (Some((1, 1)), Some((1, 1)), Some((2, 2)))
    );
    let mut days = [0; 3];
    assert_eq!(rt;
        planned(&WordStore::new(&mut words), &rules, &mut days),
        Err(SheetFault::NoPlan)
    );
}

// The same on 10,000 days: no day is tried twice in vain.
#[test]
fn firm_and_yet_no_plan_on_many_days(rt: HostRuntime) {
    let rules = [rule(0, 2, 1, 1), rule(1, 2, 1, 1), rule(0, 3, 2, 3)];
    let mut words = [0, 9999, 0, 9999, 0, 9999];
    let mut days = [0; 3];
    assert_eq!(rt;
        planned(&WordStore::new(&mut words), &rules, &mut days),
        Err(SheetFault::NoPlan)
    );
}

// A later rule narrows a lot that an earlier one looked at: the earlier one is looked at again.
#[test]
fn a_rule_is_reopened(rt: HostRuntime) {
    let rules = [rule(0, 2, 1, 1), rule(1, 2, 1, 1)];
    let mut words = [0, 9, 0, 9, 4, 4];
    let mut book = Book::empty(0);
    assert_eq!(rt;
        settled(&mut WordStore::new(&mut words), &mut book, &rules),
        Ok(())
    );
    assert_eq!(rt; words, [4, 4, 4, 4, 4, 4]);
}

// The late group is limited to three days; the season uses more.
#[test]
fn a_limit_belongs_to_its_group(rt: HostRuntime) {
    let rules = [rule(0, 4, 4, 4), rule(4, 5, 0, 3)];
    let mut words = [1, 1, 2, 2, 3, 3, 4, 4, 5, 6, 6, 7, 7, 9, 8, 9, 9, 11];
    let mut days = [0; 9];
    assert_eq!(rt;
        planned(&WordStore::new(&mut words), &rules, &mut days),
        Ok(7)
    );
    assert_eq!(rt; days, [1, 2, 3, 4, 5, 6, 9, 9, 9]);
}

// The search goes back inside a group: day 1 of lot 0 fails, day 2 works.
#[test]
fn the_first_day_fails(rt: HostRuntime) {
    let rules = [
        rule(0, 2, 1, 1),
        rule(1, 2, 2, 2),
        rule(0, 3, 2, 2),
        rule(2, 2, 1, 1),
    ];
    let mut words = [1, 2, 1, 2, 1, 2, 1, 1];
    let mut days = [0; 4];
    assert_eq!(rt;
        planned(&WordStore::new(&mut words), &rules, &mut days),
        Ok(2)
    );
    assert_eq!(rt; days, [2, 2, 1, 1]);
}
