// Files planned; 77 is a word that the caller had there.
use crate::house::{
    EMPTY, FIVE_LOTS, file_of, five_lots_with, longer, longest, lots_257, rules_33, window_of,
};
use file::fault::FileFault;
use reply::plan_file::plan_file;
use sheet::fault::SheetFault;
use std::test::Fail;

#[test]
fn five_lots_on_three_days(rt: HostRuntime) {
    let mut answer = [77; 7];
    assert_eq!(rt; plan_file(&FIVE_LOTS, &mut answer), Ok(5));
    assert_eq!(rt; answer, [4, 4, 9, 1, 9, 77, 77]);
    let mut exact = [77; 5];
    assert_eq!(rt; plan_file(&FIVE_LOTS, &mut exact), Ok(5));
    assert_eq!(rt; exact, [4, 4, 9, 1, 9]);
}

#[test]
fn one_answer_word_too_few(rt: HostRuntime) {
    let mut answer = [77; 4];
    assert_eq!(rt;
        plan_file(&FIVE_LOTS, &mut answer),
        Err(FileFault::Sheet(SheetFault::ShortAnswer))
    );
    assert_eq!(rt; answer, [77; 4]);
}

#[test]
fn no_lots_have_a_plan(rt: HostRuntime) {
    let mut answer = [77; 2];
    assert_eq!(rt; plan_file(&EMPTY, &mut answer), Ok(0));
    assert_eq!(rt; answer, [77; 2]);
    assert_eq!(rt; plan_file(&EMPTY, &mut []), Ok(0));
}

// Each lot gets its first day, as these keep every rule.
#[test]
fn the_longest_file_is_planned(rt: HostRuntime) -> Result<(), Fail> {
    let mut answer = [77; 257];
    assert_eq!(rt; plan_file(&longest(rt.alloc())?, &mut answer), Ok(256));
    for (lot, day) in (0..256).zip(&answer) {
        assert_eq!(rt; *day, u32::from(window_of(lot).0), "at {lot}");
    }
    assert_eq!(rt; answer[256], 77);
    Ok(())
}

#[test]
fn a_cut_file_is_not_planned(rt: HostRuntime) {
    for length in 0..36 {
        let fault = if length < 8 {
            FileFault::NoSheetFile
        } else {
            FileFault::TrailerDisagrees
        };
        let mut answer = [77; 5];
        let without_the_end = plan_file(&FIVE_LOTS[..length], &mut answer);
        let without_the_front = plan_file(&FIVE_LOTS[36 - length..], &mut answer);
        assert_eq!(rt; without_the_end, Err(FileFault::NoSheetFile), "at {length}");
        assert_eq!(rt; without_the_front, Err(fault), "at {length}");
        assert_eq!(rt; answer, [77; 5], "at {length}");
    }
}

// The length is looked at before the letters.
#[test]
fn more_bytes_than_the_longest_file(rt: HostRuntime) -> Result<(), Fail> {
    let mut answer = [77; 256];
    let file = longer(rt.alloc())?;
    assert_eq!(rt; file.len(), 1289);
    assert_eq!(rt;
        plan_file(&file, &mut answer),
        Err(FileFault::TrailerDisagrees)
    );
    let mut without_letters = longest(rt.alloc())?;
    without_letters.push(0)?;
    assert_eq!(rt;
        plan_file(&without_letters, &mut answer),
        Err(FileFault::TrailerDisagrees)
    );
    assert_eq!(rt;
        plan_file(&[0; 5000], &mut answer),
        Err(FileFault::TrailerDisagrees)
    );
    assert_eq!(rt;
        plan_file(&[0; 1288], &mut answer),
        Err(FileFault::NoSheetFile)
    );
    assert_eq!(rt; answer, [77; 256]);
    Ok(())
}

#[test]
fn too_many_lots_or_rules(rt: HostRuntime) -> Result<(), Fail> {
    let mut answer = [77; 257];
    for file in [lots_257(rt.alloc())?, rules_33(rt.alloc())?] {
        assert_eq!(rt;
            plan_file(&file, &mut answer),
            Err(FileFault::TrailerDisagrees)
        );
    }
    assert_eq!(rt; answer, [77; 257]);
    Ok(())
}

// Two lots and one rule: sheets with one fault, and sheets with another that would be found later.
#[test]
fn the_first_refusal_on_the_way(rt: HostRuntime) -> Result<(), Fail> {
    for (lots, rule, fault) in [
        ([8, 4, 6, 9], [0, 2, 0, 2], SheetFault::FaultyWindow(0)),
        ([3, 5, 6, 10_000], [0, 2, 0, 2], SheetFault::FaultyWindow(1)),
        (
            [3, 5, 65_535, 65_535],
            [0, 2, 0, 2],
            SheetFault::FaultyWindow(1),
        ),
        ([3, 5, 6, 9], [1, 2, 0, 2], SheetFault::NoSuchStretch),
        ([3, 5, 6, 9], [1, 0, 0, 2], SheetFault::NoSuchStretch),
        ([3, 5, 6, 9], [0, 2, 2, 1], SheetFault::NoSuchCount),
        ([3, 5, 6, 9], [0, 2, 0, 257], SheetFault::NoSuchCount),
        ([3, 5, 6, 9], [0, 2, 0, 1], SheetFault::NoPlan),
        ([3, 5, 6, 9], [0, 2, 3, 256], SheetFault::NoPlan),
        // both windows are faulty
        ([8, 4, 9, 6], [0, 2, 0, 2], SheetFault::FaultyWindow(0)),
        // a faulty window before a refused rule
        ([3, 5, 9, 6], [1, 2, 2, 1], SheetFault::FaultyWindow(1)),
        // a stretch before a count
        ([3, 5, 6, 9], [1, 2, 2, 1], SheetFault::NoSuchStretch),
    ] {
        let mut numbers = lots.to_vec(rt.alloc())?;
        numbers.extend_from_slice(&rule)?;
        numbers.extend_from_slice(&[8, 2, 1])?;
        let file = file_of(rt.alloc(), &numbers)?;
        let mut answer = [77; 2];
        assert_eq!(rt;
            plan_file(&file, &mut answer),
            Err(FileFault::Sheet(fault)),
            "at {lots:?}, {rule:?}"
        );
        assert_eq!(rt; answer, [77; 2]);
    }
    Ok(())
}

#[test]
fn two_faults_in_one_file(rt: HostRuntime) -> Result<(), Fail> {
    let mut answer = [77; 1];
    // the letters before the trailer's numbers
    let mut damaged = five_lots_with(21, 5, 1);
    damaged[34] = b'h';
    assert_eq!(rt;
        plan_file(&damaged, &mut answer),
        Err(FileFault::NoSheetFile)
    );
    // the trailer's numbers before a faulty window
    let faulty = file_of(rt.alloc(), &[8, 4, 4, 2, 0])?;
    assert_eq!(rt;
        plan_file(&faulty, &mut answer),
        Err(FileFault::TrailerDisagrees)
    );
    // the first of two refused rules
    let rules = file_of(rt.alloc(), &[3, 5, 0, 1, 2, 1, 0, 2, 0, 1, 4, 1, 2])?;
    assert_eq!(rt;
        plan_file(&rules, &mut answer),
        Err(FileFault::Sheet(SheetFault::NoSuchCount))
    );
    // a refused rule before too few answer words, and these before "no plan"
    let refused = file_of(rt.alloc(), &[3, 5, 6, 9, 1, 2, 0, 1, 8, 2, 1])?;
    assert_eq!(rt;
        plan_file(&refused, &mut answer),
        Err(FileFault::Sheet(SheetFault::NoSuchStretch))
    );
    let no_plan = file_of(rt.alloc(), &[3, 5, 6, 9, 0, 2, 0, 1, 8, 2, 1])?;
    assert_eq!(rt;
        plan_file(&no_plan, &mut answer),
        Err(FileFault::Sheet(SheetFault::ShortAnswer))
    );
    assert_eq!(rt; answer, [77; 1]);
    Ok(())
}

#[test]
fn day_9_999_and_a_ceiling_of_256(rt: HostRuntime) -> Result<(), Fail> {
    let file = file_of(rt.alloc(), &[9999, 9999, 0, 9999, 0, 2, 0, 256, 8, 2, 1])?;
    let mut answer = [77; 3];
    assert_eq!(rt; plan_file(&file, &mut answer), Ok(2));
    assert_eq!(rt; answer, [9999, 0, 77]);
    Ok(())
}
