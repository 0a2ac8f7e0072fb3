// Each refusal of settle and plan at its edge, in the order of the checks, and the working words after it.
use crate::house::{closed, rule};
use base_stores::words::WordStore;
use plan::planning::plan;
use plan::settle::settle;
use sheet::book::Book;
use sheet::fault::SheetFault;
use std::test::Fail;

#[test]
fn too_few_working_words(rt: HostRuntime) -> Result<(), Fail> {
    let mut words = [1, 2];
    let mut many = [1; 514];
    let mut book = Book::empty(0);
    let slip = closed(&WordStore::new(&mut words), &mut book, &[])?;
    let mut work = [8; 4095];
    let mut answer = [9; 1];
    // even before 257 lots
    let settling = settle(&slip, &mut WordStore::new(&mut many), &mut book, &mut work);
    let planning = plan(
        &slip,
        &WordStore::new(&mut many),
        &book,
        &mut answer,
        &mut work,
    );
    slip.put_away();
    assert_eq!(rt;
        (settling, planning),
        (Err(SheetFault::ShortWork), Err(SheetFault::ShortWork))
    );
    assert!(rt; work[0] == 8 && work[4094] == 8 && answer[0] == 9);
    Ok(())
}

#[test]
fn another_store(rt: HostRuntime) -> Result<(), Fail> {
    let mut words = [1, 2];
    let mut many = [1; 514];
    let mut faulty = [9, 1, 9, 1];
    let mut book = Book::empty(0);
    let slip = closed(&WordStore::new(&mut words), &mut book, &[])?;
    let mut work = [8; 4097];
    let mut answer = [9; 1];
    // 257 lots before the mismatch, the mismatch before a faulty window
    let too_many = settle(&slip, &mut WordStore::new(&mut many), &mut book, &mut work);
    let differs = plan(
        &slip,
        &WordStore::new(&mut faulty),
        &book,
        &mut answer,
        &mut work,
    );
    slip.put_away();
    assert_eq!(rt; too_many, Err(SheetFault::TooManyLots));
    assert_eq!(rt; differs, Err(SheetFault::Mismatch));
    assert!(rt; work[0] == 0 && work[4095] == 0 && work[4096] == 8 && answer[0] == 9);
    Ok(())
}

#[test]
fn a_faulty_window_and_a_short_answer(rt: HostRuntime) -> Result<(), Fail> {
    let mut words = [1, 2, 3, 4];
    let mut faulty = [1, 2, 4, 3];
    let mut book = Book::empty(0);
    let slip = closed(&WordStore::new(&mut words), &mut book, &[rule(0, 2, 3, 3)])?;
    let mut work = [8; 4096];
    let mut answer = [9; 1];
    // a faulty window before a short answer, a short answer before "no plan"
    let no_window = plan(
        &slip,
        &WordStore::new(&mut faulty),
        &book,
        &mut answer,
        &mut work,
    );
    let short = plan(
        &slip,
        &WordStore::new(&mut words),
        &book,
        &mut answer,
        &mut work,
    );
    let mut room = [9; 3];
    let none = plan(
        &slip,
        &WordStore::new(&mut words),
        &book,
        &mut room,
        &mut work,
    );
    slip.put_away();
    assert_eq!(rt; no_window, Err(SheetFault::FaultyWindow(1)));
    assert_eq!(rt; short, Err(SheetFault::ShortAnswer));
    assert_eq!(rt; none, Err(SheetFault::NoPlan));
    assert_eq!(rt; room, [9; 3]);
    assert!(rt; work[0] == 0 && work[4095] == 0 && answer[0] == 9);
    Ok(())
}

#[test]
fn answer_words_past_the_lots_stay(rt: HostRuntime) -> Result<(), Fail> {
    let mut words = [1, 2, 3, 4];
    let mut book = Book::empty(0);
    let slip = closed(&WordStore::new(&mut words), &mut book, &[])?;
    let mut work = [8; 5000];
    let mut answer = [9; 3];
    let planned = plan(
        &slip,
        &WordStore::new(&mut words),
        &book,
        &mut answer,
        &mut work,
    );
    slip.put_away();
    assert_eq!(rt; planned, Ok(2));
    assert_eq!(rt; answer, [1, 3, 9]);
    assert!(rt; work[0] == 0 && work[4095] == 0 && work[4096] == 8 && work[4999] == 8);
    Ok(())
}
