// What is written, and how a run ends.
use crate::fakes::{Sink, Source};
use console::fault::StreamFault;
use console::run::run;
use reply::reply::Replied;
use std::alloc::Global;
use std::io::ErrorKind;
use std::test::Fail;

const FIVE_LOTS: [u8; 36] = [
    3, 0, 5, 0, 4, 0, 8, 0, 6, 0, 9, 0, 1, 0, 2, 0, 9, 0, 12, 0, 0, 0, 5, 0, 0, 0, 3, 0, 20, 0, 5,
    0, 1, 0, 72, 68,
];

const TEXT: &[u8; 67] =
    b"lot 0 day 4\nlot 1 day 4\nlot 2 day 9\nlot 3 day 1\nlot 4 day 9\ndays 3\n";

fn source(bytes: &[u8], piece: usize) -> Source<'_> {
    Source {
        rest: bytes,
        piece,
        interrupted: false,
        fails: false,
    }
}

fn sink(alloc: Global, piece: usize, limit: usize) -> Sink {
    Sink {
        taken: Vec::new(alloc),
        piece,
        limit,
        interrupted: false,
        fails: true,
        flushes: true,
    }
}

#[derive(Clone, Copy, PartialEq, Eq, Debug)]
enum Ended {
    Told(Replied),
    Input(ErrorKind),
    Output(ErrorKind),
}

fn end_of(r: Result<Replied, StreamFault>) -> Ended {
    match r {
        Ok(told) => Ended::Told(told),
        Err(StreamFault::Input(e)) => Ended::Input(e.kind()),
        Err(StreamFault::Output(e)) => Ended::Output(e.kind()),
    }
}

#[test]
fn bytes_in_memory(rt: HostRuntime) -> Result<(), Fail> {
    let mut input: &[u8] = &FIVE_LOTS;
    let mut output = Vec::new(rt.alloc());
    output.push(b'#')?;
    let told = end_of(run(&mut input, &mut output));
    assert_eq!(rt; told, Ended::Told(Replied::Plan(67)));
    assert_eq!(rt;
        (output[0], &output[1..] == TEXT.as_slice(), input.len()),
        (b'#', true, 0)
    );
    Ok(())
}

#[test]
fn short_reads_and_writes_and_interruptions_change_nothing(rt: HostRuntime) {
    for piece in 1..8 {
        let mut input = source(&FIVE_LOTS, piece);
        let mut output = sink(rt.alloc(), piece, 100);
        let told = end_of(run(&mut input, &mut output));
        assert_eq!(rt; told, Ended::Told(Replied::Plan(67)));
        assert!(rt; output.taken.as_slice() == TEXT.as_slice());
    }
}

#[test]
fn reading_fails_in_the_middle(rt: HostRuntime) {
    for length in 0..36 {
        let mut input = source(&FIVE_LOTS[..length], 5);
        input.fails = true;
        let mut output = sink(rt.alloc(), 9, 100);
        let told = end_of(run(&mut input, &mut output));
        assert_eq!(rt; told, Ended::Input(ErrorKind::ConnectionReset));
        assert!(rt; output.taken.is_empty());
    }
}

#[test]
fn reading_fails_behind_a_whole_file(rt: HostRuntime) {
    let mut input = source(&FIVE_LOTS, 36);
    input.fails = true;
    let mut output = sink(rt.alloc(), 9, 100);
    let told = end_of(run(&mut input, &mut output));
    assert_eq!(rt; told, Ended::Input(ErrorKind::ConnectionReset));
    assert!(rt; output.taken.is_empty());
}

#[test]
fn writing_fails_in_the_middle(rt: HostRuntime) {
    for limit in 0..67 {
        let mut input = source(&FIVE_LOTS, 36);
        let mut output = sink(rt.alloc(), 9, limit);
        let told = end_of(run(&mut input, &mut output));
        assert_eq!(rt; told, Ended::Output(ErrorKind::BrokenPipe));
        assert!(rt; output.taken.as_slice() == &TEXT[..limit]);
    }
}

#[test]
fn an_output_that_takes_no_more(rt: HostRuntime) {
    let mut input = source(&FIVE_LOTS, 36);
    let mut output = sink(rt.alloc(), 9, 66);
    output.fails = false;
    let told = end_of(run(&mut input, &mut output));
    assert_eq!(rt; told, Ended::Output(ErrorKind::WriteZero));
}

#[test]
fn an_output_that_keeps_bytes_back(rt: HostRuntime) {
    let mut input = source(&FIVE_LOTS, 36);
    let mut output = sink(rt.alloc(), 9, 100);
    output.flushes = false;
    let told = end_of(run(&mut input, &mut output));
    assert_eq!(rt; told, Ended::Output(ErrorKind::StorageFull));
    assert!(rt; output.taken.as_slice() == TEXT.as_slice());
}

#[test]
fn of_a_long_input_1289_bytes_are_read(rt: HostRuntime) {
    let bytes = [7; 1300];
    let mut input = source(&bytes, 1000);
    input.fails = true;
    let mut output = sink(rt.alloc(), 100, 100);
    let told = end_of(run(&mut input, &mut output));
    assert_eq!(rt; told, Ended::Told(Replied::Refusal(18)));
    assert!(rt; output.taken.as_slice() == b"refused 9 place 0\n".as_slice());
    assert_eq!(rt; input.rest.len(), 11);
}
