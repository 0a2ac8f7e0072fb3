// Sheets of a few lots: settled, planned, and the fewest and most days of each rule's lots.
use crate::asked;
use crate::told::Score;
use answers::small::{Small, rule};
use rules::row::Row;
use std::io;

// The windows [1,2], [3,5] and [6,9] share no day, so the five lots need three days at least; the other two can join
// these.
const SPREAD: [(u32, u32); 5] = [(3, 5), (4, 8), (6, 9), (1, 2), (9, 12)];

// Three lots have two days between them, so the five take four days at most.
const CROWDED: [(u32, u32); 5] = [(1, 2), (1, 2), (1, 2), (2, 4), (4, 4)];

pub fn show(rt: &HostRuntime, score: &mut Score) -> io::Result<()> {
    let fits = [rule(0, 1, 0, 1)];
    ask(rt, score, "no lots and no rule", &[], &[])?;
    ask(rt, score, "one lot and one rule", &[(7, 7)], &fits)?;
    on_few_days(rt, score)?;
    on_many_days(rt, score)?;
    in_pairs(rt, score)
}

fn on_few_days(rt: &HostRuntime, score: &mut Score) -> io::Result<()> {
    let three = [rule(0, 5, 0, 3)];
    let two = [rule(0, 5, 0, 2)];
    ask(rt, score, "five lots on three days", &SPREAD, &three)?;
    ask(rt, score, "five lots on two days", &SPREAD, &two)
}

fn on_many_days(rt: &HostRuntime, score: &mut Score) -> io::Result<()> {
    let four = [rule(0, 5, 4, 5)];
    let five = [rule(0, 5, 5, 5)];
    ask(rt, score, "five lots on four days or more", &CROWDED, &four)?;
    ask(rt, score, "five lots on five days", &CROWDED, &five)
}

// Neighbours are to share a day, and all three are not to.
fn in_pairs(rt: &HostRuntime, score: &mut Score) -> io::Result<()> {
    let ends = [(1, 2), (1, 2), (1, 2)];
    let rules = [rule(0, 2, 1, 1), rule(1, 2, 1, 1), rule(0, 3, 2, 3)];
    ask(rt, score, "three rules that no plan keeps", &ends, &rules)
}

fn ask(
    rt: &HostRuntime,
    score: &mut Score,
    name: &str,
    ends: &[(u32, u32)],
    rules: &[Row],
) -> io::Result<()> {
    let sheet = Small::new(rt.alloc(), ends, rules)?;
    println!(rt; "{name}: {sheet}")?;
    asked::settle(rt, score, &sheet)?;
    asked::plan(rt, score, &sheet)?;
    asked::bounds(rt, score, &sheet)
}
