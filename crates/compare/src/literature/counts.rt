// How many different days fixed days are, and whether they keep a rule that asks for just so many.
use crate::asked;
use crate::second::counts::count_days;
use crate::told::{Score, tell};
use answers::answer::Answer;
use answers::shown::Listed;
use answers::small::{Small, rule};
use nvalue::count::different_days;
use std::io;

pub fn show(rt: &HostRuntime, score: &mut Score) -> io::Result<()> {
    holds(rt, score, &[0, 0, 0, 0], 0)?;
    holds(rt, score, &[1, 2, 3], 3)?;
    holds(rt, score, &[1, 2, 3, 3], 3)?;
    count(rt, score, &[3, 1, 7, 1, 6])?;
    count(rt, score, &[6, 6, 6, 6, 6])?;
    count(rt, score, &[6, 3, 0, 2, 9])
}

// Do days have just this count? So says the count itself; and a sheet that fixes each lot to its day has a plan then,
// and only then.
fn holds(rt: &HostRuntime, score: &mut Score, days: &[u32], number: u32) -> io::Result<()> {
    let listed = Listed { days };
    println!(rt; "count {number} of {listed}")?;
    let planner = Answer::Holds(different_days(days) == number as usize);
    let second = Answer::Holds(count_days(days) == number as usize);
    tell(rt, score, "holds", &planner, &second)?;
    let sheet = Small::fixed(rt.alloc(), days, &[rule(0, days.len(), number, number)])?;
    asked::plan(rt, score, &sheet)
}

fn count(rt: &HostRuntime, score: &mut Score, days: &[u32]) -> io::Result<()> {
    let listed = Listed { days };
    println!(rt; "the count of {listed}")?;
    let planner = Answer::Number(different_days(days) as u64);
    let second = Answer::Number(count_days(days) as u64);
    tell(rt, score, "count", &planner, &second)
}
