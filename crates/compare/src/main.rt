// A second solver beside the planner: worked examples, examples known from the literature and generated sheets are
// answered by both, and the answers are compared. It ends with status 1 if any two of them differ.
#![tactic(auto)]

mod asked;
mod literature;
mod planner;
mod random;
mod second;
mod told;
mod worked;

use crate::told::Score;
use std::io;
use std::process::ExitCode;

fn main(rt: HostRuntime) -> io::Result<ExitCode> {
    let mut score = Score::default();
    worked::show(&rt, &mut score)?;
    literature::show(&rt, &mut score)?;
    random::show(&rt, &mut score)?;
    println!(rt; "{score}")?;
    match score.differ {
        0 => Ok(ExitCode::SUCCESS),
        _ => Ok(ExitCode::FAILURE),
    }
}
