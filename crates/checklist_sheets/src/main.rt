// Whole sheets tried by hand, step by step: what to run in a new house next. Each step prints a sentence.
#![tactic(auto)]

mod groups;
mod sheets;
mod told;

use std::io;

fn main(rt: HostRuntime) -> io::Result<()> {
    sheets::one_lot(&rt)?;
    sheets::two_lots(&rt)?;
    groups::two_groups(&rt)?;
    groups::before_dispatch(&rt)?;
    groups::in_weeks(&rt)
}
