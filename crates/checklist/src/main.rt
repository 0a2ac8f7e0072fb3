// Stores and counts tried by hand, step by step: what to run in a new house first. Each step prints a sentence.
#![tactic(auto)]

mod counts;
mod windows;

use calendar::period::PeriodLength;
use std::io;

fn main(rt: HostRuntime) -> io::Result<()> {
    let Ok(week) = PeriodLength::new(7) else {
        return println!(rt; "No such period");
    };
    // two words a lot: its first day, then its last
    let mut words = [3, 5, 4, 8, 6, 9, 1, 2, 9, 12];
    windows::season(&rt, &mut words)?;
    windows::before_dispatch(&rt, &mut words)?;
    windows::in_weeks(&rt, &mut words, week)?;
    windows::weeks_before_dispatch(&rt, &mut words, week)?;
    let mut masks = [104, 0];
    windows::masked(&rt, &mut masks)?;
    // six lots, three of them on two days
    let mut crowded = [1, 2, 1, 2, 1, 2, 2, 4, 4, 4, 9, 15];
    counts::in_days(&rt, &mut crowded)?;
    counts::in_weeks(&rt, &mut crowded, week)
}
