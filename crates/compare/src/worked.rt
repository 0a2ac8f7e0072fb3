// The worked examples of docs/EXAMPLES.md, each under its name.
mod calendars;
mod sheets;

use crate::told::Score;
use std::io;

pub fn show(rt: &HostRuntime, score: &mut Score) -> io::Result<()> {
    println!(rt; "Worked examples")?;
    sheets::show(rt, score)?;
    calendars::show(rt, score)
}
