// Examples that are known from the literature on counting different values.
mod counts;
mod lost_days;
mod ten_plans;

use crate::told::Score;
use std::io;

pub fn show(rt: &HostRuntime, score: &mut Score) -> io::Result<()> {
    println!(rt; "Examples known from the literature")?;
    counts::show(rt, score)?;
    ten_plans::show(rt, score)?;
    lost_days::show(rt, score)
}
