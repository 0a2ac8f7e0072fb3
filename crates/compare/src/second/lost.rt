// Days of a window that no plan uses.
use crate::second::choices::Days;
use answers::answer::Answer;
use std::alloc::{AllocError, Global};
use store::window::Window;

// The lost days before the first day that some plan uses, and after the last: a smaller window shows them.
pub fn lost_at_ends(
    alloc: Global,
    plans: &[Days],
    lot: usize,
    window: Window,
) -> Result<Answer, AllocError> {
    let lost = (window.low..=window.high)
        .filter(|day| !is_used(plans, lot, *day) && !is_between(plans, lot, *day))
        .collect(alloc)?;
    Ok(Answer::Days(lost))
}

// The lost days with used ones on both sides: no window shows them.
pub fn lost_inside(
    alloc: Global,
    plans: &[Days],
    lot: usize,
    window: Window,
) -> Result<Days, AllocError> {
    (window.low..=window.high)
        .filter(|day| !is_used(plans, lot, *day) && is_between(plans, lot, *day))
        .collect(alloc)
}

fn is_used(plans: &[Days], lot: usize, day: u32) -> bool {
    plans.iter().any(|days| days.get(lot) == Some(&day))
}

// Some plan gives the lot an earlier day, and some plan a later one.
fn is_between(plans: &[Days], lot: usize, day: u32) -> bool {
    let mut earlier = plans.iter().filter_map(|days| days.get(lot));
    let mut later = plans.iter().filter_map(|days| days.get(lot));
    earlier.any(|other| *other < day) && later.any(|other| day < *other)
}
