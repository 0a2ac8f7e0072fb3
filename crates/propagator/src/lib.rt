// The propagator of one rule: the smallest windows that hold every choice whose count it allows.
#![tactic(auto)]

pub mod copy;
mod fewest_hull;
mod mates;
mod most_hull;
mod reach;
mod shut;
mod spare;
pub mod tighten;

// Count windows stand in the crate of counting; callers of `tighten` find them here too.
pub use nvalue::count_window;
