// The fewest and the most different days of a list of windows, and the mirror image.
// Internal: what these ask of their callers is proved in `count` and `propagator`.
#![tactic(auto)]

pub mod flags;
pub mod matching;
pub mod mirror;
pub mod order;
pub mod stabbing;
