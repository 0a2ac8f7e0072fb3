// The fewest and the most different days of a stretch of lots over any store, each with what shows it.
#![tactic(auto)]

pub mod fault;
pub mod fewest;
pub mod most;
mod question;

// Stretches stand in the crate of counting; callers of these functions find them here too.
pub use nvalue::stretch;
