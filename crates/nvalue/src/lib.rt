// Counting different days: the public count of a slice of words, and the laws that every bound rests on.
#![tactic(auto)]

pub mod count;
pub mod count_window;
pub mod laws;
pub mod season;
pub mod stretch;
