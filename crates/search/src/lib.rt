// The earliest plan of a problem.
#![tactic(auto)]

mod branch;
pub mod fault;
mod first_day;
pub mod groups;
mod infeasible;
pub mod limit;
mod lows;
mod next_day;
mod tightest;
pub mod tries;
mod waking;
