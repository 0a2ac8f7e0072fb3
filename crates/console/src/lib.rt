// What dayplan does: what its arguments ask for, and from any reader to any writer.
#![tactic(auto)]

pub mod arguments;
pub mod fault;
mod reading;
pub mod run;
pub mod writing;
