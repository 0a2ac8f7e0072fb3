// A plan as text: a line for each lot, and a last line with how many different days there are.
#![tactic(auto)]

pub mod fault;
mod line;
pub mod list;
mod measure;
pub mod refusal;
