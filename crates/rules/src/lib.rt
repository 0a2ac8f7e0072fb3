// Sheets as plain lists: what a plan is, what a firm sheet is, and how a sheet falls into parts.
#![tactic(auto)]

pub mod laws;
pub mod row;
