// Sheet files: a sheet's windows and rules as bytes, read and written.
#![tactic(auto)]

pub mod fault;
pub mod laws;
pub mod numbers;
pub mod read;
pub mod rows;
pub mod write;
