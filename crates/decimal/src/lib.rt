// Numbers in decimal and words, written to the front of lent bytes.
#![tactic(auto)]

pub mod laws;
pub mod number;
pub mod text;
