// Small sheets, what a solver answers about one, and whether two answers agree: what the planner and the second solver
// are compared by.
#![tactic(auto)]

pub mod answer;
pub mod shown;
pub mod small;
