// Propagation: the greatest firm sheet inside a sheet, reached by the propagators of its rules.
#![tactic(auto)]

pub mod fault;
mod moved;
mod one_rule;
pub mod problem;
pub mod propagate;
pub mod queue;
