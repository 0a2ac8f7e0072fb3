// The working words of a call, and the guard that clears them. Internal: its callers prove what it asks.
#![tactic(auto)]

pub mod guard;
