// The window stores at work: a layer and callers of this crate's own, and tests of what no clause says.
// A crate of its own, so that the stores are proved once.
#![tactic(auto)]

#[cfg(test)]
mod bottoms;
pub mod clients;
pub mod counting;
#[cfg(test)]
mod layers;
#[cfg(test)]
mod piles;
