// Counts, fewest, most and tightest windows on worked examples, and each refusal at its edge. A crate of its own, so that
// the counting crates are proved once.
#![tactic(auto)]

#[cfg(test)]
mod counts;
#[cfg(test)]
mod house;
#[cfg(test)]
mod refusals;
#[cfg(test)]
mod tightest;
