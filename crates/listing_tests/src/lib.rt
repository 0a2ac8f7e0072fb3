// Listing plans, on examples and at its edges. A crate of its own, so that the listing is proved once.
#![tactic(auto)]

#[cfg(test)]
mod lists;
#[cfg(test)]
mod refusals;
