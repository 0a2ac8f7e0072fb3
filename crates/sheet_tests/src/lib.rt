// The sheet's calls on examples and at their edges. A crate of its own, so that the sheet is proved once.
#![tactic(auto)]

#[cfg(test)]
mod asks;
#[cfg(test)]
mod drafts;
#[cfg(test)]
mod house;
