// dayplan's steps on readers and writers that fail, stop short or are interrupted.
#![tactic(auto)]

#[cfg(test)]
mod arguments;
#[cfg(test)]
mod fakes;
#[cfg(test)]
mod runs;
