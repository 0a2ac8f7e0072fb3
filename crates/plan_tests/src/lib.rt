// Settle, plan and lists of calls on examples and at their edges. A crate of its own, so that the planner is proved
// once.
#![tactic(auto)]

#[cfg(test)]
mod calendars;
#[cfg(test)]
mod calls;
#[cfg(test)]
mod examples;
#[cfg(test)]
mod house;
#[cfg(test)]
mod layers;
#[cfg(test)]
mod refusals;
#[cfg(test)]
mod single;
