// Sheet files read, written, planned and replied to, on examples and at their edges. A crate of its own, so that these
// calls are proved once.
#![tactic(auto)]

#[cfg(test)]
mod adding;
#[cfg(test)]
mod house;
#[cfg(test)]
mod planning;
#[cfg(test)]
mod reading;
#[cfg(test)]
mod replies;
#[cfg(test)]
mod writing;
