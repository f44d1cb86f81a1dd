//! Worked rows of verifying over links. It has no calls of its own.
#![tactic(auto)]

#[cfg(test)]
mod faults;
#[cfg(test)]
mod frames;
#[cfg(test)]
mod repeats;
#[cfg(test)]
mod replies;
#[cfg(test)]
mod running;
#[cfg(test)]
mod talk;
