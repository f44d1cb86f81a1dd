//! Worked rows of solving, of arguments and of faults. It has no calls of its own.
#![tactic(auto)]

#[cfg(test)]
mod faults;
#[cfg(test)]
mod running;
#[cfg(test)]
mod solving;
