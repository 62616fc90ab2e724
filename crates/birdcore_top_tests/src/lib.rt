//! Tests of `birdcore_top` whose calls are shaped in code: faults in turn, other words, the status,
//! a gate that holds an update.
#![tactic(auto)]

#[cfg(test)]
mod faults;
#[cfg(test)]
mod held;
#[cfg(test)]
mod status;
#[cfg(test)]
mod words;
#[cfg(test)]
mod worked;
