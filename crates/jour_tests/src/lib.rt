//! Tests of journals and of the lock with a key: what each call answers, which cursor leaves no
//! room, what passes carry, and what cursors of other threads read.
#![tactic(auto)]

mod bench;
#[cfg(test)]
mod entries;
#[cfg(test)]
mod lagging;
#[cfg(test)]
mod locks;
#[cfg(test)]
mod passes;
#[cfg(test)]
mod single;
#[cfg(test)]
mod threads;

pub use bench::{Bench, Reader, Refused, is_whole, words_of};
