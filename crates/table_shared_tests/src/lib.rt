//! Tests of tables that threads share: what updates answer, what is shown, what cursors take, and
//! what a phase has made.
#![tactic(auto)]

mod bench;
#[cfg(test)]
mod opened;
#[cfg(test)]
mod phases;
mod race;
mod routes;
mod threads;
#[cfg(test)]
mod updates;

pub use bench::{Bench, Refused};
pub use race::{Race, Raced};
pub use routes::{change_of, learnt_change, net, numbered_net};
pub use threads::Reading;
