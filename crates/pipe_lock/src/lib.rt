//! What lies under the import lock of a pipe, and the calls on it.
//!
//! A pipe has no routes of its own, so its operations change no table: each is recorded in the
//! journal of the pipe's turns under the hand of the actor who asks for it
//! (`PipeState::plan_turn`), and both directions come up, go down or send anew as it asks
//! (`give_marks`), each under its stamp; `op_turn` does both. What a direction does for its mark is
//! its own (`Direction`): one that goes down has withdrawn all that stood. A lock keeps all this
//! with a key that names the phase and the journals (`PipeKey`, `Pipes`), and `operate` takes an
//! operation from free lock to free lock.
//!
//! `LaneDoor` is a direction behind its own lock, which it gives back between two withdrawals: so
//! others can read the table that is written while they wait for room there.
//!
//! `state` has the value, `begin` what it is as a phase begins, `key` what the lock is of; `plan`,
//! `mark` and `turn` have the calls, `locked` those under the lock; `lane` has what a direction
//! does, `door` the same behind its lock, and `laws` what follows for a phase.
#![tactic(auto)]

mod begin;
mod door;
mod key;
mod lane;
pub mod laws;
mod locked;
mod mark;
mod plan;
mod state;
mod turn;

pub use door::{LaneDoor, LaneLock};
pub use key::{DirectionKey, PipeKey, Pipes};
pub use locked::{PipeLock, operate};
pub use mark::Direction;
pub use state::PipeState;
