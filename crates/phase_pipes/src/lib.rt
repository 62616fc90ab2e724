//! Pipes in a phase with threads: a pipe's lock with the locks of its two directions.
//!
//! `locks` makes the locks as a phase begins, from what stands then; `begin` makes a session of
//! `parts`, with a hand of its turns for each actor; `session` has the three locks, and opens them
//! at the end; `turns` does an operation under them. What a pipe's directions pass by which ports,
//! that a first phase has all that sessions begin with, and what the locks leave for a phase's end,
//! are `laws`.
#![tactic(auto)]

mod begin;
pub mod laws;
mod locks;
mod parts;
mod session;
mod turns;

pub use begin::begin_pipe;
pub use locks::{lock_lane, lock_pipe};
pub use parts::{DirectionPart, PipePart};
pub use session::{ClosedPipe, PipeSession};
