//! Tables, the channels that read them, and their steps, on one thread.
//!
//! `Routes` holds all tables and channels by their numbers. What touches a table stands in `Table`:
//! its history, its rows, what a reader at a position reads next, and a change. Room for a change
//! is made by `Routes`, which knows the table's readers.
//!
//! Contracts say it by the machine of `core_machine`: a table has a history, a channel is one of
//! the machine's (`specs/Tables`, `specs/Channels`, `specs/Routes`), and each step gives the state
//! that the machine's step gives.
#![tactic(auto)]

mod channel;
mod routes;
mod table;

pub use channel::Channel;
pub use routes::Routes;
pub use table::Table;
