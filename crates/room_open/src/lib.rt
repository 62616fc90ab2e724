//! How a phase with threads begins: from what stood between two phases (`standing`) a room, with
//! the seats of its actors (`opening`).
//!
//! `room` opens it: `tables` makes the tables, with the sources of their ports told by `sources`;
//! `members` lets protocols enter, which have routes of their own or are `pipes`, with their
//! channels (`channel`); `actors` seats actors. Each takes its lists from those that were made
//! (`lists`).
#![tactic(auto)]

mod actors;
mod channel;
mod lists;
mod members;
mod opening;
mod pipes;
mod room;
mod sources;
mod standing;
mod tables;

pub use opening::Opening;
pub use room::open_room;
pub use standing::{Standing, StandingMember, StandingPipe};
