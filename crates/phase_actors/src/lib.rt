//! Actors, who do their lines, as `@p1 add ..` and `@p1 show route`, over what all actors of a
//! phase share.
//!
//! An actor has a hand for each protocol and a pass of each table, and is told texts (`Actor`):
//! each text answers its query over the table as it stood at one position, and that isn't before
//! what the actor had done and seen there until then.
//!
//! `actor` has what an actor is, `answers` who answers queries; `laws` has that actors can begin.
#![tactic(auto)]

mod actor;
mod answers;
pub mod laws;

pub use actor::{Actor, Told};
pub use answers::Answers;
