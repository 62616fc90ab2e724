//! What a phase that threads have played comes to.
//!
//! `ended` is what is left of its tables and members once all seats have ended, `played` that with
//! what actors were told. specs/ has what is promised of them: what was left of members as locks
//! were opened (`Left`), that all have ended (`Ended`) at rest (`Synced`), that actors have done
//! their lines (`Played`), what is printed of it (`Prints`), and what stands behind it (`After`).
#![tactic(auto)]

mod ended;
mod played;

pub use ended::{MemberEnded, RoomEnded};
pub use played::PlayedRoom;
