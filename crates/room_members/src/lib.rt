//! What the threads of a phase share: its tables, and its protocols, which have routes of their own
//! or are pipes.
//!
//! `member` is a protocol of either kind, `room` has tables and members by their numbers;
//! `operating` does an operation of a member. As a phase begins `begun` is a room with the hands of
//! actors, which protocols `enter`; by `laws` actors can begin then.
#![tactic(auto)]

mod begun;
mod enter;
pub mod laws;
mod member;
mod operating;
mod room;

pub use begun::Begun;
pub use member::Member;
pub use room::Room;
