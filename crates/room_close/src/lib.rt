//! How a phase ends: locks are open, all comes to rest, and tables are closed.
//!
//! `closing` opens the locks of a member, which has routes of its own or is a pipe, and ends its
//! hands and stamps; `members` does so for all. Channels and directions of pipes then come to rest
//! in rounds, while tables are open still (room_rounds). `seats` ends ports and cursors once tables
//! are closed, and `ending` has all in their places. What a phase has come to is room_ends'; by
//! `laws` each table has records of its entries then, and each member has ended as what it was.
#![tactic(auto)]

mod closing;
mod ending;
pub mod laws;
mod members;
mod seats;

pub use ending::end_phase;
