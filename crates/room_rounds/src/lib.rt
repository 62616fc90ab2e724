//! How the members of a phase come to rest, once its threads have returned and its locks are open.
//!
//! A direction of a pipe writes a table that others read, and waits where that has no room. So all
//! go on in rounds: in each one every channel (`own`) and every direction (`pipes`) does turns
//! until it has nothing to do, or waits. What waits is left for the next round, since by then all
//! cursors have read on: those of what is up by their turns, and all others, by which nothing is
//! read, by moving past the entries that there are (`passing`). Rounds are over once all that is up
//! has read and sent all (`rounds`).
//!
//! Not here: that the head at which a member rests is its table's last, of which pipe_rest has a
//! law.
#![tactic(auto)]

mod own;
mod passing;
mod pipes;
mod rounds;

pub use rounds::settle_members;
