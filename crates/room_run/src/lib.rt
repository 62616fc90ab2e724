//! How the room of a phase is played: static protocols start, a thread for each actor does its
//! lines while workers serve channels and pipes, and once all have returned the phase ends
//! (`room_close`).
//!
//! `starting` has the starts, of which actors hear before they act (`telling`), `acting` the starts
//! and then the threads, `dealing` gathers the seats of all by protocol and by actor, and `playing`
//! has the whole; what comes of it is room_ends'.
#![tactic(auto)]

mod acting;
mod dealing;
mod playing;
mod starting;
mod telling;

pub use playing::play_room;
