//! The turns of a channel to a neighbour, by itself and under its lock.
//!
//! A channel's turn reads a part of a feed, or takes an entry, or pushes a key that is marked
//! (`turns`); of a channel whose table is closed that goes by turns that want no table
//! (`read_or_push`). A worker has some turns of a channel at once under the channel's lock
//! (`serving`), and who waits for room in a table has a cursor that lags read on (`helping`). Once
//! nobody changes its table any more, a channel is brought to rest (`settling`).
//!
//! Who holds a channel's lock waits for a table's lock at most. Nothing is promised of what workers
//! and helps do, but that locks keep what they keep.
#![tactic(auto)]

mod helping;
mod serving;
mod settling;
mod turns;

pub use helping::{help_channel, pass_all, pass_by, read_on};
pub use serving::{read_channel, serve_channel};
pub use settling::settle;
