//! Who has channels and pipes' directions go on while actors act.
//!
//! Workers have turns of their channels and directions, each under its lock, until all actors have
//! ended (`serving`). Who writes a table that has no room, an actor or a direction, has the cursor
//! that lags read on (`helping`); a direction gives its own lock back first (`lanes`). `channels`
//! finds who reads by a cursor's number, and `spares` gives back the cursors that nobody reads by.
//! What a turn is stands in `channel_turns` and `pipe_turns`.
//!
//! Who holds a channel's lock waits for a table's lock at most, and so does who holds a
//! direction's. A help waits for no protocol's lock. Nothing is promised of what workers and helps
//! do, but that locks keep what they keep.
#![tactic(auto)]

mod bell;
mod channels;
mod helping;
mod lanes;
mod pace;
mod serving;
mod spares;

pub use bell::Bell;
pub use channels::{Channels, Heading, Reader};
pub use helping::Help;
pub use serving::serve;
