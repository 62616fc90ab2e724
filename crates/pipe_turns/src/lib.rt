//! The turns of a pipe's directions while actors act, and until nothing is left.
//!
//! A turn of a direction reads a part of a feed, or takes an entry, or pushes a key that is marked
//! into the table that it writes (`turns`). Where that has no room, the turn tells the number of
//! the cursor that lags, and all is as before. Workers have some turns of a direction under its
//! lock, and give the lock back before they have that cursor read on (`serving`): two directions
//! that wait for each other's table would else wait for ever. Who has a direction's cursor read on
//! takes one entry under the direction's lock (`helping`). Over values that nobody else has,
//! `settling` has turns until there is nothing to do or there is no room; `laws` say at which head
//! a table ends.
//!
//! Nothing is promised of what workers and helps do, but that locks keep what they keep.
#![tactic(auto)]

mod helping;
pub mod laws;
mod serving;
mod settling;
mod turns;

pub use helping::help_lane;
pub use serving::{Served, serve_lane, serve_or_help};
pub use settling::{Settled, settle_lane};
pub use turns::{LaneDid, turn_lane};
