//! What stands before the first phase of a run whose protocols may be pipes: tables are empty, and
//! what protocols import and send by is as it is made, but that the directions of pipes are up.
//!
//! `first` puts it together, of protocols with routes of their own (`own`) and of `pipes`; `counts`
//! says how many channels there are, and `sources` which sources.
#![tactic(auto)]

mod counts;
mod first;
mod own;
mod pipes;
mod sources;

pub use counts::count_channels;
pub use first::stand_first;
pub use sources::sources_of;
