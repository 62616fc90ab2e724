//! What lies under the export lock of a channel, and the calls on it.
//!
//! A channel's exporter stands for each history of its table that begins with what was before the
//! phase and what its cursor has seen (`IsExporting`): so what it has sent is right, whatever other
//! threads enter meanwhile. The marks of its log are the list of a journal of their own, under the
//! stamp that lies under the protocol's import lock: `ExportState` of a channel to a neighbour
//! takes them (`TakesMarks`), and so does a pipe's direction, under a stamp of its own
//! (`PipeLane::mark_turn`). A channel of any kind takes the entries of its table (`take_turn`),
//! reads parts of the table itself (`feed_turn`), and pushes out what it has marked (`push_turn`).
//! A pipe's direction withdraws what stands before it goes down (`flush_turn`), and its lock has
//! the port too under which it enters what it sends (`PipeLane`).
//!
//! `state` and `lane` have the values, `key` what a lock to a neighbour is of, `begin` what lies
//! under locks as a phase begins; `mark`, `take`, `feed`, `push` and `flush` have the calls, of a
//! direction's value `turns` and `mark_lane`, and `laws` what follows for a phase.
#![tactic(auto)]

mod begin;
mod feed;
mod flush;
mod key;
mod lane;
pub mod laws;
mod mark;
mod mark_lane;
mod outlet;
mod push;
mod state;
mod take;
mod turns;

pub use key::{ExportKey, Exports, Sends};
pub use lane::{LaneKey, Lanes, PipeLane};
pub use outlet::PipeOutlet;
pub use state::ExportState;
