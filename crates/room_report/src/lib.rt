//! What a phase of a room with pipes comes to: its report (`report_phase`), with which the next one
//! begins to read logs (`log_lengths`), and what stands behind it (`stand_after`).
//!
//! Each part of a report has a file of its own. `naming` has the names that stand in several parts,
//! `copies` copies what the report has of the phase.
#![tactic(auto)]

mod copies;
mod exports;
mod journals;
mod lengths;
mod logs;
mod modes;
mod naming;
mod numbers;
mod operations;
mod phase;
mod replies;
mod rows;
mod standing;

pub use lengths::log_lengths;
pub use numbers::{ChannelNumbers, note_numbers};
pub use phase::report_phase;
pub use standing::stand_after;
