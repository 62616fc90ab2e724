//! The report: the text of what came about in a phase, and of what stands at its end.
//!
//! A `PhaseReport` has a field for each part of the report, in the order in which they are written:
//! what each protocol was told, what each table took, what each channel sent, what was replied;
//! then the tables, the protocols and the channels as they stand. `phase_text` appends the text of
//! a phase to what takes text (`TextOut` of bits_ip): a `Vec<u8>`, or a stream to a sink, which
//! needs no memory for it; `quiet_text` the same without what came about, and `text_in` the one of
//! these that a `Form` names.
//!
//! Contracts see a phase as plain data, and its text by one function of specs/Report for each part.
//! Two facts carry all: each writer appends the text of its part and nothing else, and the parts of
//! a list are written in its order (`flat_map`). Where a piece isn't taken, a part of a phase's
//! text may stand: how much of it is for what takes the text to say, by what its `follows` keeps.
//!
//! Modules are named by the part that they write; `whole` joins them, and `place` writes nets with
//! the names of sources.
#![tactic(auto)]

mod exports;
mod journals;
pub mod laws;
mod logs;
mod modes;
mod operation;
mod phase;
mod place;
mod protocols;
mod replies;
mod tables;
mod whole;

pub use phase::{
    ChannelReport, ExportReport, Form, JournalReport, ModeReport, PhaseReport, ProtocolReport,
    ProtocolState, ReplyReport, Standing, TableReport,
};
pub use whole::{phase_text, quiet_text, text_in};
