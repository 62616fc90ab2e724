//! What is reported of a phase, and how much of it is written.
use attrs::{Attrs, Change, Row, Seq, Shared};
use export_core::{Key, LogItem};
use import_core::{Done, Mode};

/// How much of a phase is written.
#[derive(Clone, Copy, Debug, PartialEq, Eq)]
pub enum Form {
    /// All of it.
    Whole,
    /// Its number, and what stands at its end.
    Quiet,
}

/// All that is reported of a phase. A protocol's number is its place in `protocols`.
#[derive(Debug, Drop)]
pub struct PhaseReport {
    /// The phase's number, from 1.
    pub number: u64,
    pub protocols: Seq<ProtocolReport>,
    pub journals: Seq<JournalReport>,
    pub channels: Seq<ChannelReport>,
    pub replies: Seq<ReplyReport>,
    pub tables: Seq<TableReport>,
    pub modes: Seq<ModeReport>,
    pub exports: Seq<ExportReport>,
}

/// A protocol's operations of a phase.
#[derive(Debug, Drop)]
pub struct ProtocolReport {
    pub name: Seq<u8>,
    pub ops: Seq<Done>,
}

/// A table's changes of a phase.
#[derive(Debug, Drop)]
pub struct JournalReport {
    pub table: Seq<u8>,
    /// The table's position before the phase.
    pub from: u64,
    pub entries: Seq<Change>,
}

/// A channel's log of a phase.
#[derive(Debug, Drop)]
pub struct ChannelReport {
    pub name: Seq<u8>,
    /// Whether it is a direction of a pipe, whose routes are told apart by their sources.
    pub pipe: bool,
    pub items: Seq<LogItem>,
}

/// A reply to `show route`.
#[derive(Debug, Drop)]
pub struct ReplyReport {
    /// Who asked.
    pub actor: Seq<u8>,
    pub table: Seq<u8>,
    /// The table's position that the reply is of.
    pub at: u64,
    pub text: Seq<u8>,
}

/// A table at the end of a phase.
#[derive(Debug, Drop)]
pub struct TableReport {
    pub name: Seq<u8>,
    pub rows: Seq<Row>,
}

/// A protocol at the end of a phase.
#[derive(Debug, Drop)]
pub struct ModeReport {
    pub name: Seq<u8>,
    pub state: ProtocolState,
}

/// What a protocol has come to.
#[derive(Clone, Copy, Debug, PartialEq, Eq)]
pub enum ProtocolState {
    /// It imports routes: its mode, and how many nets it has an accepted route of.
    Imports(Mode, u64),
    /// It is a pipe, which accepts nothing itself: whether it is up.
    Pipe(bool),
}

/// A channel at the end of a phase: what stands as sent, in the order of keys, and none where it is
/// down.
#[derive(Debug, Drop)]
pub struct ExportReport {
    pub name: Seq<u8>,
    /// Whether it is a direction of a pipe, whose routes are told apart by their sources.
    pub pipe: bool,
    pub standing: Option<Seq<Standing>>,
}

/// What stands as sent by a channel for a key.
#[derive(Debug, Drop)]
pub struct Standing {
    pub key: Key,
    pub attrs: Shared<Attrs>,
}
