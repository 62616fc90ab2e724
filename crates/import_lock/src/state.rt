//! The value of an import lock.
use attrs::{Change, Judge, Seq};
use import_core::Importer;
use jour::maker::Maker;
use jour::writer::Writer;
use jour_rule::law::OfMakers;
use table_shared::Port;
use thiserror::Error;

/// Has the list of a protocol's turns.
pub type Turns = Writer<u64, OfMakers>;

/// An actor's right to have lines recorded for a protocol.
pub type Hand = Maker<u64, OfMakers>;

/// Has the list of a channel's marks.
pub type Marks = Writer<u64, OfMakers>;

/// The right to mark a channel's ups, downs and refreshes.
pub type Stamp = Maker<u64, OfMakers>;

/// A recorded operation.
#[derive(Clone, Copy, Debug, PartialEq, Eq, Drop)]
pub struct OpRecord {
    /// The place of its line among those of the phase, from 1 on, and 0 of a start.
    pub line: u32,
    /// Whether a route was over the limit in it.
    pub over: bool,
}

/// Why an operation wasn't done to its end.
#[derive(Clone, Copy, Debug, PartialEq, Eq, Drop, Error)]
pub enum OpFault {
    /// The table's head is the last position that there is. The changes that weren't sent wait.
    #[error("no position is left behind {head}")]
    Ended { head: u64 },
    /// Memory was wanted and not given.
    #[error("out of memory")]
    Memory,
}

/// What lies under the import lock of a protocol with routes of its own.
#[derive(Drop)]
pub struct ImportState<J: Judge> {
    pub importer: Importer<J>,
    pub port: Port,
    /// The operations of the phase, in their order.
    pub ops: Vec<OpRecord>,
    /// The changes of the last operation, and how many of them, the first ones, were sent.
    pub backlog: Seq<Change>,
    pub sent: usize,
    pub turns: Turns,
    /// The stamp of the protocol's channel, which a static protocol hasn't got.
    pub stamp: Option<Stamp>,
    /// What the last turn answered, where that was a fault.
    pub fault: Option<OpFault>,
}
