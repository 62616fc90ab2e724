//! What a table tells those who read it: the entries of its journal, one for each change, and
//! chunks of its rows, by which a reader is fed.
//!
//! From: own. Example: the entry at position 1 of the worked run in docs/DEFINITIONS.md.
use crate::{Route, Row, Seq};
use bits_ip::Prefix;

/// A change of a table, with the net's best route behind it.
#[derive(Debug, Drop)]
pub struct JEntry {
    pub net: Prefix,
    pub num: u32,
    /// The route that stands from now on for the net and the source's number.
    pub new: Option<Route>,
    /// The best of the net's routes from now on.
    pub best: Option<Route>,
}

/// A part of a table: all its rows from one net to before another.
#[derive(Debug, Drop)]
pub struct Chunk {
    /// The position of the table at which the rows stood.
    pub at: u64,
    /// The first net, itself included; from the table's beginning where there is none.
    pub from: Option<Prefix>,
    /// The net behind the last, itself not included; to the table's end where there is none.
    pub upto: Option<Prefix>,
    pub rows: Seq<Row>,
    /// Whether the table has rows behind these.
    pub more: bool,
}
