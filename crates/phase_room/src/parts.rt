//! What a session begins a phase with.
use attrs::Judge;
use export_core::{Exporter, LogItem};
use import_core::Importer;
use std::snapshot::Snapshot;
use table_shared::{Port, TableCursor};

/// A protocol with routes of its own as earlier phases left it, with its number, that of its table,
/// and its port.
#[derive(Drop)]
pub struct ProtocolPart<J: Judge> {
    pub number: u32,
    pub table: u32,
    pub importer: Importer<J>,
    pub port: Port,
}

/// Its channel to a neighbour as earlier phases left it, with its number, and its cursor of the
/// table.
#[derive(Drop)]
pub struct ChannelPart<J: Judge> {
    pub number: u32,
    pub exporter: Exporter<J>,
    /// The exporter's log.
    pub log: Snapshot<Vec<LogItem>>,
    pub cursor: TableCursor,
}
