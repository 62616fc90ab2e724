//! What a pipe's session begins a phase with.
use attrs::Judge;
use export_core::{Exporter, LogItem};
use std::snapshot::Snapshot;
use table_shared::{Port, TableCursor};

/// A pipe as earlier phases left it, with its number and those of its tables.
#[derive(Drop)]
pub struct PipePart {
    pub number: u32,
    pub primary: u32,
    pub peer: u32,
    pub up: bool,
}

/// A direction of a pipe as earlier phases left it, with its number as a channel, its cursor of the
/// table that it reads, and its port of the table that it writes.
#[derive(Drop)]
pub struct DirectionPart<J: Judge> {
    pub number: u32,
    pub exporter: Exporter<J>,
    /// The exporter's log.
    pub log: Snapshot<Vec<LogItem>>,
    pub cursor: TableCursor,
    pub port: Port,
}
