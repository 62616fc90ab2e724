//! What stands between two phases.
use attrs::{JEntry, Judge};
use bits_ip::Family;
use export_core::Exporter;
use import_core::Importer;
use rib::Rib;

/// A table: its rows, and all its entries so far, in their order.
#[derive(Drop)]
pub struct StandingTable {
    pub family: Family,
    pub rows: Rib,
    pub before: Vec<JEntry>,
}

/// The channel of a protocol to a neighbour, with its number among all channels.
#[derive(Drop)]
pub struct StandingChannel<J: Judge> {
    pub number: u32,
    pub exporter: Exporter<J>,
}

/// A protocol with routes of its own, with the number of the table that it imports to, and its
/// channel, which a static protocol hasn't got.
#[derive(Drop)]
pub struct StandingProtocol<J: Judge> {
    pub table: u32,
    pub importer: Importer<J>,
    pub channel: Option<StandingChannel<J>>,
}
