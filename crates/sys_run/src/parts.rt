//! What a core is made of.
use attrs::{Judge, Seq};
use bits_ip::Family;
use export_core::ExportSpec;
use import_core::ImportSpec;

/// A table.
#[derive(Debug, Drop)]
pub struct TableParts {
    pub name: Seq<u8>,
    pub family: Family,
}

/// A channel to a neighbour: its gate, and the filter of what it sends.
#[derive(Debug, Drop)]
pub struct ExportParts<J: Judge> {
    pub spec: ExportSpec,
    pub judge: J,
}

/// What a protocol with routes of its own is made of.
#[derive(Debug, Drop)]
pub struct SourceParts<J: Judge> {
    /// The number of the table that it imports to, and that its channel reads.
    pub table: usize,
    pub spec: ImportSpec,
    /// The filter of its imports.
    pub judge: J,
    /// Its channel, where it is one of BGP.
    pub exports: Option<ExportParts<J>>,
}

/// What a pipe is made of (BIRD User's Guide, "Pipe").
#[derive(Debug, Drop)]
pub struct PipeParts<J: Judge> {
    /// The number of its own table.
    pub primary: usize,
    /// The number of the table at its other end.
    pub peer: usize,
    /// The filter of what goes to the other end.
    pub export: J,
    /// The filter of what comes back.
    pub import: J,
}

/// What a protocol does.
#[derive(Debug, Drop)]
pub enum BodyParts<J: Judge> {
    Source(SourceParts<J>),
    Pipe(PipeParts<J>),
}

/// A protocol. Its number is its place among the protocols, which its routes have as their source.
#[derive(Debug, Drop)]
pub struct ProtocolParts<J: Judge> {
    pub name: Seq<u8>,
    pub body: BodyParts<J>,
}
