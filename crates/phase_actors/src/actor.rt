//! An actor, and what it is told.
use import_lock::Hand;
use table_shared::TablePass;

/// What an actor was told: the answer to the query of a number, over a table as it stood at a
/// position.
#[derive(Debug, Drop)]
pub struct Told {
    pub query: u32,
    /// The number of the query's table.
    pub table: u32,
    pub at: u64,
    pub text: Vec<u8>,
}

/// An actor between two of its lines.
#[derive(Drop)]
pub struct Actor {
    pub number: u32,
    /// By protocol the right to have lines recorded.
    pub hands: Vec<Hand>,
    /// By table what the actor has seen of it.
    pub passes: Vec<TablePass>,
    /// What it was told, in the order of its questions.
    pub replies: Vec<Told>,
}
