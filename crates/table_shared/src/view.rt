//! What is shown of a table.
use attrs::{Row, Seq};

/// Rows of a table as they stood at a position of its journal.
#[derive(Debug, Drop)]
pub struct View {
    pub at: u64,
    /// How many routes the table had, in all rows.
    pub total: u64,
    /// The rows that were asked for, in the order of nets.
    pub rows: Seq<Row>,
}
