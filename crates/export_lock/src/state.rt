//! The value of an export lock.
use attrs::Judge;
use export_core::Exporter;
use import_lock::Marks;
use table_shared::TableCursor;

/// What lies under the export lock of a channel to a neighbour. The cursor is started while the
/// channel is up, and stands where the exporter does.
#[derive(Drop)]
pub struct ExportState<J: Judge> {
    pub exporter: Exporter<J>,
    pub cursor: TableCursor,
    /// Has the list of the channel's marks of the phase.
    pub marks: Marks,
}
