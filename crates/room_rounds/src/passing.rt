//! Cursors by which nothing is read move past what there is.
ghost use Rattle.std.specs.Prelude.{◌≡◌};
ghost use Rattle.export_lock.specs.Kept.{GoesOn, LeavesFlush};

use attrs::Judge;
use channel_turns::{pass_all, pass_by};
use export_lock::ExportState;
use table_shared::TableCursor;

/// The cursor of what is down moves past the entries that there are, and what is up stays as it is.
pub(crate) fn pass_closed<J: Judge>(state: &mut ExportState<J>)
    ensures goes { GoesOn J.verdict state.old state.new }
    ensures flush { LeavesFlush state.old state.new }
    ensures log { state.new.exporter.log ≡ state.old.exporter.log }
    ensures marks { state.new.marks ≡ state.old.marks }
{
    if !state.cursor.is_started() {
        pass_by(&mut state.cursor);
    }
}

/// Each of the cursors moves past the entries that there are.
pub(crate) fn pass_spares(spares: &mut Vec<Vec<TableCursor>>) {
    for index in 0..spares.len() {
        pass_all(&mut spares[index]);
    }
}
