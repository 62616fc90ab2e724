//! The seats of a pipe's direction end in their tables.
ghost use Rattle.std.specs.Prelude.{◌≡◌, List};
ghost use Rattle.export_lock.specs.Lanes.{LaneTerms};
ghost use Rattle.import_core.specs.declared.operation.Op.{Op};
ghost use Rattle.jour.specs.Seats.{journal};
ghost use Rattle.phase_close.specs.Closed.{all_lists};
ghost use Rattle.phase_close.specs.Whole.{entries_at};
ghost use Rattle.pipe_close.specs.Ended.{IsHeardLane, IsLaneEnded, IsTableAt};
ghost use Rattle.pipe_close.specs.Left.{IsLaneLeft};
ghost use Rattle.pipe_lock.specs.Terms.{DirectionTerms, PipeTerms};
ghost use Rattle.table_shared.specs.Phases.{IsHeard, IsRetired as IsPortRetired};

use attrs::Judge;
use export_core::Exporter;
use export_lock::{ExportState, PipeLane};
use table_shared::{Closing, Port, TableCursor};

/// Ends a cursor of the table of a number.
fn hear_at(closings: &mut Vec<Closing>, place: usize, mut cursor: TableCursor)
    requires { IsTableAt (all_lists closings.old.items) place (journal cursor.0) }
    ensures same { all_lists closings.new.items ≡ all_lists closings.old.items }
    ensures heard { IsHeard cursor.0.1.seen.terms
        (entries_at (all_lists closings.old.items) place) cursor.0.1 }
{
    closings[place].hear_cursor(&mut cursor);
}

/// Ends a port of the table of a number.
fn retire_at(closings: &mut Vec<Closing>, place: usize, port: Port)
    requires { IsTableAt (all_lists closings.old.items) place (journal port) }
    ensures same { all_lists closings.new.items ≡ all_lists closings.old.items }
    ensures retired { IsPortRetired port.1.seen.terms
        (entries_at (all_lists closings.old.items) place) port }
{
    closings[place].retire(port);
}

/// Ends the cursor of a direction in the table of the one number, and its port in that of the
/// other.
pub fn end_lane<J: Judge + Drop>(
    closings: &mut Vec<Closing>,
    reads: u32,
    writes: u32,
    lane: PipeLane<J>,
) -> Exporter<J>
    requires read { IsTableAt (all_lists closings.old.items) reads
        (journal lane.state.cursor.0) }
    requires written { IsTableAt (all_lists closings.old.items) writes (journal lane.port) }
    ensures same { all_lists closings.new.items ≡ all_lists closings.old.items }
    ensures heard { IsHeardLane (all_lists closings.old.items) reads lane result }
    ensures retired { IsPortRetired lane.port.1.seen.terms
        (entries_at (all_lists closings.old.items) writes) lane.port }
    ensures ended { (pipe : PipeTerms) (direction : DirectionTerms) (key : LaneTerms)
        (ops : List Op) → IsLaneLeft J.verdict pipe direction key ops lane
        → IsLaneEnded J.verdict (all_lists closings.old.items) reads writes pipe direction key
        ops result }
{
    let PipeLane { state, port } = lane;
    let ExportState {
        exporter,
        cursor,
        ..
    } = state;
    hear_at(closings, reads as usize, cursor);
    retire_at(closings, writes as usize, port);
    exporter
}
