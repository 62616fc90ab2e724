//! What lies under an export lock as a phase begins.
ghost use Rattle.std.specs.Prelude.{Bool, []};
ghost use Rattle.export_lock.specs.Begun.{Begins, BeginsLane};
ghost use Rattle.export_lock.specs.Kept.{IsExporting};
ghost use Rattle.export_lock.specs.Lanes.{IsLane, LaneTerms};
ghost use Rattle.export_lock.specs.Terms.{ExportTerms};

use crate::lane::PipeLane;
use crate::state::ExportState;
use attrs::Judge;
use export_core::Exporter;
use import_lock::Marks;
use table_shared::{Port, TableCursor};

impl<J: Judge> ExportState<J> {
    /// The value of a lock as a phase begins, with the exporter as earlier phases left it. Nothing
    /// of the phase is read or marked.
    pub fn begin(exporter: Exporter<J>, cursor: TableCursor, marks: Marks) -> ExportState<J>
        ensures { (every : Bool) (key : ExportTerms)
            → Begins J.verdict every key exporter cursor marks
            → IsExporting J.verdict every key result }
    {
        ExportState {
            exporter,
            cursor,
            marks,
        }
    }
}

impl<J: Judge> PipeLane<J> {
    /// The same of a pipe's direction, with its port of the table that it writes, under which
    /// nothing is entered yet.
    pub fn begin(
        exporter: Exporter<J>,
        cursor: TableCursor,
        marks: Marks,
        port: Port,
    ) -> PipeLane<J>
        ensures { (key : LaneTerms) → BeginsLane J.verdict key exporter cursor marks port
            → IsLane J.verdict [] key result }
    {
        let state = ExportState {
            exporter,
            cursor,
            marks,
        };
        PipeLane { state, port }
    }
}
