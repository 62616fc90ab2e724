//! The report of a phase.
ghost use Rattle.std.specs.Prelude.{IfOk, map};
ghost use Rattle.core_machine.specs.Legal.{Joined, Printed};
ghost use Rattle.core_setup.specs.Reports.{IsReport};
ghost use Rattle.core_setup.specs.Setup.{Setup};
ghost use Rattle.room_ends.specs.Prints.{Prints};
ghost use Rattle.room_report.specs.Described.{IsDescribed};
ghost use Rattle.sys_run.specs.Scripts.{line_of};

use crate::exports::report_exports;
use crate::journals::report_journals;
use crate::logs::report_logs;
use crate::modes::report_modes;
use crate::operations::report_operations;
use crate::replies::report_replies;
use crate::rows::report_rows;
use attrs::{Judge, Seq};
use bits_ip::OutOfMemory;
use report::PhaseReport;
use room_ends::PlayedRoom;
use script_lines::{Line, Name};
use std::alloc::Global;
use sys_run::TableParts;

/// The report of the phase of a number, over the names of tables, protocols and actors, the lines
/// of the phase, and by channel how many items of its log were reported before. Nothing of what the
/// phase has made is taken away.
pub fn report_phase<J: Judge + Drop>(
    alloc: Global,
    number: u64,
    tables: &[TableParts],
    names: &[Seq<u8>],
    actors: &[Name],
    lines: &[Line],
    logged: &[usize],
    made: &PlayedRoom<J>,
) -> Result<PhaseReport, OutOfMemory>
    ensures { IfOk result (λ report. (setup : Setup) (past : Joined) (p : Printed)
        → IsDescribed setup tables.now names.now actors.now logged.now past made.now
        → Prints setup (map (line_of setup.queries) lines.now) past p made.now
        → IsReport setup actors.now number past p report) }
{
    let phases = made.ended.phases.as_slice();
    let members = made.ended.members.as_slice();
    let protocols = report_operations(alloc, names, lines, members)?;
    let journals = report_journals(alloc, tables, phases)?;
    let channels = report_logs(alloc, names, logged, members)?;
    let replies = report_replies(alloc, actors, tables, made.told.as_slice())?;
    let rows = report_rows(alloc, tables, phases)?;
    let modes = report_modes(alloc, names, members)?;
    let exports = report_exports(alloc, names, members)?;
    Ok(PhaseReport {
        number,
        protocols,
        journals,
        channels,
        replies,
        tables: rows,
        modes,
        exports,
    })
}
