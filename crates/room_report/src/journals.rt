//! The changes of each table.
ghost use Rattle.std.specs.Prelude.{◌≡◌, IfOk};
ghost use Rattle.room_report.specs.Inside.{Reports, journal_of};

use crate::copies::copy_changes;
use crate::naming::copy_table_name;
use attrs::Seq;
use bits_ip::OutOfMemory;
use report::JournalReport;
use std::alloc::Global;
use sys_run::TableParts;
use table_shared::Phase;

pub(crate) fn report_journals(
    alloc: Global,
    tables: &[TableParts],
    phases: &[Phase],
) -> Result<Seq<JournalReport>, OutOfMemory>
    ensures { IfOk result (λ reports. Reports (journal_of tables.now) phases.now reports) }
{
    let mut reports = Seq::new(alloc);
    for (number, phase) in phases.iter().enumerate() {
        reports.push(report_journal(alloc, tables, number, phase)?)?;
    }
    Ok(reports)
}

fn report_journal(
    alloc: Global,
    tables: &[TableParts],
    number: usize,
    phase: &Phase,
) -> Result<JournalReport, OutOfMemory>
    ensures { IfOk result (λ report. report ≡ journal_of tables.now number phase.now) }
{
    let table = copy_table_name(alloc, tables, number)?;
    let entries = copy_changes(alloc, phase.entries.as_slice())?;
    Ok(JournalReport {
        table,
        from: phase.from,
        entries,
    })
}
