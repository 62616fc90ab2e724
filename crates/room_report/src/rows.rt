//! The rows of each table.
ghost use Rattle.std.specs.Prelude.{◌≡◌, IfOk};
ghost use Rattle.room_report.specs.Inside.{Reports, rows_of};

use crate::naming::copy_table_name;
use attrs::{Select, Seq};
use bits_ip::OutOfMemory;
use report::TableReport;
use std::alloc::Global;
use sys_run::TableParts;
use table_shared::Phase;

pub(crate) fn report_rows(
    alloc: Global,
    tables: &[TableParts],
    phases: &[Phase],
) -> Result<Seq<TableReport>, OutOfMemory>
    ensures { IfOk result (λ reports. Reports (rows_of tables.now) phases.now reports) }
{
    let mut reports = Seq::new(alloc);
    for (number, phase) in phases.iter().enumerate() {
        reports.push(report_table(alloc, tables, number, phase)?)?;
    }
    Ok(reports)
}

fn report_table(
    alloc: Global,
    tables: &[TableParts],
    number: usize,
    phase: &Phase,
) -> Result<TableReport, OutOfMemory>
    ensures { IfOk result (λ report. report ≡ rows_of tables.now number phase.now) }
{
    let name = copy_table_name(alloc, tables, number)?;
    let rows = phase.rib.select(&Select::All)?;
    Ok(TableReport {
        name,
        rows: Seq::from_vec(rows),
    })
}
