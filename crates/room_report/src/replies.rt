//! What actors were told.
ghost use Rattle.std.specs.Prelude.{◌≡◌, ◌++◌, IfOk, OnOk, map};
ghost use Rattle.room_report.specs.Inside.{replies_told, reply_of};

use crate::naming::{actor_name, copy_table_name};
use attrs::Seq;
use bits_ip::OutOfMemory;
use phase_actors::Told;
use report::ReplyReport;
use script_lines::Name;
use std::alloc::Global;
use sys_run::TableParts;

/// By actor what it was told, in the order of its questions.
pub(crate) fn report_replies(
    alloc: Global,
    actors: &[Name],
    tables: &[TableParts],
    told: &[Vec<Told>],
) -> Result<Seq<ReplyReport>, OutOfMemory>
    ensures { IfOk result (λ reports. reports ≡ replies_told tables.now actors.now 0 told.now) }
{
    let mut reports = Seq::new(alloc);
    for (number, replies) in told.iter().enumerate() {
        let actor = actor_name(actors, number);
        add_replies(alloc, actor, tables, replies.as_slice(), &mut reports)?;
    }
    Ok(reports)
}

fn add_replies(
    alloc: Global,
    actor: &[u8],
    tables: &[TableParts],
    replies: &[Told],
    reports: &mut Seq<ReplyReport>,
) -> Result<(), OutOfMemory>
    ensures { OnOk result (reports.new
        ≡ reports.old ++ map (reply_of tables.now actor.now) replies.now) }
{
    for reply in replies {
        reports.push(report_reply(alloc, actor, tables, reply)?)?;
    }
    Ok(())
}

fn report_reply(
    alloc: Global,
    actor: &[u8],
    tables: &[TableParts],
    told: &Told,
) -> Result<ReplyReport, OutOfMemory>
    ensures { IfOk result (λ report. report ≡ reply_of tables.now actor.now told.now) }
{
    Ok(ReplyReport {
        actor: Seq::from_vec(Vec::from_slice(alloc, actor)?),
        table: copy_table_name(alloc, tables, told.table as usize)?,
        at: told.at,
        text: Seq::from_vec(Vec::from_slice(alloc, told.text.as_slice())?),
    })
}
