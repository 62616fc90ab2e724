//! What stands as sent by each channel.
ghost use Rattle.std.specs.Prelude.{◌≡◌, ◌∷◌, [], true, IfOk, OnOk, map, option_copied};
ghost use Rattle.export_core.specs.Standing.{is_open, standing_at};
ghost use Rattle.core_setup.specs.Reports.{AreStanding, IsStandingReport, standing_of};
ghost use Rattle.room_report.specs.Described.{MayStand};
ghost use Rattle.room_report.specs.Inside.{Adds, IsExportOf, Serves, lane, own_served, pipe_served, served_in};

use crate::naming::{ChannelKind, copy_channel_name, is_direction};
use attrs::{Attrs, Judge, Seq, Shared};
use bits_ip::OutOfMemory;
use export_core::{Exporter, Key};
use pipe_close::PipeEnded;
use report::{ExportReport, Standing};
use room_ends::MemberEnded;
use std::alloc::Global;

pub(crate) fn report_exports<J: Judge>(
    alloc: Global,
    names: &[Seq<u8>],
    members: &[MemberEnded<J>],
) -> Result<Seq<ExportReport>, OutOfMemory>
    ensures { IfOk result (λ reports. Serves (IsExportOf names.now) members.now reports) }
{
    let mut reports = Seq::new(alloc);
    for (number, member) in members.iter().enumerate() {
        add_member(alloc, names, number, member, &mut reports)?;
    }
    Ok(reports)
}

fn add_member<J: Judge>(
    alloc: Global,
    names: &[Seq<u8>],
    number: usize,
    member: &MemberEnded<J>,
    reports: &mut Seq<ExportReport>,
) -> Result<(), OutOfMemory>
    ensures { OnOk result (Adds (IsExportOf names.now) (served_in number member.now)
        reports.old reports.new) }
{
    match member {
        MemberEnded::Own(own) => add_own(alloc, names, number, own.exporter.as_ref(), reports),
        MemberEnded::Pipe(pipe) => add_pipe(alloc, names, number, pipe, reports),
    }
}

fn add_own<J: Judge>(
    alloc: Global,
    names: &[Seq<u8>],
    number: usize,
    exporter: Option<&Exporter<J>>,
    reports: &mut Seq<ExportReport>,
) -> Result<(), OutOfMemory>
    ensures { OnOk result (Adds (IsExportOf names.now)
        (own_served number (option_copied exporter.entry)) reports.old reports.new) }
{
    match exporter {
        Some(exporter) => add_export(alloc, names, number, ChannelKind::Own, exporter, reports),
        None => Ok(()),
    }
}

fn add_pipe<J: Judge>(
    alloc: Global,
    names: &[Seq<u8>],
    number: usize,
    pipe: &PipeEnded<J>,
    reports: &mut Seq<ExportReport>,
) -> Result<(), OutOfMemory>
    ensures { OnOk result (Adds (IsExportOf names.now)
        (pipe_served number pipe.now) reports.old reports.new) }
{
    add_export(
        alloc,
        names,
        number,
        ChannelKind::Export,
        &pipe.out,
        reports,
    )?;
    add_export(
        alloc,
        names,
        number,
        ChannelKind::Import,
        &pipe.back,
        reports,
    )
}

fn add_export<J: Judge>(
    alloc: Global,
    names: &[Seq<u8>],
    number: usize,
    kind: ChannelKind,
    exporter: &Exporter<J>,
    reports: &mut Seq<ExportReport>,
) -> Result<(), OutOfMemory>
    ensures { OnOk result (Adds (IsExportOf names.now)
        (lane number kind exporter.now ∷ []) reports.old reports.new) }
{
    let name = copy_channel_name(alloc, names, number, kind)?;
    let standing = report_standing(alloc, exporter)?;
    let pipe = is_direction(kind);
    reports.push(ExportReport {
        name,
        pipe,
        standing,
    })?;
    Ok(())
}

fn report_standing<J: Judge>(
    alloc: Global,
    exporter: &Exporter<J>,
) -> Result<Option<Seq<Standing>>, OutOfMemory>
    ensures { IfOk result (λ standing. MayStand exporter.now
        → IsStandingReport (is_open exporter.now.log) (λ k. standing_at k exporter.now.log)
        standing) }
{
    if exporter.is_up() {
        Ok(Some(list_held(alloc, exporter)?))
    } else {
        Ok(None)
    }
}

fn list_held<J: Judge>(alloc: Global, exporter: &Exporter<J>) -> Result<Seq<Standing>, OutOfMemory>
    ensures { IfOk result (λ standing. MayStand exporter.now
        → is_open exporter.now.log ≡ true
        → AreStanding (λ k. standing_at k exporter.now.log) standing) }
{
    let values = exporter.standing()?;
    let standing = list_standing(alloc, values)?;
    Ok(standing)
}

fn list_standing(
    alloc: Global,
    values: Vec<(Key, Shared<Attrs>)>,
) -> Result<Seq<Standing>, OutOfMemory>
    ensures { IfOk result (λ standing. standing ≡ map standing_of values.items) }
{
    let mut standing = Seq::from_vec(Vec::with_capacity(alloc, values.len())?);
    for (key, attrs) in values {
        standing.push(Standing { key, attrs })?;
    }
    Ok(standing)
}
