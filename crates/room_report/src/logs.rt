//! The log of each channel.
ghost use Rattle.std.specs.Prelude.{◌≡◌, ◌∷◌, [], IfOk, OnOk, option_copied, slice_get};
ghost use Rattle.room_report.specs.Inside.{Adds, IsLogOf, Serves, lane, length_of, own_served, pipe_served, served_in};

use crate::copies::copy_behind;
use crate::naming::{ChannelKind, copy_channel_name, is_direction};
use attrs::{Judge, Seq};
use bits_ip::OutOfMemory;
use export_core::Exporter;
use pipe_close::PipeEnded;
use report::ChannelReport;
use room_ends::MemberEnded;
use std::alloc::Global;

/// By channel what its log has behind the length of its number.
pub(crate) fn report_logs<J: Judge>(
    alloc: Global,
    names: &[Seq<u8>],
    logged: &[usize],
    members: &[MemberEnded<J>],
) -> Result<Seq<ChannelReport>, OutOfMemory>
    ensures { IfOk result
        (λ reports. Serves (IsLogOf names.now logged.now) members.now reports) }
{
    let mut reports = Seq::new(alloc);
    for (number, member) in members.iter().enumerate() {
        add_member(alloc, names, logged, number, member, &mut reports)?;
    }
    Ok(reports)
}

fn add_member<J: Judge>(
    alloc: Global,
    names: &[Seq<u8>],
    logged: &[usize],
    number: usize,
    member: &MemberEnded<J>,
    reports: &mut Seq<ChannelReport>,
) -> Result<(), OutOfMemory>
    ensures { OnOk result (Adds (IsLogOf names.now logged.now) (served_in number member.now)
        reports.old reports.new) }
{
    match member {
        MemberEnded::Own(own) => {
            add_own(alloc, names, logged, number, own.exporter.as_ref(), reports)
        }
        MemberEnded::Pipe(pipe) => add_pipe(alloc, names, logged, number, pipe, reports),
    }
}

fn add_own<J: Judge>(
    alloc: Global,
    names: &[Seq<u8>],
    logged: &[usize],
    number: usize,
    exporter: Option<&Exporter<J>>,
    reports: &mut Seq<ChannelReport>,
) -> Result<(), OutOfMemory>
    ensures { OnOk result (Adds (IsLogOf names.now logged.now)
        (own_served number (option_copied exporter.entry)) reports.old reports.new) }
{
    match exporter {
        Some(exporter) => add_log(
            alloc,
            names,
            logged,
            number,
            ChannelKind::Own,
            exporter,
            reports,
        ),
        None => Ok(()),
    }
}

fn add_pipe<J: Judge>(
    alloc: Global,
    names: &[Seq<u8>],
    logged: &[usize],
    number: usize,
    pipe: &PipeEnded<J>,
    reports: &mut Seq<ChannelReport>,
) -> Result<(), OutOfMemory>
    ensures { OnOk result (Adds (IsLogOf names.now logged.now)
        (pipe_served number pipe.now) reports.old reports.new) }
{
    add_log(
        alloc,
        names,
        logged,
        number,
        ChannelKind::Export,
        &pipe.out,
        reports,
    )?;
    add_log(
        alloc,
        names,
        logged,
        number,
        ChannelKind::Import,
        &pipe.back,
        reports,
    )
}

fn add_log<J: Judge>(
    alloc: Global,
    names: &[Seq<u8>],
    logged: &[usize],
    number: usize,
    kind: ChannelKind,
    exporter: &Exporter<J>,
    reports: &mut Seq<ChannelReport>,
) -> Result<(), OutOfMemory>
    ensures { OnOk result (Adds (IsLogOf names.now logged.now)
        (lane number kind exporter.now ∷ []) reports.old reports.new) }
{
    let name = copy_channel_name(alloc, names, number, kind)?;
    let from = length_at(logged, reports.len());
    let items = copy_behind(alloc, exporter.items(), from)?;
    let pipe = is_direction(kind);
    reports.push(ChannelReport { name, pipe, items })?;
    Ok(())
}

fn length_at(lengths: &[usize], number: usize) -> usize
    ensures { result ≡ length_of (slice_get lengths.now number) }
{
    match lengths.get(number) {
        Some(length) => *length,
        None => 0,
    }
}
