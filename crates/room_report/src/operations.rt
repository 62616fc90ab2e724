//! The operations of each protocol.
ghost use Rattle.std.specs.Prelude.{◌≡◌, IfOk, map, option_copied, slice_get};
ghost use Rattle.room_report.specs.Inside.{Reports, done_in, line_before, op_asked, op_in, operations_of, ops_in};

use crate::naming::copy_name;
use attrs::{Judge, Seq};
use bits_ip::OutOfMemory;
use import_core::{Done, Op};
use import_lock::OpRecord;
use report::ProtocolReport;
use room_ends::MemberEnded;
use script_lines::Line;
use std::alloc::Global;

pub(crate) fn report_operations<J: Judge>(
    alloc: Global,
    names: &[Seq<u8>],
    lines: &[Line],
    members: &[MemberEnded<J>],
) -> Result<Seq<ProtocolReport>, OutOfMemory>
    ensures { IfOk result (λ reports.
        Reports (operations_of names.now lines.now) members.now reports) }
{
    let mut reports = Seq::new(alloc);
    for (number, member) in members.iter().enumerate() {
        reports.push(report_protocol(alloc, names, lines, number, member)?)?;
    }
    Ok(reports)
}

fn report_protocol<J: Judge>(
    alloc: Global,
    names: &[Seq<u8>],
    lines: &[Line],
    number: usize,
    member: &MemberEnded<J>,
) -> Result<ProtocolReport, OutOfMemory>
    ensures { IfOk result
        (λ report. report ≡ operations_of names.now lines.now number member.now) }
{
    let name = copy_name(alloc, names, number)?;
    let ops = copy_done(alloc, lines, member)?;
    Ok(ProtocolReport { name, ops })
}

fn copy_done<J: Judge>(
    alloc: Global,
    lines: &[Line],
    member: &MemberEnded<J>,
) -> Result<Seq<Done>, OutOfMemory>
    ensures { IfOk result (λ ops. ops ≡ map (done_in lines.now) (ops_in member.now)) }
{
    match member {
        MemberEnded::Own(own) => copy_operations(alloc, lines, own.ops.as_slice()),
        MemberEnded::Pipe(pipe) => copy_operations(alloc, lines, pipe.ops.as_slice()),
    }
}

fn copy_operations(
    alloc: Global,
    lines: &[Line],
    turns: &[OpRecord],
) -> Result<Seq<Done>, OutOfMemory>
    ensures { IfOk result (λ ops. ops ≡ map (done_in lines.now) turns.now) }
{
    let mut ops = Seq::from_vec(Vec::with_capacity(alloc, turns.len())?);
    for turn in turns {
        ops.push(copy_turn(lines, turn)?)?;
    }
    Ok(ops)
}

fn copy_turn(lines: &[Line], turn: &OpRecord) -> Result<Done, OutOfMemory>
    ensures { IfOk result (λ done. done ≡ done_in lines.now turn.now) }
{
    let op = copy_operation(line_at(lines, turn.line))?;
    Ok(Done {
        op,
        over: turn.over,
    })
}

/// The line of a place, from 1 on; there is none of a start.
fn line_at(lines: &[Line], place: u32) -> Option<&Line>
    ensures { option_copied result ≡ line_before lines.now place }
{
    if place == 0 {
        None
    } else {
        nth_line(lines, place as usize - 1)
    }
}

fn nth_line(lines: &[Line], index: usize) -> Option<&Line>
    ensures { option_copied result ≡ slice_get lines.now index }
{
    lines.get(index)
}

fn copy_operation(line: Option<&Line>) -> Result<Op, OutOfMemory>
    ensures { IfOk result (λ op. op ≡ op_in (option_copied line.entry)) }
{
    match line {
        Some(line) => copy_asked(line),
        None => Ok(Op::Start),
    }
}

fn copy_asked(line: &Line) -> Result<Op, OutOfMemory>
    ensures { IfOk result (λ op. op ≡ op_asked line.now) }
{
    match line {
        Line::Take { .. } => Ok(Op::Start),
        Line::Push { .. } => Ok(Op::Start),
        Line::Apply { op, .. } => op.copy(),
        Line::Show { .. } => Ok(Op::Start),
    }
}
