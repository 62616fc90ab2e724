//! What each protocol has come to.
ghost use Rattle.std.specs.Prelude.{◌≡◌, IfOk};
ghost use Rattle.room_report.specs.Inside.{Reports, mode_of, state_of};

use crate::naming::copy_name;
use attrs::{Judge, Seq};
use bits_ip::OutOfMemory;
use report::{ModeReport, ProtocolState};
use room_ends::MemberEnded;
use std::alloc::Global;

pub(crate) fn report_modes<J: Judge>(
    alloc: Global,
    names: &[Seq<u8>],
    members: &[MemberEnded<J>],
) -> Result<Seq<ModeReport>, OutOfMemory>
    ensures { IfOk result (λ reports. Reports (mode_of names.now) members.now reports) }
{
    let mut reports = Seq::new(alloc);
    for (number, member) in members.iter().enumerate() {
        reports.push(report_mode(alloc, names, number, member)?)?;
    }
    Ok(reports)
}

fn report_mode<J: Judge>(
    alloc: Global,
    names: &[Seq<u8>],
    number: usize,
    member: &MemberEnded<J>,
) -> Result<ModeReport, OutOfMemory>
    ensures { IfOk result (λ report. report ≡ mode_of names.now number member.now) }
{
    let name = copy_name(alloc, names, number)?;
    let state = member_state(member);
    Ok(ModeReport { name, state })
}

/// Of a pipe whether it is up, and else the mode and how many nets have an accepted route.
fn member_state<J: Judge>(member: &MemberEnded<J>) -> ProtocolState
    ensures { result ≡ state_of member.now }
{
    match member {
        MemberEnded::Own(own) => {
            ProtocolState::Imports(own.importer.mode(), own.importer.accepted())
        }
        MemberEnded::Pipe(pipe) => ProtocolState::Pipe(pipe.up),
    }
}
