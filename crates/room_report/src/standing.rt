//! What stands behind a phase.
ghost use Rattle.std.specs.Prelude.{◌≡◌, ◌++◌, Some, IfOk, option_map, slice_get};
ghost use Rattle.core_setup.specs.Channels.{family_or_first};
ghost use Rattle.core_setup.specs.Pairs.{Pairs};
ghost use Rattle.phase_close.specs.Rooms.{AreOthers};
ghost use Rattle.room_open.specs.declared.standing.Standing.{Standing as StandingView};
ghost use Rattle.room_ends.specs.After.{StandsAfter};
ghost use Rattle.room_report.specs.Behind.{IsPlayedOver};
ghost use Rattle.room_report.specs.Inside.{IsMemberBehind, IsTableBehind, IsTableOf, channel_of, directions_in, list_in, member_behind, numbers_or_none, own_in, pipe_behind, protocol_behind};

use crate::numbers::ChannelNumbers;
use attrs::{JEntry, Judge, Seq};
use bits_ip::{Family, OutOfMemory};
use export_core::Exporter;
use phase_close::SessionEnded;
use phase_open::{StandingChannel, StandingProtocol, StandingTable};
use pipe_close::PipeEnded;
use room_ends::{MemberEnded, PlayedRoom, RoomEnded};
use room_open::{Standing, StandingMember, StandingPipe};
use std::alloc::Global;
use std::mem;
use sys_run::TableParts;
use table_shared::Phase;

/// What stands behind a phase, over the tables' families, by table its entries before the phase,
/// and by protocol the numbers of its channels. No entry is copied.
pub fn stand_after<J: Judge + Drop>(
    alloc: Global,
    tables: &[TableParts],
    numbers: &[ChannelNumbers],
    before: Vec<Vec<JEntry>>,
    made: PlayedRoom<J>,
) -> Result<Standing<J>, OutOfMemory>
    ensures { IfOk result (λ after. (old : StandingView J)
        → IsPlayedOver old tables.now numbers.now before.items made
        → StandsAfter old made after) }
{
    let PlayedRoom { ended, .. } = made;
    let RoomEnded { phases, members } = ended;
    let tables = tables_after(alloc, tables, before, phases)?;
    let members = members_after(alloc, numbers, members)?;
    Ok(Standing { tables, members })
}

fn tables_after(
    alloc: Global,
    tables: &[TableParts],
    mut before: Vec<Vec<JEntry>>,
    phases: Vec<Phase>,
) -> Result<Vec<StandingTable>, OutOfMemory>
    ensures { IfOk result (λ stands.
        Pairs (IsTableBehind tables.now before.items) 0 phases.items stands.items) }
{
    let mut stands = Vec::new(alloc);
    let mut place: usize = 0;
    for phase in phases {
        let family = family_at(tables, place);
        let stood = take_list(alloc, &mut before, place);
        let stand = table_after(family, stood, phase)?;
        stands.push(stand)?;
        place += 1;
    }
    Ok(stands)
}

/// The list of a place, which is left empty there. Where there is none it is empty.
fn take_list(alloc: Global, lists: &mut Vec<Vec<JEntry>>, place: usize) -> Vec<JEntry>
    ensures others { AreOthers place lists.old.items lists.new.items }
    ensures list { result.items ≡ list_in (slice_get lists.old.items place) }
{
    if place < lists.len() {
        mem::replace(&mut lists[place], Vec::new(alloc))
    } else {
        Vec::new(alloc)
    }
}

/// The family of the table of a number, and IPv4 of one that isn't there.
fn family_at(tables: &[TableParts], number: usize) -> Family
    ensures { result ≡ family_or_first
        (option_map (λ table. table.family) (slice_get tables.now number)) }
{
    match tables.get(number) {
        Some(table) => table.family,
        None => Family::V4,
    }
}

fn table_after(
    family: Family,
    stood: Vec<JEntry>,
    phase: Phase,
) -> Result<StandingTable, OutOfMemory>
    ensures { IfOk result (λ table. IsTableOf family stood.items phase table) }
{
    let Phase { entries, rib, .. } = phase;
    let before = join_entries(stood, entries)?;
    Ok(StandingTable {
        family,
        rows: rib,
        before,
    })
}

fn join_entries(mut stood: Vec<JEntry>, entries: Seq<JEntry>) -> Result<Vec<JEntry>, OutOfMemory>
    ensures { IfOk result (λ all. all.items ≡ stood.items ++ entries) }
{
    let entries = entries.into_vec();
    for entry in entries {
        stood.push(entry)?;
    }
    Ok(stood)
}

fn members_after<J: Judge + Drop>(
    alloc: Global,
    numbers: &[ChannelNumbers],
    members: Vec<MemberEnded<J>>,
) -> Result<Vec<StandingMember<J>>, OutOfMemory>
    ensures { IfOk result (λ stands.
        Pairs (IsMemberBehind numbers.now) 0 members.items stands.items) }
{
    let mut stands = Vec::new(alloc);
    let mut place: usize = 0;
    for member in members {
        let told = numbers_at(numbers, place);
        let stand = member_after(told, member);
        stands.push(stand)?;
        place += 1;
    }
    Ok(stands)
}

/// The numbers of the channels of the protocol of a number, if it has any.
fn numbers_at(numbers: &[ChannelNumbers], place: usize) -> ChannelNumbers
    ensures { result ≡ numbers_or_none (slice_get numbers.now place) }
{
    match numbers.get(place) {
        Some(told) => *told,
        None => ChannelNumbers::Own(None),
    }
}

fn member_after<J: Judge + Drop>(
    numbers: ChannelNumbers,
    member: MemberEnded<J>,
) -> StandingMember<J>
    ensures { result ≡ member_behind numbers member }
{
    match member {
        MemberEnded::Own(own) => StandingMember::Own(protocol_after(own_number(numbers), own)),
        MemberEnded::Pipe(pipe) => {
            StandingMember::Pipe(pipe_after(direction_numbers(numbers), pipe))
        }
    }
}

/// The number of a protocol's only channel; a pipe's aren't such.
fn own_number(numbers: ChannelNumbers) -> Option<u32>
    ensures { result ≡ own_in numbers }
{
    match numbers {
        ChannelNumbers::Own(number) => number,
        ChannelNumbers::Pipe(..) => None,
    }
}

/// The numbers of directions out and back, and 0 where they are told of no pipe.
fn direction_numbers(numbers: ChannelNumbers) -> (u32, u32)
    ensures { result ≡ directions_in numbers }
{
    match numbers {
        ChannelNumbers::Own(_) => (0, 0),
        ChannelNumbers::Pipe(out, back) => (out, back),
    }
}

fn pipe_after<J: Judge + Drop>(numbers: (u32, u32), pipe: PipeEnded<J>) -> StandingPipe<J>
    ensures { result ≡ pipe_behind numbers pipe }
{
    let PipeEnded {
        primary,
        peer,
        up,
        out,
        back,
        ..
    } = pipe;
    StandingPipe {
        primary,
        peer,
        up,
        out: StandingChannel {
            number: numbers.0,
            exporter: out,
        },
        back: StandingChannel {
            number: numbers.1,
            exporter: back,
        },
    }
}

fn protocol_after<J: Judge + Drop>(
    number: Option<u32>,
    session: SessionEnded<J>,
) -> StandingProtocol<J>
    ensures { result ≡ protocol_behind number session }
{
    let SessionEnded {
        table,
        importer,
        exporter,
        ..
    } = session;
    let channel = channel_after(number, exporter);
    StandingProtocol {
        table,
        importer,
        channel,
    }
}

fn channel_after<J: Judge + Drop>(
    number: Option<u32>,
    exporter: Option<Exporter<J>>,
) -> Option<StandingChannel<J>>
    ensures { result ≡ channel_of number exporter }
{
    match exporter {
        Some(exporter) => number_channel(number, exporter),
        None => None,
    }
}

fn number_channel<J: Judge + Drop>(
    number: Option<u32>,
    exporter: Exporter<J>,
) -> Option<StandingChannel<J>>
    ensures { result ≡ channel_of number (Some exporter) }
{
    match number {
        Some(number) => Some(StandingChannel { number, exporter }),
        None => None,
    }
}
