//! A phase ends, with all at rest.
ghost use Rattle.std.specs.Prelude.{◌≡◌, List, IfOk};
ghost use Rattle.std.specs.List.{AllByRecursion};
ghost use Rattle.attrs.specs.declared.route.Src.{Src as SrcView};
ghost use Rattle.phase_close.specs.Whole.{ArePassesOf};
ghost use Rattle.phase_legal.specs.Shown.{AreBeside};
ghost use Rattle.pipe_rest.specs.Later.{CanSettle};
ghost use Rattle.room_ends.specs.Ended.{IsRoomEnded};
ghost use Rattle.room_close.specs.Inside.{EndsAtRest};
ghost use Rattle.room_ends.specs.Left.{AreHandsOf, AreMembersLeft};
ghost use Rattle.room_ends.specs.Synced.{IsSynced};
ghost use Rattle.room_members.specs.Members.{IsRoom};
ghost use Rattle.room_members.specs.Ports.{HasPorts};

use crate::members::close_members;
use crate::seats::end_members;
use attrs::{Judge, Src};
use bits_ip::OutOfMemory;
use export_lock::Sends;
use import_lock::{Hand, OpFault, Phase};
use outside_io::Gate;
use phase_close::{close_tables, end_tables, hear_actors};
use phase_pipes::laws::directions_know_their_sources;
use pipe_rest::MemberLeft;
use pipe_rest::laws::settled_members_know_the_last_head;
use room_ends::RoomEnded;
use room_members::Room;
use room_rounds::settle_members;
use std::alloc::Global;
use std::sync::Wait;
use table_shared::{Table, TableCursor, TablePass};

/// What is left of a room: its tables and sources, which are as they were, and its members.
#[derive(Drop)]
struct RoomLeft<J: Judge> {
    tables: Vec<Table>,
    sources: Vec<Src>,
    members: Vec<MemberLeft<J>>,
}

/// Opens the locks of all members, and ends their hands and stamps.
fn close_room<R: Wait, J: Judge + Drop, P: Phase + Sends>(
    alloc: Global,
    rt: &R,
    room: Room<J, P>,
    hands: Vec<Vec<Hand>>,
) -> Result<RoomLeft<J>, OpFault>
    requires room { IsRoom P.terms P.exports P.rules room }
    requires hands { AreBeside (AreHandsOf P.terms) room.members.items hands.items }
    ensures same { IfOk result (λ left. (left.tables.items ≡ room.tables.items)
        × (left.sources.items ≡ room.sources.items)) }
    ensures members { IfOk result (λ left. AreMembersLeft P.terms P.exports P.rules J.verdict
        room.members.items hands.items left.members.items) }
{
    let Room {
        sources,
        tables,
        members,
        ..
    } = room;
    match close_members(alloc, rt, members, hands) {
        Ok(members) => Ok(RoomLeft {
            tables,
            sources,
            members,
        }),
        Err(fault) => Err(fault),
    }
}

/// Closes the tables of members that no longer work at them, and ends the passes of all actors, by
/// actor one of each table.
fn end_room<R: Wait, J: Judge + Drop>(
    alloc: Global,
    rt: &R,
    tables: Vec<Table>,
    members: Vec<MemberLeft<J>>,
    passes: Vec<Vec<TablePass>>,
) -> Result<RoomEnded<J>, OutOfMemory>
    requires members { (sources : List SrcView)
        × AllByRecursion (CanSettle J.verdict tables.items sources) members.items }
    requires passes { AllByRecursion (ArePassesOf tables.items) passes.items }
    ensures { IfOk result (IsRoomEnded J.verdict tables.items members.items passes.items) }
{
    let mut closings = close_tables(alloc, rt, tables)?;
    let ended = end_members(alloc, &mut closings, members)?;
    hear_actors(&mut closings, passes);
    let phases = end_tables(alloc, closings)?;
    Ok(RoomEnded {
        phases,
        members: ended,
    })
}

/// Brings all that is left of a room to rest, and closes its tables.
fn end_left<R: Wait, G: Gate, J: Judge + Drop>(
    alloc: Global,
    rt: &R,
    gate: &G,
    left: RoomLeft<J>,
    passes: Vec<Vec<TablePass>>,
    spares: Vec<Vec<TableCursor>>,
) -> Result<RoomEnded<J>, OpFault>
    requires members { AllByRecursion
        (CanSettle J.verdict left.tables.items left.sources.items) left.members.items }
    requires passes { AllByRecursion (ArePassesOf left.tables.items) passes.items }
    ensures { IfOk result (EndsAtRest J.verdict left.tables.items left.sources.items
        left.members.items passes.items) }
{
    let RoomLeft {
        tables,
        sources,
        members,
    } = left;
    let mut spares = spares;
    let sources = sources.as_slice();
    let settled = settle_members(alloc, rt, gate, &tables, sources, &mut spares, members)?;
    match end_room(alloc, rt, tables, settled, passes) {
        Ok(ended) => Ok(ended),
        Err(_) => Err(OpFault::Memory),
    }
}

/// Ends a phase whose threads have returned, with the hands of each member, one of each actor and
/// one for starts, the passes of each actor, one of each table, and the cursors of tables by which
/// nothing is read. Channels and directions of pipes that are up read and send all that the phase
/// has made. It ends at the first fault: one that came in the phase, one that comes in a turn to
/// rest, or want of memory.
pub fn end_phase<R: Wait, G: Gate, J: Judge + Drop, P: Phase + Sends>(
    alloc: Global,
    rt: &R,
    gate: &G,
    room: Room<J, P>,
    hands: Vec<Vec<Hand>>,
    passes: Vec<Vec<TablePass>>,
    spares: Vec<Vec<TableCursor>>,
) -> Result<RoomEnded<J>, OpFault>
    requires room { IsRoom P.terms P.exports P.rules room }
    requires ports { HasPorts P.terms P.exports P.rules room }
    requires hands { AreBeside (AreHandsOf P.terms) room.members.items hands.items }
    requires passes { AllByRecursion (ArePassesOf room.tables.items) passes.items }
    ensures { IfOk result (IsSynced J.verdict P.terms P.exports P.rules room hands.items
        passes.items) }
{
    directions_know_their_sources();
    settled_members_know_the_last_head::<J>();
    let left = close_room(alloc, rt, room, hands)?;
    end_left(alloc, rt, gate, left, passes, spares)
}
