//! Protocols as a phase begins.
ghost use Rattle.std.specs.Prelude.{◌≡◌, ◌+◌, ◌≤◌, ◌<◌, ◌^◌, ◌++◌, ◌∷◌, ℕ, [], List, Some, length, slice_get, OnOk};
ghost use Rattle.core_setup.specs.Protocols.{rules_of};
ghost use Rattle.phase_legal.specs.Shown.{AreBeside};
ghost use Rattle.phase_open.specs.declared.standing.StandingTable.{StandingTable as StoodView};
ghost use Rattle.phase_room.specs.Opened.{IsPortOf};
ghost use Rattle.room_members.specs.Begun.{IsBegun};
ghost use Rattle.room_members.specs.declared.member.Member.{Member as MemberView};
ghost use Rattle.room_open.specs.Laid.{AreEntered, CanEnter, CanEnterAll, HasNumber};
ghost use Rattle.room_open.specs.Opening.{IsOpenMember};
ghost use Rattle.room_open.specs.declared.standing.StandingMember.TheVariants.{Own};

use crate::channel::{open_channel, take_cursor};
use crate::lists::take_list;
use crate::pipes::enter_pipe;
use crate::standing::StandingMember;
use attrs::{JEntry, Judge};
use bits_ip::OutOfMemory;
use export_lock::Sends;
use import_lock::Phase;
use phase_open::StandingProtocol;
use phase_pipes::laws::each_source_has_one_port;
use room_members::Begun;
use std::alloc::Global;
use table_shared::{Port, TableCursor};

/// The next protocol that enters the room has routes of its own. Of its channel's cursors the one
/// of its table is taken.
fn enter_own<J: Judge + Drop, P: Phase + Sends>(
    alloc: Global,
    played: &P,
    begun: &mut Begun<J, P>,
    held: StandingProtocol<J>,
    ports: Vec<Port>,
    cursors: &mut Vec<Vec<TableCursor>>,
    before: &Vec<Vec<JEntry>>,
) -> Result<(), OutOfMemory>
    requires begun { IsBegun P.terms P.exports P.rules begun.old }
    requires played { begun.old.room.played.value ≡ played.now }
    requires hands { (length begun.old.hands.items ≡ (P.terms played.now).starter + 1)
        × (length begun.old.hands.items ≤ 1024) }
    requires few { length begun.old.room.members.items < 2 ^ 32 }
    requires ports { AreBeside (IsPortOf (length begun.old.room.members.items))
        begun.old.room.tables.items ports.items }
    requires can { (stood : List StoodView)
        × CanEnter J.verdict (P.terms played.now) (P.exports played.now) stood
        begun.old.room.tables.items before.now.items cursors.old.items
        (length begun.old.room.members.items) (Own held) }
    ensures begun { OnOk result (IsBegun P.terms P.exports P.rules begun.new) }
    ensures same { OnOk result ((begun.new.room.played ≡ begun.old.room.played)
        × (begun.new.room.tables.items ≡ begun.old.room.tables.items)
        × (length begun.new.hands.items ≡ length begun.old.hands.items)) }
    ensures added { OnOk result ((member : MemberView J P)
        × (begun.new.room.members.items ≡ begun.old.room.members.items ++ member ∷ [])
        × ((stood : List StoodView)
        → CanEnter J.verdict (P.terms played.now) (P.exports played.now) stood
        begun.old.room.tables.items before.now.items cursors.old.items
        (length begun.old.room.members.items) (Own held)
        → IsOpenMember P.terms P.exports P.rules played.now stood
        (length begun.old.room.members.items) (Own held) member)) }
    ensures cursors { (length cursors.new.items ≡ length cursors.old.items)
        × ((place : ℕ) → (HasNumber (Own held) place → ⊥)
        → slice_get cursors.new.items place ≡ slice_get cursors.old.items place) }
{
    each_source_has_one_port();
    let StandingProtocol {
        table,
        importer,
        channel,
    } = held;
    match channel {
        None => begun.enter_static(alloc, played, table, importer, ports),
        Some(channel) => {
            let cursor = take_cursor(cursors, channel.number as usize, table as usize);
            let part = open_channel(channel, cursor);
            let entries = &before[table as usize];
            begun.enter_neighbour(alloc, played, table, importer, ports, entries, part)
        }
    }
}

/// The next protocol enters the room.
fn enter_next<J: Judge + Drop, P: Phase + Sends>(
    alloc: Global,
    played: &P,
    begun: &mut Begun<J, P>,
    held: StandingMember<J>,
    ports: Vec<Port>,
    cursors: &mut Vec<Vec<TableCursor>>,
    before: &Vec<Vec<JEntry>>,
) -> Result<(), OutOfMemory>
    requires begun { IsBegun P.terms P.exports P.rules begun.old }
    requires played { begun.old.room.played.value ≡ played.now }
    requires rules { P.rules played.now ≡ rules_of (P.terms played.now).setup }
    requires hands { (length begun.old.hands.items ≡ (P.terms played.now).starter + 1)
        × (length begun.old.hands.items ≤ 1024) }
    requires few { length begun.old.room.members.items < 2 ^ 32 }
    requires ports { AreBeside (IsPortOf (length begun.old.room.members.items))
        begun.old.room.tables.items ports.items }
    requires can { (stood : List StoodView)
        × CanEnter J.verdict (P.terms played.now) (P.exports played.now) stood
        begun.old.room.tables.items before.now.items cursors.old.items
        (length begun.old.room.members.items) held }
    ensures begun { OnOk result (IsBegun P.terms P.exports P.rules begun.new) }
    ensures same { OnOk result ((begun.new.room.played ≡ begun.old.room.played)
        × (begun.new.room.tables.items ≡ begun.old.room.tables.items)
        × (length begun.new.hands.items ≡ length begun.old.hands.items)) }
    ensures added { OnOk result ((member : MemberView J P)
        × (begun.new.room.members.items ≡ begun.old.room.members.items ++ member ∷ [])
        × ((stood : List StoodView)
        → CanEnter J.verdict (P.terms played.now) (P.exports played.now) stood
        begun.old.room.tables.items before.now.items cursors.old.items
        (length begun.old.room.members.items) held
        → IsOpenMember P.terms P.exports P.rules played.now stood
        (length begun.old.room.members.items) held member)) }
    ensures cursors { (length cursors.new.items ≡ length cursors.old.items)
        × ((place : ℕ) → (HasNumber held place → ⊥)
        → slice_get cursors.new.items place ≡ slice_get cursors.old.items place) }
{
    match held {
        StandingMember::Own(own) => enter_own(alloc, played, begun, own, ports, cursors, before),
        StandingMember::Pipe(pipe) => enter_pipe(
            alloc, played, begun, pipe, ports, cursors, before,
        ),
    }
}

/// All protocols enter the room. What is left of the cursors is of tables that their channels don't
/// read.
pub fn enter_all<J: Judge + Drop, P: Phase + Sends>(
    alloc: Global,
    played: &P,
    begun: &mut Begun<J, P>,
    members: Vec<StandingMember<J>>,
    ports: Vec<Vec<Port>>,
    cursors: &mut Vec<Vec<TableCursor>>,
    before: &Vec<Vec<JEntry>>,
) -> Result<(), OutOfMemory>
    requires rules { P.rules played.now ≡ rules_of (P.terms played.now).setup }
    requires few { (length members.items ≤ 1024) × (length begun.old.hands.items ≤ 1024) }
    requires can { (stood : List StoodView)
        × CanEnterAll J.verdict (P.terms played.now) (P.exports played.now) stood
        begun.old.room.tables.items before.now.items cursors.old.items ports.items
        members.items }
    requires begun { (stood : List StoodView)
        → AreEntered P.terms P.exports P.rules played.now stood begun.old.room.tables.items []
        begun.old }
    ensures begun { OnOk result ((stood : List StoodView)
        → CanEnterAll J.verdict (P.terms played.now) (P.exports played.now) stood
        begun.old.room.tables.items before.now.items cursors.old.items ports.items
        members.items
        → AreEntered P.terms P.exports P.rules played.now stood begun.old.room.tables.items
        members.items begun.new) }
    ensures cursors { OnOk result (length cursors.new.items ≡ length cursors.old.items) }
{
    let mut ports = ports;
    let mut number: usize = 0;
    for held in members {
        let own = take_list(alloc, &mut ports, number);
        enter_next(alloc, played, begun, held, own, cursors, before)?;
        number += 1;
    }
    Ok(())
}
