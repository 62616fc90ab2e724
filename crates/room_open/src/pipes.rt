//! Pipes as a phase begins.
ghost use Rattle.std.specs.Prelude.{◌≡◌, ◌+◌, ◌≤◌, ◌<◌, ◌^◌, ◌++◌, ◌∷◌, ℕ, [], List, Some, length, slice_get, vec_len, OnOk};
ghost use Rattle.core_setup.specs.Protocols.{rules_of};
ghost use Rattle.phase_legal.specs.Shown.{AreBeside};
ghost use Rattle.phase_open.specs.declared.standing.StandingTable.{StandingTable as StoodView};
ghost use Rattle.phase_room.specs.Opened.{IsPortOf};
ghost use Rattle.room_members.specs.Begun.{IsBegun};
ghost use Rattle.room_members.specs.declared.member.Member.{Member as MemberView};
ghost use Rattle.room_open.specs.Laid.{CanEnter, HasNumber};
ghost use Rattle.room_open.specs.Opening.{IsOpenMember};
ghost use Rattle.room_open.specs.declared.standing.StandingMember.TheVariants.{Pipe};

use crate::channel::{open_direction, take_cursor};
use crate::standing::StandingPipe;
use attrs::{JEntry, Judge};
use bits_ip::OutOfMemory;
use export_lock::Sends;
use import_lock::Phase;
use phase_pipes::PipePart;
use phase_pipes::laws::each_source_has_one_port;
use room_members::Begun;
use std::alloc::Global;
use table_shared::{Port, TableCursor};

/// The items of two places.
fn two_of<T: Drop>(items: Vec<T>, one: usize, other: usize) -> (T, T)
    requires { (one < vec_len items) × (other < vec_len items) × (one ≡ other → ⊥) }
    ensures { (slice_get items.items one ≡ Some result.0)
        × (slice_get items.items other ≡ Some result.1) }
{
    let mut items = items;
    if one < other {
        let later = items.swap_remove(other);
        (items.swap_remove(one), later)
    } else {
        let later = items.swap_remove(one);
        (later, items.swap_remove(other))
    }
}

/// The next protocol that enters the room is a pipe. Its direction out has the port of the peer
/// table, and the one back that of the primary table. Of each direction's cursors the one of the
/// table that it reads is taken.
pub fn enter_pipe<J: Judge + Drop, P: Phase + Sends>(
    alloc: Global,
    played: &P,
    begun: &mut Begun<J, P>,
    held: StandingPipe<J>,
    ports: Vec<Port>,
    cursors: &mut Vec<Vec<TableCursor>>,
    before: &Vec<Vec<JEntry>>,
) -> Result<(), OutOfMemory>
    requires begun { IsBegun P.terms P.exports P.rules begun.old }
    requires played { begun.old.room.played.value ≡ played.now }
    requires rules { P.rules played.now ≡ rules_of (P.terms played.now).setup }
    requires hands { (length begun.old.hands.items ≡ (P.terms played.now).starter + 1)
        × (length begun.old.hands.items ≤ 1024) }
    requires few { length begun.old.room.members.items < 2 ^ 32 }
    requires ports { AreBeside (IsPortOf (length begun.old.room.members.items))
        begun.old.room.tables.items ports.items }
    requires can { (stood : List StoodView)
        × CanEnter J.verdict (P.terms played.now) (P.exports played.now) stood
        begun.old.room.tables.items before.now.items cursors.old.items
        (length begun.old.room.members.items) (Pipe held) }
    ensures begun { OnOk result (IsBegun P.terms P.exports P.rules begun.new) }
    ensures same { OnOk result ((begun.new.room.played ≡ begun.old.room.played)
        × (begun.new.room.tables.items ≡ begun.old.room.tables.items)
        × (length begun.new.hands.items ≡ length begun.old.hands.items)) }
    ensures added { OnOk result ((member : MemberView J P)
        × (begun.new.room.members.items ≡ begun.old.room.members.items ++ member ∷ [])
        × ((stood : List StoodView)
        → CanEnter J.verdict (P.terms played.now) (P.exports played.now) stood
        begun.old.room.tables.items before.now.items cursors.old.items
        (length begun.old.room.members.items) (Pipe held)
        → IsOpenMember P.terms P.exports P.rules played.now stood
        (length begun.old.room.members.items) (Pipe held) member)) }
    ensures cursors { (length cursors.new.items ≡ length cursors.old.items)
        × ((place : ℕ) → (HasNumber (Pipe held) place → ⊥)
        → slice_get cursors.new.items place ≡ slice_get cursors.old.items place) }
{
    each_source_has_one_port();
    let StandingPipe {
        primary,
        peer,
        up,
        out,
        back,
    } = held;
    let number = begun.room.members.len() as u32;
    let part = PipePart {
        number,
        primary,
        peer,
        up,
    };
    let (there, here) = two_of(ports, peer as usize, primary as usize);
    let out_cursor = take_cursor(cursors, out.number as usize, primary as usize);
    let back_cursor = take_cursor(cursors, back.number as usize, peer as usize);
    let out = open_direction(out, out_cursor, there);
    let back = open_direction(back, back_cursor, here);
    let read = &before[primary as usize];
    let written = &before[peer as usize];
    begun.enter_pipe(alloc, played, part, read, written, out, back)
}
