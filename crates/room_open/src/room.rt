//! How a phase begins.
ghost use Rattle.std.specs.Prelude.{◌≡◌, ◌+◌, ◌≤◌, ◌<◌, ◌^◌, List, length, IfOk};
ghost use Rattle.core_setup.specs.Channels.{channels as channels_of};
ghost use Rattle.core_setup.specs.Protocols.{rules_of};
ghost use Rattle.phase_open.specs.declared.standing.StandingTable.{StandingTable as StoodView};
ghost use Rattle.phase_pipes.specs.Sources.{AreSourcesOf};
ghost use Rattle.phase_room.specs.Opened.{AreOfEach, IsPassOf};
ghost use Rattle.room_open.specs.Laid.{AreEntered, AreLaid, CanEnterAll};
ghost use Rattle.room_open.specs.Opening.{IsOpening};
ghost use Rattle.room_open.specs.Sources.{ArePorts};
ghost use Rattle.room_open.specs.Standing.{Stands};
ghost use Rattle.room_open.specs.declared.standing.StandingMember.{StandingMember as HeldView};

use crate::actors::seat_all;
use crate::lists::take_list;
use crate::members::enter_all;
use crate::opening::Opening;
use crate::standing::{Standing, StandingMember};
use crate::tables::open_tables;
use attrs::{JEntry, Judge, Src};
use bits_ip::OutOfMemory;
use export_lock::Sends;
use import_lock::Phase;
use phase_room::Opened;
use room_members::Begun;
use std::alloc::Global;
use table_shared::{TableCursor, TablePass};

/// The room of those who have entered, and the seats of actors and of who does the starts.
fn seat_in<J: Judge + Drop, P: Phase + Sends>(
    alloc: Global,
    played: &P,
    actors: u32,
    begun: Begun<J, P>,
    mut passes: Vec<Vec<TablePass>>,
    spares: Vec<Vec<TableCursor>>,
    before: Vec<Vec<JEntry>>,
) -> Result<Opening<J, P>, OutOfMemory>
    requires actors { (actors ≡ (P.terms played.now).starter)
        × (length passes.items ≡ actors + 1) }
    requires passes { AreOfEach IsPassOf begun.room.tables.items passes.items }
    requires spares { length spares.items ≡ length (channels_of (P.terms played.now).setup) }
    requires entered { (stood : List StoodView) × (members : List (HeldView J))
        × AreLaid (P.terms played.now) stood begun.room.tables.items before.items
        × AreEntered P.terms P.exports P.rules played.now stood begun.room.tables.items members
        begun }
    ensures { IfOk result (λ opening. (stood : List StoodView) (members : List (HeldView J))
        → AreLaid (P.terms played.now) stood begun.room.tables.items before.items
        → ArePorts (P.terms played.now).setup members
        → AreEntered P.terms P.exports P.rules played.now stood begun.room.tables.items members
        begun → IsOpening P.terms P.exports P.rules played.now stood members opening) }
{
    let Begun { room, mut hands } = begun;
    let seated = seat_all(alloc, actors, &mut hands, &mut passes)?;
    let starters = take_list(alloc, &mut hands, actors as usize);
    let shown = take_list(alloc, &mut passes, actors as usize);
    Ok(Opening {
        room,
        actors: seated,
        starters,
        passes: shown,
        spares,
        before,
    })
}

/// Protocols enter a room of these tables, and actors are given their seats in it.
fn fill<J: Judge + Drop, P: Phase + Sends>(
    alloc: Global,
    played: &P,
    sources: Vec<Src>,
    actors: u32,
    opened: Opened,
    members: Vec<StandingMember<J>>,
    before: Vec<Vec<JEntry>>,
) -> Result<Opening<J, P>, OutOfMemory>
    requires sources { AreSourcesOf (P.terms played.now).setup sources.items }
    requires rules { P.rules played.now ≡ rules_of (P.terms played.now).setup }
    requires actors { (actors ≡ (P.terms played.now).starter) × (actors + 1 ≤ 1024)
        × (length opened.passes.items ≡ actors + 1) }
    requires passes { AreOfEach IsPassOf opened.tables.items opened.passes.items }
    requires few { length members.items ≤ 1024 }
    requires can { (stood : List StoodView)
        × CanEnterAll J.verdict (P.terms played.now) (P.exports played.now) stood
        opened.tables.items before.items opened.cursors.items opened.ports.items
        members.items }
    ensures { IfOk result (λ opening. (stood : List StoodView)
        → CanEnterAll J.verdict (P.terms played.now) (P.exports played.now) stood
        opened.tables.items before.items opened.cursors.items opened.ports.items
        members.items
        → IsOpening P.terms P.exports P.rules played.now stood members.items opening) }
{
    let Opened {
        tables,
        ports,
        mut cursors,
        passes,
    } = opened;
    let mut begun = Begun::over(alloc, played, sources, tables, actors as usize + 1)?;
    enter_all(
        alloc,
        played,
        &mut begun,
        members,
        ports,
        &mut cursors,
        &before,
    )?;
    seat_in(alloc, played, actors, begun, passes, cursors, before)
}

/// The room of a phase, over what stands as it begins, with the seats of so many actors and of who
/// does the starts. Each table has a journal of so many cells, and a cursor for each channel. The
/// sources are those of what is played.
pub fn open_room<J: Judge + Drop, P: Phase + Sends>(
    alloc: Global,
    played: &P,
    sources: Vec<Src>,
    cells: u32,
    actors: u32,
    channels: u32,
    standing: Standing<J>,
) -> Result<Opening<J, P>, OutOfMemory>
    requires stands { Stands J.verdict (P.terms played.now) (P.exports played.now) standing }
    requires sources { AreSourcesOf (P.terms played.now).setup sources.items }
    requires rules { P.rules played.now ≡ rules_of (P.terms played.now).setup }
    requires cells { (0 < cells) × (cells ≤ 4096) }
    requires channels { (channels ≡ length (channels_of (P.terms played.now).setup))
        × (channels ≤ 512) }
    requires actors { (actors ≡ (P.terms played.now).starter) × (actors + 1 ≤ 1024) }
    requires few { (length standing.members.items ≤ 1024)
        × (length standing.tables.items < 2 ^ 32) }
    ensures { IfOk result (IsOpening P.terms P.exports P.rules played.now standing.tables.items
        standing.members.items) }
{
    let Standing { tables, members } = standing;
    let mut before = Vec::new(alloc);
    let seats = actors as usize + 1;
    let opened = open_tables(alloc, cells, &members, channels, seats, tables, &mut before)?;
    fill(alloc, played, sources, actors, opened, members, before)
}
