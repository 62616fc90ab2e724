//! A channel as a phase begins.
ghost use Rattle.std.specs.Prelude.{◌≡◌, ◌<◌, Bool, Some, false, length, slice_get};
ghost use Rattle.std.specs.declared.alloc.Global.{Global};
ghost use Rattle.std.specs.declared.vec.Vec.{Vec};
ghost use Rattle.room_open.specs.Laid.{CursorView, IsOpenDirection, IsOpenPart};
ghost use Rattle.room_open.specs.Lists.{AreOthers};

use attrs::Judge;
use phase_open::StandingChannel;
use phase_pipes::DirectionPart;
use phase_room::ChannelPart;
use std::snapshot::Snapshot;
use table_shared::{Port, TableCursor};

/// The channel's cursor of the table, which is taken from its list.
pub fn take_cursor(cursors: &mut Vec<Vec<TableCursor>>, channel: usize, table: usize) -> TableCursor
    requires { (list : Vec CursorView Global)
        × (slice_get cursors.old.items channel ≡ Some list) × (table < length list.items) }
    ensures taken { (list : Vec CursorView Global)
        → slice_get cursors.old.items channel ≡ Some list
        → slice_get list.items table ≡ Some result }
    ensures others { AreOthers channel cursors.old.items cursors.new.items }
{
    cursors[channel].swap_remove(table)
}

/// The cursor, which is started where the channel is up.
fn start_if(cursor: TableCursor, is_up: bool) -> TableCursor
    requires { cursor.1 ≡ false }
    ensures { (result.0 ≡ cursor.0) × (result.1 ≡ is_up) }
{
    let mut cursor = cursor;
    if is_up {
        cursor.start();
    }
    cursor
}

/// The part of a channel to a neighbour, with its cursor of the table that it reads.
pub fn open_channel<J: Judge>(held: StandingChannel<J>, cursor: TableCursor) -> ChannelPart<J>
    requires { cursor.1 ≡ false }
    ensures { IsOpenPart held cursor result }
{
    let StandingChannel { number, exporter } = held;
    let cursor = start_if(cursor, exporter.is_up());
    let log = Snapshot::of(exporter.log());
    ChannelPart {
        number,
        exporter,
        log,
        cursor,
    }
}

/// The part of a pipe's direction, with its cursor of the table that it reads and its port of the
/// one that it writes.
pub fn open_direction<J: Judge>(
    held: StandingChannel<J>,
    cursor: TableCursor,
    port: Port,
) -> DirectionPart<J>
    requires { cursor.1 ≡ false }
    ensures { IsOpenDirection held cursor port result }
{
    let StandingChannel { number, exporter } = held;
    let cursor = start_if(cursor, exporter.is_up());
    let log = Snapshot::of(exporter.log());
    DirectionPart {
        number,
        exporter,
        log,
        cursor,
        port,
    }
}
