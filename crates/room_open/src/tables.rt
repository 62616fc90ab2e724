//! Tables as a phase begins.
ghost use Rattle.std.specs.Prelude.{◌≡◌, ◌≤◌, ◌<◌, ◌^◌, ◌++◌, ◌∷◌, [], length, vec_len, IfOk, OnOk};
ghost use Rattle.attrs.specs.Table.{AreRows};
ghost use Rattle.rib.specs.Rib.{AreOfFamily};
ghost use Rattle.core_setup.specs.Setup.{Setup};
ghost use Rattle.jour.specs.Seats.{AreCursors, AreMakers, AreUnread, journal};
ghost use Rattle.phase_legal.specs.Shown.{AreBeside};
ghost use Rattle.phase_open.specs.Standing.{IsStandingTable, table_stood};
ghost use Rattle.phase_pipes.specs.Ports.{IsJoined};
ghost use Rattle.room_open.specs.Laid.{AreTablesOpen, CanOpen, IsTableMore};
ghost use Rattle.room_open.specs.Sources.{AreCounts};

use crate::sources::source_lists;
use crate::standing::StandingMember;
use attrs::{JEntry, Judge};
use bits_ip::{Family, OutOfMemory};
use phase_open::StandingTable;
use phase_room::{Opened, split_pass};
use rib::Rib;
use std::alloc::Global;
use table_shared::{Port, Table, TableCursor, TablePass};

/// The table of a number, with what stands in it and its entries before the phase: a port for each
/// protocol, with the sources that it brings to the table, and a cursor for each channel. Both are
/// numbered from 0 on, and all cursors are closed.
fn begin_table<J: Judge>(
    alloc: Global,
    number: u32,
    cells: u32,
    cursors: u32,
    members: &[StandingMember<J>],
    family: Family,
    rows: Rib,
    before: &Vec<JEntry>,
) -> Result<(Table, Vec<Port>, Vec<TableCursor>, TablePass), OutOfMemory>
    requires cells { (0 < cells) × (cells ≤ 4096) }
    requires cursors { cursors ≤ 512 }
    requires members { length members.now ≤ 1024 }
    requires rows { (rows.family ≡ family) × AreRows rows.rows × AreOfFamily family rows.rows }
    ensures terms { IfOk result (λ made. (setup : Setup) → AreCounts setup cursors members.now
        → number < length setup.tables → IsJoined setup number record {
          family = family;
          rows = rows.rows;
          before = before.now.items;
        } made.0.1) }
    ensures start { IfOk result (λ made. made.0.1.start ≡ length before.now.items) }
    ensures ports { IfOk result (λ made. (vec_len made.1 ≡ length members.now)
        × AreMakers made.0 made.1.items) }
    ensures cursors { IfOk result (λ made. (vec_len made.2 ≡ cursors)
        × AreCursors made.0 (length before.now.items) made.2.items) }
    ensures unread { IfOk result (λ made. AreUnread made.2.items) }
    ensures pass { IfOk result (λ made. journal made.3 ≡ made.0) }
{
    let ports = source_lists(alloc, number, members)?;
    Table::make(
        alloc,
        family,
        cells,
        before.len() as u64,
        cursors,
        ports,
        rows,
    )
}

/// One table more, which begins with what stands in it.
fn add_table<J: Judge>(
    alloc: Global,
    cells: u32,
    members: &[StandingMember<J>],
    family: Family,
    rows: Rib,
    entries: &Vec<JEntry>,
    opened: &mut Opened,
) -> Result<(), OutOfMemory>
    requires cells { (0 < cells) × (cells ≤ 4096) }
    requires few { (length members.now ≤ 1024) × (length opened.old.cursors.items ≤ 512)
        × (length opened.old.tables.items < 2 ^ 32) }
    requires can { (setup : Setup) × CanOpen setup members.now opened.old }
    requires rows { (rows.family ≡ family) × AreRows rows.rows × AreOfFamily family rows.rows }
    ensures { OnOk result ((setup : Setup) → CanOpen setup members.now opened.old
        → length opened.old.tables.items < length setup.tables
        → IsTableMore setup members.now
        record { family = family; rows = rows.rows; before = entries.now.items }
        opened.old opened.new) }
{
    let number = opened.tables.len() as u32;
    let cursors = opened.cursors.len() as u32;
    let (table, ports, cursors, mut pass) = begin_table(
        alloc, number, cells, cursors, members, family, rows, entries,
    )?;
    let passes = split_pass(alloc, &mut pass, opened.passes.len())?;
    opened.add(table, ports, cursors, passes)?;
    Ok(())
}

/// The next table, whose entries before the phase are kept.
fn open_next<J: Judge>(
    alloc: Global,
    cells: u32,
    members: &[StandingMember<J>],
    stood: StandingTable,
    opened: &mut Opened,
    before: &mut Vec<Vec<JEntry>>,
) -> Result<(), OutOfMemory>
    requires cells { (0 < cells) × (cells ≤ 4096) }
    requires few { (length members.now ≤ 1024) × (length opened.old.cursors.items ≤ 512)
        × (length opened.old.tables.items < 2 ^ 32) }
    requires can { (setup : Setup) × CanOpen setup members.now opened.old }
    requires rows { (stood.rows.family ≡ stood.family) × AreRows stood.rows.rows
        × AreOfFamily stood.family stood.rows.rows }
    ensures opened { OnOk result ((setup : Setup) → CanOpen setup members.now opened.old
        → length opened.old.tables.items < length setup.tables
        → IsTableMore setup members.now (table_stood stood) opened.old opened.new) }
    ensures before { OnOk result (before.new.items ≡ before.old.items ++ stood.before ∷ []) }
{
    let StandingTable {
        family,
        rows,
        before: entries,
    } = stood;
    add_table(alloc, cells, members, family, rows, &entries, opened)?;
    before.push(entries)?;
    Ok(())
}

/// All tables, with what protocols, channels and actors are given of them. By table its entries
/// before the phase are kept.
pub fn open_tables<J: Judge>(
    alloc: Global,
    cells: u32,
    members: &[StandingMember<J>],
    channels: u32,
    actors: usize,
    tables: Vec<StandingTable>,
    before: &mut Vec<Vec<JEntry>>,
) -> Result<Opened, OutOfMemory>
    requires cells { (0 < cells) × (cells ≤ 4096) }
    requires few { (length members.now ≤ 1024) × (channels ≤ 512)
        × (length tables.items < 2 ^ 32) }
    requires stands { (setup : Setup) × AreCounts setup channels members.now
        × AreBeside IsStandingTable setup.tables tables.items }
    requires none { before.old.items ≡ [] }
    ensures { IfOk result (λ opened. (setup : Setup) → AreCounts setup channels members.now
        → length tables.items ≡ length setup.tables
        → AreTablesOpen setup members.now actors tables.items opened before.new.items) }
{
    let mut opened = Opened::none(alloc, members.len(), channels as usize, actors)?;
    for stood in tables {
        open_next(alloc, cells, members, stood, &mut opened, before)?;
    }
    Ok(opened)
}
