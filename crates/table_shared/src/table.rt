//! The table: a lock round its desk.
ghost use Rattle.std.specs.Prelude.{◌≡◌, ◌≤◌, ◌<◌, ◌+◌, ◌^◌, [], false, length, option_copied, true, vec_len, IfErr, IfOk, OnErr};
ghost use Rattle.std.specs.List.{AllByRecursion};
ghost use mathlib.Core.List.{IsPrefix};
ghost use Rattle.attrs.specs.Table.{AreRows};
ghost use Rattle.rib.specs.Rib.{AreOfFamily};
ghost use Rattle.jour_rule.specs.Moves.{position_of};
ghost use Rattle.jour.specs.Seats.{AreCursors, AreMakers, AreUnread, front, head_of, heads, journal, known, number_of, own};
ghost use Rattle.table_shared.specs.Opening.{lists_of};
ghost use Rattle.table_shared.specs.Answers.{IsAboveAll, IsAboveKnown, IsDone, IsFault, MayMake};
ghost use Rattle.table_shared.specs.Phases.{IsClosed};
ghost use Rattle.table_shared.specs.Views.{IsChunk, IsTold, IsView};

use crate::answers::{Done, UpdateFault};
use crate::close::{Closing, Phase, hear_cursors, hear_passes, retire_all};
use crate::desk::Desk;
use crate::law::{Opening, RecordLaw, TableCursor, TableMaker, TablePass, TableWriter};
use crate::port::Port;
use crate::view::View;
use attrs::{Change, Chunk, Select};
use bits_ip::{Family, OutOfMemory, Prefix};
use jour::make::make;
use keyed_lock::{Keeps, Lock};
use outside_io::Gate;
use rib::Rib;
use std::alloc::Global;
use std::marker::Model;
use std::snapshot::Snapshot;
use std::sync::Wait;

/// The desk is that of the journal of the writer that the lock's key remembers.
struct OfJournal;

impl Keeps<Desk, Snapshot<TableWriter>> for OfJournal {
    ghost use Rattle.jour.specs.Seats.{journal};
    ghost use Rattle.table_shared.specs.Kept.{IsKept};

    ghost keeps = { λ key desk. IsKept (journal key.value) desk };
}

/// A table that threads share. Contracts see it as the name of its journal: the journal's words,
/// and its terms, which have what the table began with.
#[derive(Drop)]
pub struct Table {
    lock: Lock<Desk, Snapshot<TableWriter>, OfJournal>,
}

impl Model for Table {
    ghost use Rattle.atomic_table.specs.Seated.{TableId};
    ghost use Rattle.jour_rule.specs.declared.views.Terms.{Terms};
    ghost use Rattle.jour.specs.Seats.{journal};
    ghost use Rattle.table_shared.specs.Opening.{TableOpening};

    ghost Value = { TableId × Terms TableOpening };

    ghost view = { λ table. journal table.lock.1.value };
}

impl Table {
    /// A table with these rows, and a journal without entries that begins at `start`. It has a port
    /// for each list of sources, and its cursors are closed; both are numbered from 0 on. The pass
    /// has seen no entry.
    pub fn make(
        alloc: Global,
        family: Family,
        cells: u32,
        start: u64,
        cursors: u32,
        ports: Vec<Vec<u32>>,
        rows: Rib,
    ) -> Result<(Table, Vec<Port>, Vec<TableCursor>, TablePass), OutOfMemory>
        requires cells { (0 < cells) × (cells ≤ 4096) }
        requires cursors { cursors ≤ 512 }
        requires ports { vec_len ports ≤ 1024 }
        requires start { start < 2 ^ 63 }
        requires rows { (rows.family ≡ family) × AreRows rows.rows
            × AreOfFamily family rows.rows }
        ensures terms { IfOk result (λ made. made.0.1 ≡ record {
          start = start;
          cells = cells;
          cursors = cursors;
          makers = vec_len ports;
          opening = record { family = family; rows = rows.rows; ports = lists_of ports.items };
        }) }
        ensures ports { IfOk result
            (λ made. (vec_len made.1 ≡ vec_len ports) × AreMakers made.0 made.1.items) }
        ensures cursors { IfOk result
            (λ made. (vec_len made.2 ≡ cursors) × AreCursors made.0 start made.2.items) }
        ensures unread { IfOk result (λ made. AreUnread made.2.items) }
        ensures pass { IfOk result
            (λ made. (journal made.3 ≡ made.0) × (front made.3.1 ≡ [])) }
    {
        let opening = Opening {
            family,
            rows: Snapshot::of(&rows),
            ports: Snapshot::of(&ports),
        };
        let makers = ports.len() as u32;
        let (writer, cursors, makers, pass) = make::<Opening, RecordLaw>(
            alloc, cells, cursors, makers, start, opening,
        )?;
        let key = Snapshot::of(&writer);
        let desk = Desk {
            writer,
            rib: rows,
            start,
            records: Vec::new(alloc),
            ports: Vec::new(alloc),
        };
        let ports = ports_of(alloc, makers)?;
        let lock = Lock::new(alloc, desk, &key)?;
        Ok((Table { lock }, ports, cursors, pass))
    }

    /// Makes a change of the port's, where it differs from what stands for its key: `Same` comes
    /// where it doesn't. Of a real change `Memory` may come, at which nothing has changed; `Ended`
    /// where no position is left; else `Full`, where a cursor has yet to read the oldest entry that
    /// there is a cell for: it is the lowest such, and the port has seen the list to the head, as
    /// behind `Same` and `Ended`. An entry stands above all that the port had seen and each head
    /// that it had known. Behind an entry the gate is passed at place 1, under the lock.
    pub fn update<R: Wait, G: Gate>(
        &self,
        rt: &R,
        gate: &G,
        port: &mut Port,
        change: &Change,
    ) -> Result<Done, UpdateFault>
        requires here { journal port.old ≡ self.now }
        requires change { MayMake port.old.1 change.now }
        ensures here { (journal port.new ≡ journal port.old)
            × (number_of port.new.1.role ≡ number_of port.old.1.role) }
        ensures done { IfOk result (IsDone change.now port.old.1 port.new.1) }
        ensures fault { IfErr result (IsFault change.now port.old.1 port.new.1) }
        ensures above { IfOk result (IsAboveAll port.old.1) }
        ensures known { IfOk result (IsAboveKnown port.old.1 port.new.1) }
        ensures least { known port.old.1 ≤ known port.new.1 }
        ensures prefix { IsPrefix (front port.old.1) (front port.new.1) }
    {
        let (held, mut desk) = self.lock.lock(rt);
        let done = desk.update(&mut port.maker, change);
        pass_behind(gate, &done);
        self.lock.unlock(held, desk);
        done
    }

    /// The rows that are asked for, as they stand at the head, which the pass loads.
    pub fn snapshot<R: Wait>(
        &self,
        rt: &R,
        pass: &mut TablePass,
        pick: &Select,
    ) -> Result<View, OutOfMemory>
        requires here { journal pass.old ≡ self.now }
        ensures here { journal pass.new ≡ journal pass.old }
        ensures view { IfOk result (IsView pick.now pass.old.1 pass.new.1) }
        ensures refused { OnErr result (pass.new ≡ pass.old) }
        ensures least { (known pass.old.1 ≤ known pass.new.1)
            × (head_of pass.old.1 ≤ head_of pass.new.1) }
        ensures prefix { IsPrefix (front pass.old.1) (front pass.new.1) }
    {
        let (held, mut desk) = self.lock.lock(rt);
        let view = desk.snapshot(pass, pick);
        self.lock.unlock(held, desk);
        view
    }

    /// The first rows from a net on, itself included, at most so many, as they stand at the head,
    /// which the cursor loads. `upto` is the net behind them.
    pub fn feed<R: Wait>(
        &self,
        rt: &R,
        cursor: &mut TableCursor,
        from: Option<&Prefix>,
        max: u32,
    ) -> Result<Chunk, OutOfMemory>
        requires here { journal cursor.old.0 ≡ self.now }
        requires started { cursor.old.1 ≡ true }
        requires some { 1 ≤ max }
        ensures here { (journal cursor.new.0 ≡ journal cursor.old.0)
            × (cursor.new.0.1.role ≡ cursor.old.0.1.role)
            × (cursor.new.1 ≡ true) }
        ensures chunk { IfOk result
            (IsChunk (option_copied from.entry) max cursor.old.0.1 cursor.new.0.1) }
        ensures refused { OnErr result (cursor.new ≡ cursor.old) }
        ensures least { known cursor.old.0.1 ≤ known cursor.new.0.1 }
        ensures prefix { IsPrefix (front cursor.old.0.1) (front cursor.new.0.1) }
    {
        let (held, mut desk) = self.lock.lock(rt);
        let chunk = desk.feed(cursor, from, max);
        self.lock.unlock(held, desk);
        chunk
    }

    /// Starts the cursor: it then stands at the head, which it loads, and which is answered.
    pub fn start_cursor<R: Wait>(&self, rt: &R, cursor: &mut TableCursor) -> u64
        requires here { journal cursor.old.0 ≡ self.now }
        requires closed { cursor.old.1 ≡ false }
        ensures here { (journal cursor.new.0 ≡ journal cursor.old.0)
            × (number_of cursor.new.0.1.role ≡ number_of cursor.old.0.1.role) }
        ensures told { IsTold result cursor.old.0.1 cursor.new.0.1 }
        ensures started { (position_of cursor.new.0.1.role ≡ result) × (cursor.new.1 ≡ true) }
        ensures least { known cursor.old.0.1 ≤ result }
        ensures prefix { IsPrefix (front cursor.old.0.1) (front cursor.new.0.1) }
    {
        let (held, mut desk) = self.lock.lock(rt);
        let head = desk.writer.start_cursor(cursor);
        self.lock.unlock(held, desk);
        head
    }

    /// Starts the cursor as `start_cursor` does, and the port has then seen as much: what it enters
    /// from now on stands above the head that is answered.
    pub fn start<R: Wait>(&self, rt: &R, cursor: &mut TableCursor, port: &mut Port) -> u64
        requires here { (journal cursor.old.0 ≡ self.now) × (journal port.old ≡ self.now) }
        requires closed { cursor.old.1 ≡ false }
        ensures here { (journal cursor.new.0 ≡ journal cursor.old.0)
            × (number_of cursor.new.0.1.role ≡ number_of cursor.old.0.1.role)
            × (journal port.new ≡ journal port.old)
            × (number_of port.new.1.role ≡ number_of port.old.1.role) }
        ensures told { IsTold result cursor.old.0.1 cursor.new.0.1 }
        ensures started { (position_of cursor.new.0.1.role ≡ result) × (cursor.new.1 ≡ true) }
        ensures both { (front port.new.1 ≡ front cursor.new.0.1)
            × (result ≡ head_of port.new.1) }
        ensures receipts { own port.new.1 ≡ own port.old.1 }
        ensures least { (known cursor.old.0.1 ≤ result) × (known port.old.1 ≤ result)
            × (head_of port.old.1 ≤ result) }
        ensures prefix { IsPrefix (front cursor.old.0.1) (front cursor.new.0.1)
            × IsPrefix (front port.old.1) (front port.new.1) }
    {
        let (held, mut desk) = self.lock.lock(rt);
        let head = desk.start(cursor, &mut port.maker);
        self.lock.unlock(held, desk);
        head
    }

    /// Ends the phase, which nobody else works at any more. `Closing` then takes what ports, passes
    /// and cursors know.
    pub fn close<R: Wait>(self, rt: &R) -> Closing
        ensures { journal result ≡ self }
    {
        let Table { lock } = self;
        let (_held, desk) = lock.lock(rt);
        Closing::of(desk)
    }

    /// Ends the phase, and answers what it has made.
    pub fn close_phase<R: Wait>(
        self,
        rt: &R,
        ports: Vec<Port>,
        passes: Vec<TablePass>,
        cursors: Vec<TableCursor>,
    ) -> Phase
        requires ports { AllByRecursion (λ port. journal port ≡ self) ports.items }
        requires passes { AllByRecursion (λ pass. journal pass ≡ self) passes.items }
        requires cursors { AllByRecursion (λ cursor. journal cursor.0 ≡ self) cursors.items }
        ensures { IsClosed self.1 ports.items passes.items cursors.items result }
    {
        let mut closing = self.close(rt);
        retire_all(&mut closing, ports);
        hear_passes(&mut closing, passes);
        hear_cursors(&mut closing, cursors);
        closing.phase()
    }
}

/// The makers as ports.
fn ports_of(alloc: Global, makers: Vec<TableMaker>) -> Result<Vec<Port>, OutOfMemory>
    ensures { IfOk result (λ ports. ports.items ≡ makers.items) }
{
    let mut ports = Vec::with_capacity(alloc, makers.len())?;
    for maker in makers {
        ports.push(Port { maker })?;
    }
    Ok(ports)
}

/// Passes the gate behind an entry.
fn pass_behind<G: Gate>(gate: &G, done: &Result<Done, UpdateFault>) {
    if let Ok(Done::At(_)) = done {
        gate.pass(1);
    }
}
