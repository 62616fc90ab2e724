//! A table of IPv4 nets with two ports and one cursor.
ghost use Rattle.std.specs.Prelude.{◌≡◌, ◌<◌, ◌≤◌, ◌^◌, [], ◌∷◌, false, IfOk, IfSome, vec_len};
ghost use Rattle.bits_ip.specs.Address.{family_of};
ghost use Rattle.jour.specs.Seats.{journal, number_of};
ghost use Rattle.table_shared.specs.Opening.{lists_of};
ghost use Rattle.table_shared_tests.specs.Changes.{AreOf, AreClosed, IsOfSource, IsOfTwo, two_sources};

use crate::routes::{change_of, learnt_change};
use attrs::{Change, Chunk, JEntry, Select};
use bits_ip::{Family, OutOfMemory, Prefix};
use jour_rule::buf::Buf;
use outside_io::{Gate, OpenGate};
use rib::Rib;
use std::alloc::Global;
use std::sync::Wait;
use table_shared::{
    Done, Phase, Port, Table, TableCursor, TablePass, UpdateFault, View, read_record,
};

/// A table of IPv4 nets with a port for the source 0 and one for the source 1, and one cursor.
#[derive(Drop)]
pub struct Bench {
    table: Table,
    first: Port,
    second: Port,
    cursor: TableCursor,
    pass: TablePass,
    started: bool,
    ghost first_here: { journal first ≡ table },
    ghost second_here: { journal second ≡ table },
    ghost cursor_here: { journal cursor.0 ≡ table },
    ghost pass_here: { journal pass ≡ table },
    ghost started_is: { cursor.1 ≡ started },
    ghost numbers: { (number_of first.1.role ≡ 0) × (number_of second.1.role ≡ 1) },
    ghost opening: { IsOfTwo table.1.opening },
}

/// Why a change wasn't made, or a test found no memory for it.
#[derive(Clone, Copy, Debug, PartialEq, Eq, Drop)]
pub enum Refused {
    Table(UpdateFault),
    Memory,
}

fn one_source(alloc: Global, num: u32) -> Result<Vec<u32>, OutOfMemory>
    ensures { IfOk result (λ sources. sources.items ≡ num ∷ []) }
{
    let mut sources = Vec::new(alloc);
    sources.push(num)?;
    Ok(sources)
}

pub(crate) fn two_sources(alloc: Global) -> Result<Vec<Vec<u32>>, OutOfMemory>
    ensures all { IfOk result (λ ports. lists_of ports.items ≡ two_sources) }
    ensures two { IfOk result (λ ports. vec_len ports ≡ 2) }
{
    let mut ports = Vec::new(alloc);
    let first = one_source(alloc, 0)?;
    let second = one_source(alloc, 1)?;
    ports.push(first)?;
    ports.push(second)?;
    Ok(ports)
}

/// The last of some ports.
pub(crate) fn last_port(table: &Table, ports: &mut Vec<Port>) -> Option<Port>
    requires { AreOf table.now ports.old.items }
    ensures ports { AreOf table.now ports.new.items }
    ensures last { IfSome result (λ port. journal port ≡ table.now) }
{
    let _ = table;
    ports.pop()
}

/// The last of some closed cursors.
pub(crate) fn last_cursor(table: &Table, cursors: &mut Vec<TableCursor>) -> Option<TableCursor>
    requires { AreClosed table.now cursors.old.items }
    ensures cursors { AreClosed table.now cursors.new.items }
    ensures here { IfSome result (λ cursor. journal cursor.0 ≡ table.now) }
    ensures closed { IfSome result (λ cursor. cursor.1 ≡ false) }
{
    let _ = table;
    cursors.pop()
}

/// Enters a change of the port's source.
pub(crate) fn enter<R: Wait, G: Gate>(
    rt: &R,
    gate: &G,
    table: &Table,
    port: &mut Port,
    num: u32,
    change: &Change,
) -> Result<Done, Refused>
    requires here { journal port.old ≡ table.now }
    requires port { (number_of port.old.1.role ≡ num) × (num < 2) }
    requires table { IsOfTwo table.now.1.opening }
    requires change { IsOfSource num change.now }
    ensures { (journal port.new ≡ journal port.old)
        × (number_of port.new.1.role ≡ number_of port.old.1.role) }
{
    match table.update(rt, gate, port, change) {
        Ok(done) => Ok(done),
        Err(fault) => Err(Refused::Table(fault)),
    }
}

/// Takes the next entry, and answers its position.
fn take_next(cursor: &mut TableCursor) -> Option<u64>
    ensures { (journal cursor.new.0 ≡ journal cursor.old.0)
        × (cursor.new.1 ≡ cursor.old.1) }
{
    let mut words = Buf::new();
    let at = cursor.next(&mut words)?;
    cursor.advance();
    Some(at)
}

impl Bench {
    /// A table without routes, whose cursor is closed; none if a port or the cursor isn't there.
    pub fn open(alloc: Global, cells: u32, start: u64) -> Result<Option<Bench>, OutOfMemory>
        requires { (0 < cells) × (cells ≤ 4096) × (start < 2 ^ 63) }
    {
        let sources = two_sources(alloc)?;
        let rows = Rib::make(alloc, Family::V4);
        let (table, mut ports, mut cursors, pass) = Table::make(
            alloc,
            Family::V4,
            cells,
            start,
            1,
            sources,
            rows,
        )?;
        let Some(second) = last_port(&table, &mut ports) else {
            return Ok(None);
        };
        let Some(first) = last_port(&table, &mut ports) else {
            return Ok(None);
        };
        let Some(cursor) = last_cursor(&table, &mut cursors) else {
            return Ok(None);
        };
        if first.number() != 0 || second.number() != 1 {
            return Ok(None);
        }
        Ok(Some(Bench {
            table,
            first,
            second,
            cursor,
            pass,
            started: false,
        }))
    }

    /// The source 0 announces the net.
    pub fn first<R: Wait>(
        &mut self,
        rt: &R,
        alloc: Global,
        net: &Prefix,
        pref: u32,
    ) -> Result<Done, Refused>
        requires { family_of net.now.addr ≡ Family.V4 }
    {
        self.first_past(rt, &OpenGate, alloc, net, pref)
    }

    /// The source 0 announces the net, and the gate is passed behind an entry.
    pub fn first_past<R: Wait, G: Gate>(
        &mut self,
        rt: &R,
        gate: &G,
        alloc: Global,
        net: &Prefix,
        pref: u32,
    ) -> Result<Done, Refused>
        requires { family_of net.now.addr ≡ Family.V4 }
    {
        let Ok(change) = change_of(alloc, net, 0, pref) else {
            return Err(Refused::Memory);
        };
        enter(rt, gate, &self.table, &mut self.first, 0, &change)
    }

    /// The source 1 announces the net.
    pub fn second<R: Wait>(
        &mut self,
        rt: &R,
        alloc: Global,
        net: &Prefix,
        pref: u32,
    ) -> Result<Done, Refused>
        requires { family_of net.now.addr ≡ Family.V4 }
    {
        let Ok(change) = change_of(alloc, net, 1, pref) else {
            return Err(Refused::Memory);
        };
        enter(rt, &OpenGate, &self.table, &mut self.second, 1, &change)
    }

    /// The source 0 announces the net as a BGP neighbour does.
    pub fn learn<R: Wait>(
        &mut self,
        rt: &R,
        alloc: Global,
        net: &Prefix,
        med: u32,
    ) -> Result<Done, Refused>
        requires { family_of net.now.addr ≡ Family.V4 }
    {
        let Ok(change) = learnt_change(alloc, net, 0, med) else {
            return Err(Refused::Memory);
        };
        enter(rt, &OpenGate, &self.table, &mut self.first, 0, &change)
    }

    /// Starts the cursor, and answers where it stands. None if it is started already.
    pub fn start<R: Wait>(&mut self, rt: &R) -> Option<u64> {
        if self.started {
            return None;
        }
        let at = self.table.start_cursor(rt, &mut self.cursor);
        self.started = true;
        Some(at)
    }

    /// Starts the cursor and tells the first port, which then has seen as much.
    pub fn start_with_port<R: Wait>(&mut self, rt: &R) -> Option<(u64, u64)> {
        if self.started {
            return None;
        }
        let at = self.table.start(rt, &mut self.cursor, &mut self.first);
        self.started = true;
        Some((at, self.first.seen()))
    }

    /// Starts the cursor where it stands, and answers where. None if it is started already.
    pub fn start_here(&mut self) -> Option<u64> {
        if self.started {
            return None;
        }
        self.cursor.start();
        self.started = true;
        Some(self.cursor.position())
    }

    /// Takes the next entry, and answers its position.
    pub fn take(&mut self) -> Option<u64> {
        take_next(&mut self.cursor)
    }

    /// Takes the next entry, and answers its position and the record that it says.
    pub fn take_record(&mut self, alloc: Global) -> Result<Option<(u64, JEntry)>, OutOfMemory> {
        let mut words = Buf::new();
        let Some(at) = self.cursor.next(&mut words) else {
            return Ok(None);
        };
        let said = read_record(alloc, &self.cursor, &words)?;
        self.cursor.advance();
        Ok(Some((at, said)))
    }

    /// The cursor skips what the first port has seen. Answers where it stands, and none if it is
    /// started.
    pub fn skip(&mut self) -> Result<Option<u64>, OutOfMemory> {
        if self.started {
            return Ok(None);
        }
        let pass = self.first.pass()?;
        Ok(Some(self.cursor.skip(pass)))
    }

    /// The pass learns what the second port has seen. Answers how far it has seen then.
    pub fn share(&mut self) -> u64 {
        self.second.share(&mut self.pass);
        self.pass.seen()
    }

    /// The second port meets the pass. Answers what it has seen then.
    pub fn meet(&mut self) -> u64 {
        self.second.meet(&mut self.pass);
        self.second.seen()
    }

    pub fn snapshot<R: Wait>(&mut self, rt: &R, pick: &Select) -> Result<View, OutOfMemory> {
        self.table.snapshot(rt, &mut self.pass, pick)
    }

    /// A part of the table, and none if the cursor is closed.
    pub fn feed<R: Wait>(
        &mut self,
        rt: &R,
        from: Option<&Prefix>,
        max: u32,
    ) -> Result<Option<Chunk>, OutOfMemory>
        requires { 1 ≤ max }
    {
        if !self.started {
            return Ok(None);
        }
        let chunk = self.table.feed(rt, &mut self.cursor, from, max)?;
        Ok(Some(chunk))
    }

    /// Closes the table and tells the cursor, which then takes up to three entries.
    /// Answers the head that the cursor knows once it is told, and what it took.
    pub fn take_closed<R: Wait>(self, rt: &R) -> (u64, [Option<u64>; 3]) {
        let Bench {
            table,
            mut cursor,
            ..
        } = self;
        let mut closing = table.close(rt);
        closing.tell_cursor(&mut cursor);
        let head = cursor.known();
        let taken = [
            take_next(&mut cursor),
            take_next(&mut cursor),
            take_next(&mut cursor),
        ];
        (head, taken)
    }

    /// Ends the phase.
    pub fn close<R: Wait>(self, rt: &R, alloc: Global) -> Result<Phase, OutOfMemory> {
        let Bench {
            table,
            first,
            second,
            cursor,
            pass,
            started: _,
        } = self;
        let mut ports = Vec::with_capacity(alloc, 2)?;
        ports.push(first)?;
        ports.push(second)?;
        let mut passes = Vec::with_capacity(alloc, 1)?;
        passes.push(pass)?;
        let mut cursors = Vec::with_capacity(alloc, 1)?;
        cursors.push(cursor)?;
        Ok(table.close_phase(rt, ports, passes, cursors))
    }
}
