//! Turns of a channel under its lock, while the actors act.
ghost use Rattle.std.specs.Prelude.{◌≡◌, false};
ghost use Rattle.jour.specs.Seats.{journal};
ghost use Rattle.export_lock.specs.Kept.{GoesOn, IsHeld, IsOfKind};
ghost use Rattle.export_lock.specs.Locks.{terms_of};

use crate::turns::{Did, turn_channel};
use attrs::Judge;
use bits_ip::OutOfMemory;
use entry_memo::Memo;
use export_lock::{ExportState, Sends};
use outside_io::Gate;
use phase_room::ExportLock;
use std::alloc::Global;
use std::sync::Wait;
use table_shared::Table;

/// How many turns a channel has at once. Who waits for its lock waits no longer than these.
const TURNS: u32 = 64;

/// A turn of a channel. Tells whether there was anything to do. Behind an entry that was taken, the
/// gate is passed at place 2.
fn turn_once<R: Wait, G: Gate, J: Judge>(
    alloc: Global,
    rt: &R,
    gate: &G,
    memo: &Memo,
    table: &Table,
    state: &mut ExportState<J>,
) -> Result<bool, OutOfMemory>
    requires kind { IsOfKind J.verdict false state.old }
    requires here { journal state.old.cursor.0 ≡ table.now }
    ensures goes { GoesOn J.verdict state.old state.new }
{
    match turn_channel(alloc, rt, memo, table, state)? {
        Did::Took => {
            gate.pass(2);
            Ok(true)
        }
        Did::Nothing => Ok(false),
        Did::Fed => Ok(true),
        Did::Pushed => Ok(true),
    }
}

/// Some turns of a channel, until there is nothing to do. Tells whether there was anything.
fn turn_often<R: Wait, G: Gate, J: Judge>(
    alloc: Global,
    rt: &R,
    gate: &G,
    memo: &Memo,
    table: &Table,
    state: &mut ExportState<J>,
) -> Result<bool, OutOfMemory>
    requires kind { IsOfKind J.verdict false state.old }
    requires here { journal state.old.cursor.0 ≡ table.now }
    ensures goes { GoesOn J.verdict state.old state.new }
{
    for turn in 0..TURNS {
        if !turn_once(alloc, rt, gate, memo, table, state)? {
            return Ok(turn > 0);
        }
    }
    Ok(true)
}

/// Has a channel do up to 64 turns under its lock, until there is nothing to do. Tells whether
/// there was anything. Where memory is refused, the channel is as it was before the turn that
/// wanted it.
pub fn serve_channel<R: Wait, G: Gate, J: Judge + Drop, P: Sends>(
    alloc: Global,
    rt: &R,
    gate: &G,
    memo: &Memo,
    table: &Table,
    channel: &ExportLock<J, P>,
) -> Result<bool, OutOfMemory>
    requires { (terms_of P.exports channel.now.1).table ≡ table.now }
{
    let (held, mut state) = channel.lock(rt);
    let busy = turn_often(alloc, rt, gate, memo, table, &mut state);
    channel.unlock(held, state);
    busy
}

/// Takes up to 64 entries, until there is none. Tells whether there was any. Behind each of them
/// the gate is passed at place 2.
fn take_often<G: Gate, J: Judge>(
    alloc: Global,
    gate: &G,
    memo: &Memo,
    state: &mut ExportState<J>,
) -> Result<bool, OutOfMemory>
    requires held { IsHeld J.verdict state.old }
    ensures goes { GoesOn J.verdict state.old state.new }
{
    for turn in 0..TURNS {
        if !state.take_turn(alloc, memo)? {
            return Ok(turn > 0);
        }
        gate.pass(2);
    }
    Ok(true)
}

/// Has a channel take up to 64 entries under its lock, without a send. Tells whether there was any.
/// Where memory is refused, the entry that wanted it is left for the next call.
pub fn read_channel<R: Wait, G: Gate, J: Judge + Drop, P: Sends>(
    alloc: Global,
    rt: &R,
    gate: &G,
    memo: &Memo,
    channel: &ExportLock<J, P>,
) -> Result<bool, OutOfMemory> {
    let (held, mut state) = channel.lock(rt);
    let busy = take_often(alloc, gate, memo, &mut state);
    channel.unlock(held, state);
    busy
}
