//! A turn of a pipe's direction.
ghost use Rattle.std.specs.Prelude.{◌≡◌, false, true, IfErr, IfOk};
ghost use Rattle.jour.specs.Seats.{journal};
ghost use Rattle.export_lock.specs.Feeds.{is_feeding};
ghost use Rattle.export_lock.specs.LaneTurns.{IsHeldLane};
ghost use Rattle.pipe_turns.specs.Inside.{DoesPush, answer_of, did_of, refusal_as};
ghost use Rattle.pipe_turns.specs.Turns.{CanTurn, Does, Fails, KeepsLane};

use attrs::{Judge, Src};
use entry_memo::Memo;
use export_core::{FeedState, PushFault, Pushed};
use export_lock::{ExportState, PipeLane};
use import_lock::OpFault;
use outside_io::Gate;
use std::alloc::Global;
use std::sync::Wait;
use table_shared::Table;

/// What a turn did.
#[derive(Clone, Copy, Debug, PartialEq, Eq, Drop)]
pub enum LaneDid {
    /// It read a part of the table that the direction reads, for the feed that goes on.
    Fed,
    /// It took the next entry of that table.
    Took,
    /// It pushed the first key that was marked into the table that the direction writes.
    Pushed,
    /// The first key that is marked waits until this cursor of the table that is written has read
    /// on.
    Blocked { cursor: u32 },
    /// There was nothing to do.
    Nothing,
}

/// Whether a feed of the direction goes on.
fn is_feeding<J: Judge>(state: &ExportState<J>) -> bool
    ensures { result ≡ is_feeding state.now }
{
    let goes_on = match state.exporter.feed_from() {
        FeedState::Done => false,
        FeedState::From(_) => true,
    };
    state.is_running() & goes_on
}

fn did_by(pushed: Pushed) -> LaneDid
    ensures { result ≡ did_of pushed }
{
    match pushed {
        Pushed::Nothing => LaneDid::Nothing,
        Pushed::Quiet => LaneDid::Pushed,
        Pushed::Sent => LaneDid::Pushed,
    }
}

/// A push that has no room was a turn; its other faults are faults.
fn refused_by(fault: PushFault) -> Result<LaneDid, OpFault>
    ensures { result ≡ refusal_as fault }
{
    match fault {
        PushFault::Blocked { cursor, .. } => Ok(LaneDid::Blocked { cursor }),
        PushFault::Ended { head } => Err(OpFault::Ended { head }),
        PushFault::Memory => Err(OpFault::Memory),
    }
}

fn answered(did: Result<Pushed, PushFault>) -> Result<LaneDid, OpFault>
    ensures { result ≡ answer_of did }
{
    match did {
        Ok(pushed) => Ok(did_by(pushed)),
        Err(fault) => refused_by(fault),
    }
}

/// Pushes the first key that is marked.
fn push<R: Wait, G: Gate, J: Judge>(
    rt: &R,
    gate: &G,
    writes: &Table,
    sources: &[Src],
    lane: PipeLane<J>,
) -> (PipeLane<J>, Result<LaneDid, OpFault>)
    requires held { IsHeldLane J.verdict sources.now lane }
    requires here { journal lane.port ≡ writes.now }
    ensures keeps { KeepsLane J.verdict sources.now lane result.0 }
    ensures did { IfOk result.1 (DoesPush J.verdict sources.now lane result.0) }
    ensures fails { IfErr result.1 (Fails J.verdict sources.now lane result.0) }
    ensures cursor { result.0.state.cursor ≡ lane.state.cursor }
    ensures feed { result.0.state.exporter.feed ≡ lane.state.exporter.feed }
{
    let (lane, did) = lane.push_turn(rt, gate, writes, sources);
    (lane, answered(did))
}

/// Takes the next entry, or pushes the first key that is marked where there is none.
fn take_or_push<R: Wait, G: Gate, J: Judge>(
    alloc: Global,
    rt: &R,
    gate: &G,
    memo: &Memo,
    writes: &Table,
    sources: &[Src],
    mut lane: PipeLane<J>,
) -> (PipeLane<J>, Result<LaneDid, OpFault>)
    requires held { IsHeldLane J.verdict sources.now lane }
    requires here { journal lane.port ≡ writes.now }
    requires fed { is_feeding lane.state ≡ false }
    ensures keeps { KeepsLane J.verdict sources.now lane result.0 }
    ensures did { IfOk result.1 (Does J.verdict sources.now lane result.0) }
    ensures fails { IfErr result.1 (Fails J.verdict sources.now lane result.0) }
{
    let Ok(took) = lane.state.take_turn(alloc, memo) else {
        return (lane, Err(OpFault::Memory));
    };
    if took {
        return (lane, Ok(LaneDid::Took));
    }
    push(rt, gate, writes, sources, lane)
}

/// Reads the next part of the table for the feed that goes on.
fn feed<R: Wait, J: Judge>(
    rt: &R,
    reads: &Table,
    sources: &[Src],
    mut lane: PipeLane<J>,
) -> (PipeLane<J>, Result<LaneDid, OpFault>)
    requires held { IsHeldLane J.verdict sources.now lane }
    requires here { journal lane.state.cursor.0 ≡ reads.now }
    requires feeds { is_feeding lane.state ≡ true }
    ensures keeps { KeepsLane J.verdict sources.now lane result.0 }
    ensures did { IfOk result.1 (Does J.verdict sources.now lane result.0) }
    ensures fails { IfErr result.1 (Fails J.verdict sources.now lane result.0) }
{
    match lane.state.feed_turn(rt, reads, 256) {
        Ok(_) => (lane, Ok(LaneDid::Fed)),
        Err(_) => (lane, Err(OpFault::Memory)),
    }
}

/// A turn of a pipe's direction, and what it did. Where a feed goes on it reads up to 256 nets of
/// the table that it reads. Else it takes the next entry, and where there is none it pushes the
/// first key that is marked into the table that it writes. A direction that is down does nothing,
/// and one that withdraws what stands takes entries alone. A fault is want of memory, or that the
/// table that is written has no position left; what the turn was to do is left for the next.
pub fn turn_lane<R: Wait, G: Gate, J: Judge>(
    alloc: Global,
    rt: &R,
    gate: &G,
    memo: &Memo,
    reads: &Table,
    writes: &Table,
    sources: &[Src],
    lane: PipeLane<J>,
) -> (PipeLane<J>, Result<LaneDid, OpFault>)
    requires can { CanTurn J.verdict reads.now writes.now sources.now lane }
    ensures keeps { KeepsLane J.verdict sources.now lane result.0 }
    ensures did { IfOk result.1 (Does J.verdict sources.now lane result.0) }
    ensures fails { IfErr result.1 (Fails J.verdict sources.now lane result.0) }
{
    if is_feeding(&lane.state) {
        return feed(rt, reads, sources, lane);
    }
    take_or_push(alloc, rt, gate, memo, writes, sources, lane)
}
