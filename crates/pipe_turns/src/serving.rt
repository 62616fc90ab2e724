//! Turns of a pipe's direction under its lock, while the actors act.
ghost use Rattle.export_lock.specs.Locks.{lane_terms_of};
ghost use Rattle.pipe_lock.specs.Doors.{IsDoor};
ghost use Rattle.pipe_turns.specs.Turns.{CanTurn, KeepsLane};

use crate::turns::{LaneDid, turn_lane};
use attrs::{Judge, Src};
use entry_memo::Memo;
use export_lock::{PipeLane, Sends};
use import_lock::{Helper, OpFault};
use outside_io::Gate;
use pipe_lock::LaneDoor;
use std::alloc::Global;
use std::sync::Wait;
use table_shared::Table;

/// How some turns came to an end.
#[derive(Clone, Copy, Debug, PartialEq, Eq, Drop)]
pub enum Served {
    /// There was something to do.
    Busy,
    /// There was nothing to do.
    Idle,
    /// The first key that is marked waits until this cursor of the table that is written has read
    /// on.
    Blocked { cursor: u32 },
}

/// Whether a turn was the last, behind others or not. Behind an entry that was taken the gate is
/// passed at place 2.
fn ends<G: Gate>(gate: &G, behind: bool, did: LaneDid) -> Option<Served> {
    match did {
        LaneDid::Took => {
            gate.pass(2);
            None
        }
        LaneDid::Fed => None,
        LaneDid::Pushed => None,
        LaneDid::Blocked { cursor } => Some(Served::Blocked { cursor }),
        LaneDid::Nothing if behind => Some(Served::Busy),
        LaneDid::Nothing => Some(Served::Idle),
    }
}

/// Up to 64 turns, until there is nothing to do or no room.
fn some_turns<R: Wait, G: Gate, J: Judge>(
    alloc: Global,
    rt: &R,
    gate: &G,
    memo: &Memo,
    reads: &Table,
    writes: &Table,
    sources: &[Src],
    mut lane: PipeLane<J>,
) -> (PipeLane<J>, Result<Served, OpFault>)
    requires can { CanTurn J.verdict reads.now writes.now sources.now lane }
    ensures keeps { KeepsLane J.verdict sources.now lane result.0 }
{
    for turn in 0..64 {
        let (next, did) = turn_lane(alloc, rt, gate, memo, reads, writes, sources, lane);
        lane = next;
        match did {
            Ok(did) => {
                if let Some(served) = ends(gate, turn > 0, did) {
                    return (lane, Ok(served));
                }
            }
            Err(fault) => return (lane, Err(fault)),
        }
    }
    (lane, Ok(Served::Busy))
}

/// Has a pipe's direction do up to 64 turns under its lock, until there is nothing to do or the
/// table that it writes has no room. The lock is free again behind them: who has the cursor read on
/// that is answered, holds no lock of a direction.
pub fn serve_lane<R: Wait, J: Judge + Drop, P: Sends, G: Gate, H: Helper>(
    alloc: Global,
    rt: &R,
    memo: &Memo,
    door: &LaneDoor<'_, J, P, G, H>,
) -> Result<Served, OpFault>
    requires door { IsDoor (lane_terms_of P.exports P.rules door.now.lock.now.1)
        door.now.reads.now door.now.writes.now door.now.sources.now }
{
    let (held, lane) = door.lock.lock(rt);
    let (lane, served) = some_turns(
        alloc,
        rt,
        door.gate,
        memo,
        door.reads,
        door.writes,
        door.sources,
        lane,
    );
    door.lock.unlock(held, lane);
    served
}

/// The same, and where there was no room the door's helper has the cursor read on that lags, once
/// the lock is free. Tells whether there was anything to do.
pub fn serve_or_help<R: Wait, J: Judge + Drop, P: Sends, G: Gate, H: Helper>(
    alloc: Global,
    rt: &R,
    memo: &Memo,
    door: &LaneDoor<'_, J, P, G, H>,
) -> Result<bool, OpFault>
    requires door { IsDoor (lane_terms_of P.exports P.rules door.now.lock.now.1)
        door.now.reads.now door.now.writes.now door.now.sources.now }
{
    match serve_lane(alloc, rt, memo, door)? {
        Served::Busy => Ok(true),
        Served::Idle => Ok(false),
        Served::Blocked { cursor } => {
            door.helper.help(rt, cursor);
            Ok(true)
        }
    }
}
