//! How a pipe's direction comes to rest.
ghost use Rattle.std.specs.Prelude.{◌≡◌, IfErr, IfOk};
ghost use Rattle.jour.specs.Seats.{known};
ghost use Rattle.pipe_turns.specs.Inside.{settled_by};
ghost use Rattle.pipe_turns.specs.Turns.{CanTurn, KeepsLane, Settles};

use crate::turns::{LaneDid, turn_lane};
use attrs::{Judge, Src};
use entry_memo::Memo;
use export_lock::PipeLane;
use import_lock::OpFault;
use outside_io::Gate;
use std::alloc::Global;
use std::sync::Wait;
use table_shared::{Table, TableCursor};

/// Why turns came to an end.
#[derive(Clone, Copy, Debug, PartialEq, Eq, Drop)]
pub enum Settled {
    /// There was nothing to do, up to this head of the table that the direction reads.
    Rested { head: u64 },
    /// The first key that is marked waits until this cursor of the table that is written has read
    /// on.
    Blocked { cursor: u32 },
}

/// Whether a turn was the last.
fn ends(cursor: &TableCursor, did: LaneDid) -> Option<Settled>
    ensures { result ≡ settled_by (known cursor.now.0.1) did }
{
    match did {
        LaneDid::Fed => None,
        LaneDid::Took => None,
        LaneDid::Pushed => None,
        LaneDid::Blocked { cursor } => Some(Settled::Blocked { cursor }),
        LaneDid::Nothing => Some(Settled::Rested {
            head: cursor.known(),
        }),
    }
}

/// Has a pipe's direction do turns until there is nothing to do, or the table that it writes has no
/// room. Where there is nothing to do it is down, or withdraws what stands, or has read and sent
/// all up to the head, which is answered. The head is the one that its cursor loaded last, so it is
/// the table's once nobody changes that any more. At a fault what was done until then stays.
pub fn settle_lane<R: Wait, G: Gate, J: Judge>(
    alloc: Global,
    rt: &R,
    gate: &G,
    reads: &Table,
    writes: &Table,
    sources: &[Src],
    mut lane: PipeLane<J>,
) -> (PipeLane<J>, Result<Settled, OpFault>)
    requires can { CanTurn J.verdict reads.now writes.now sources.now lane }
    ensures keeps { KeepsLane J.verdict sources.now lane result.0 }
    ensures settles { IfOk result.1 (Settles result.0) }
{
    let memo = Memo::none(alloc);
    for _ in rt.forever() {
        let (next, did) = turn_lane(alloc, rt, gate, &memo, reads, writes, sources, lane);
        lane = next;
        match did {
            Ok(did) => {
                if let Some(settled) = ends(&lane.state.cursor, did) {
                    return (lane, Ok(settled));
                }
            }
            Err(fault) => return (lane, Err(fault)),
        }
    }
    unreachable!()
}
