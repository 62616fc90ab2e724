//! A pipe goes on.
ghost use Rattle.std.specs.Prelude.{IfOk};
ghost use Rattle.pipe_rest.specs.Later.{IsLaterPipe, PipeCanSettle};
ghost use Rattle.pipe_turns.specs.Turns.{CanTurn, KeepsLane};

use crate::passing::pass_closed;
use attrs::{Judge, Src};
use export_lock::PipeLane;
use import_lock::OpFault;
use outside_io::Gate;
use pipe_close::PipeLeft;
use pipe_turns::settle_lane;
use std::alloc::Global;
use std::sync::Wait;
use table_shared::Table;

/// Has a direction do turns until there is nothing to do, or the table that it writes has no room.
/// The cursor of one that is down moves past the entries that there are.
fn settle_direction<R: Wait, G: Gate, J: Judge + Drop>(
    alloc: Global,
    rt: &R,
    gate: &G,
    reads: &Table,
    writes: &Table,
    sources: &[Src],
    lane: PipeLane<J>,
) -> Result<PipeLane<J>, OpFault>
    requires { CanTurn J.verdict reads.now writes.now sources.now lane }
    ensures { IfOk result (KeepsLane J.verdict sources.now lane) }
{
    let (mut lane, settled) = settle_lane(alloc, rt, gate, reads, writes, sources, lane);
    match settled {
        Ok(_) => {
            pass_closed(&mut lane.state);
            Ok(lane)
        }
        Err(fault) => Err(fault),
    }
}

/// The same of both directions of a pipe, out first.
fn settle_directions<R: Wait, G: Gate, J: Judge + Drop>(
    alloc: Global,
    rt: &R,
    gate: &G,
    here: &Table,
    there: &Table,
    sources: &[Src],
    pipe: PipeLeft<J>,
) -> Result<PipeLeft<J>, OpFault>
    requires out { CanTurn J.verdict here.now there.now sources.now pipe.out }
    requires back { CanTurn J.verdict there.now here.now sources.now pipe.back }
    ensures { IfOk result (IsLaterPipe J.verdict sources.now pipe) }
{
    let PipeLeft {
        primary,
        peer,
        up,
        ops,
        out,
        back,
    } = pipe;
    let out = settle_direction(alloc, rt, gate, here, there, sources, out)?;
    let back = settle_direction(alloc, rt, gate, there, here, sources, back)?;
    Ok(PipeLeft {
        primary,
        peer,
        up,
        ops,
        out,
        back,
    })
}

/// The same of a pipe whose tables are among these.
pub(crate) fn settle_pipe<R: Wait, G: Gate, J: Judge + Drop>(
    alloc: Global,
    rt: &R,
    gate: &G,
    tables: &Vec<Table>,
    sources: &[Src],
    pipe: PipeLeft<J>,
) -> Result<PipeLeft<J>, OpFault>
    requires { PipeCanSettle J.verdict tables.now.items sources.now pipe }
    ensures { IfOk result (IsLaterPipe J.verdict sources.now pipe) }
{
    let here = &tables[pipe.primary as usize];
    let there = &tables[pipe.peer as usize];
    settle_directions(alloc, rt, gate, here, there, sources, pipe)
}
