//! Turns of pipes' directions under their locks, while the actors act.
ghost use Rattle.std.specs.Prelude.{◌≡◌, ℕ, Some, slice_get};
ghost use Rattle.export_lock.specs.Locks.{lane_terms_of};
ghost use Rattle.pipe_lock.specs.Doors.{IsDoor};
ghost use Rattle.room_members.specs.Members.{IsRoom};
ghost use Rattle.room_members.specs.declared.member.Member.TheVariants.{Pipe};

use crate::channels::Channels;
use attrs::{Judge, Src};
use entry_memo::Memo;
use export_lock::Sends;
use import_lock::{Helper, OpFault, Phase};
use outside_io::Gate;
use phase_pipes::PipeSession;
use phase_pipes::laws::directions_know_their_sources;
use pipe_lock::{LaneDoor, LaneLock};
use pipe_turns::serve_or_help;
use room_members::Room;
use std::alloc::Global;
use std::sync::Wait;
use table_shared::Table;

/// Has a direction do some turns under its lock, until there is nothing to do. Where the table that
/// it writes has no room, the helper has the cursor read on that lags, once the lock is free. Tells
/// whether there was anything to do.
fn serve_lane<'a, R: Wait, G: Gate, H: Helper, J: Judge + Drop, P: Sends>(
    alloc: Global,
    rt: &R,
    gate: &'a G,
    helper: &'a H,
    memo: &Memo,
    lock: &'a LaneLock<J, P>,
    reads: &'a Table,
    writes: &'a Table,
    sources: &'a [Src],
) -> Result<bool, OpFault>
    requires door { IsDoor (lane_terms_of P.exports P.rules lock.now.1) reads.now writes.now
        sources.now }
{
    let door = LaneDoor {
        lock,
        gate,
        helper,
        reads,
        writes,
        sources,
    };
    let busy = serve_or_help(alloc, rt, memo, &door);
    let LaneDoor {
        lock: _lock,
        gate: _gate,
        helper: _helper,
        reads: _reads,
        writes: _writes,
        sources: _sources,
    } = door;
    busy
}

/// The same of the direction out of a pipe of the room.
pub(crate) fn serve_out<R: Wait, G: Gate, H: Helper, J: Judge + Drop, P: Phase + Sends>(
    alloc: Global,
    rt: &R,
    gate: &G,
    helper: &H,
    room: &Room<J, P>,
    channels: &Channels,
    pipe: &PipeSession<J, P>,
) -> Result<bool, OpFault>
    requires room { IsRoom P.terms P.exports P.rules room.now }
    requires there { (number : ℕ) × (slice_get room.now.members.items number ≡ Some (Pipe pipe.now)) }
{
    directions_know_their_sources();
    let primary = &room.tables[pipe.primary as usize];
    let peer = &room.tables[pipe.peer as usize];
    let sources = room.sources.as_slice();
    let memo = channels.memo(pipe.primary as usize);
    serve_lane(
        alloc, rt, gate, helper, memo, &pipe.out, primary, peer, sources,
    )
}

/// The same of the direction back.
pub(crate) fn serve_back<R: Wait, G: Gate, H: Helper, J: Judge + Drop, P: Phase + Sends>(
    alloc: Global,
    rt: &R,
    gate: &G,
    helper: &H,
    room: &Room<J, P>,
    channels: &Channels,
    pipe: &PipeSession<J, P>,
) -> Result<bool, OpFault>
    requires room { IsRoom P.terms P.exports P.rules room.now }
    requires there { (number : ℕ) × (slice_get room.now.members.items number ≡ Some (Pipe pipe.now)) }
{
    directions_know_their_sources();
    let primary = &room.tables[pipe.primary as usize];
    let peer = &room.tables[pipe.peer as usize];
    let sources = room.sources.as_slice();
    let memo = channels.memo(pipe.peer as usize);
    serve_lane(
        alloc, rt, gate, helper, memo, &pipe.back, peer, primary, sources,
    )
}
