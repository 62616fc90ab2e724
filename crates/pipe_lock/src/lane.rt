//! What a pipe's direction does for its mark, once its lock is taken.
ghost use Rattle.std.specs.Prelude.{◌≡◌, ◌≢◌, List, IfOk, OnErr};
ghost use Rattle.core_machine.specs.Rules.{Fall};
ghost use Rattle.core_setup.specs.Protocols.{signal_of};
ghost use Rattle.export_core.specs.declared.exporter.Pushed.TheVariants.{Nothing};
ghost use Rattle.export_core.specs.declared.log.Key.{Key};
ghost use Rattle.export_lock.specs.LaneTurns.{AreSources};
ghost use Rattle.export_lock.specs.Lanes.{IsLane, IsSomeLane, LaneTerms};
ghost use Rattle.export_lock.specs.MarkTurns.{MayMarkLane};
ghost use Rattle.jour.specs.Seats.{own};
ghost use Rattle.pipe_lock.specs.Calls.{HasStamped, IsSameStamp};
ghost use Rattle.pipe_lock.specs.Doors.{FallsBy, IsDoor, MayPass};

use attrs::{Judge, Src};
use bits_ip::OutOfMemory;
use export_core::{PushFault, Pushed};
use export_lock::PipeLane;
use import_core::Mark;
use import_lock::{OpFault, Stamp};
use outside_io::Gate;
use std::sync::Wait;
use table_shared::Table;

/// The direction takes a mark, in the words of its pipe.
fn take_mark<R: Wait, J: Judge>(
    rt: &R,
    reads: &Table,
    lane: &mut PipeLane<J>,
    stamp: &mut Stamp,
    mark: Mark,
) -> Result<(), OutOfMemory>
    requires may { MayMarkLane J.verdict reads.now (signal_of mark) stamp.old lane.old }
    ensures kept { (key : LaneTerms) (done : List Key)
        → IsLane J.verdict done key lane.old → IsSomeLane J.verdict key lane.new }
    ensures same { IsSameStamp stamp.old stamp.new }
    ensures marked { IfOk result (λ _.
        HasStamped reads.now (signal_of mark) stamp.old stamp.new) }
    ensures refused { OnErr result (own stamp.new.1 ≡ own stamp.old.1) }
{
    lane.mark_turn(rt, reads, stamp, mark)
}

/// Goes down where a turn of a flush found nothing left to withdraw, and tells whether it did.
fn end_flush<R: Wait, J: Judge>(
    rt: &R,
    reads: &Table,
    lane: PipeLane<J>,
    stamp: &mut Stamp,
    pushed: Pushed,
) -> (PipeLane<J>, Result<bool, PushFault>)
    requires may { pushed ≡ Nothing → MayMarkLane J.verdict reads.now Fall stamp.old lane }
    ensures kept { (key : LaneTerms) → IsSomeLane J.verdict key lane
        → IsSomeLane J.verdict key result.0 }
    ensures same { IsSameStamp stamp.old stamp.new }
    ensures falls { IfOk result.1 (λ fell. FallsBy fell reads.now stamp.old stamp.new) }
    ensures refused { OnErr result.1 (own stamp.new.1 ≡ own stamp.old.1) }
{
    let mut lane = lane;
    match pushed {
        Pushed::Nothing => match take_mark(rt, reads, &mut lane, stamp, Mark::Down) {
            Ok(()) => (lane, Ok(true)),
            Err(_) => (lane, Err(PushFault::Memory)),
        },
        Pushed::Quiet => (lane, Ok(false)),
        Pushed::Sent => (lane, Ok(false)),
    }
}

/// Withdraws the first of what stands still, or goes down where nothing does, and tells whether it
/// went down. That a direction is down already, for which this answers `Memory`, never comes: the
/// signal fits.
pub(crate) fn fall_turn<R: Wait, G: Gate, J: Judge>(
    rt: &R,
    gate: &G,
    reads: &Table,
    writes: &Table,
    sources: &[Src],
    lane: PipeLane<J>,
    stamp: &mut Stamp,
) -> (PipeLane<J>, Result<bool, PushFault>)
    requires may { (key : LaneTerms) × IsSomeLane J.verdict key lane
        × IsDoor key reads.now writes.now sources.now
        × MayPass key Fall stamp.old }
    ensures kept { (key : LaneTerms) → AreSources key sources.now
        → IsSomeLane J.verdict key lane → IsSomeLane J.verdict key result.0 }
    ensures same { IsSameStamp stamp.old stamp.new }
    ensures falls { IfOk result.1 (λ fell. FallsBy fell reads.now stamp.old stamp.new) }
    ensures refused { OnErr result.1 (own stamp.new.1 ≡ own stamp.old.1) }
{
    if !lane.state.cursor.is_started() {
        return (lane, Err(PushFault::Memory));
    }
    let (lane, did) = lane.flush_turn(rt, gate, writes, sources);
    match did {
        Ok(pushed) => end_flush(rt, reads, lane, stamp, pushed),
        Err(fault) => (lane, Err(fault)),
    }
}

/// Takes a mark that isn't a down. That a flush was left undone, for which this answers `Memory`,
/// never comes: the pipe's lock has a fault then, and no operation is done.
pub(crate) fn other_turn<R: Wait, J: Judge>(
    rt: &R,
    reads: &Table,
    lane: &mut PipeLane<J>,
    stamp: &mut Stamp,
    mark: Mark,
) -> Result<(), OpFault>
    requires may { (key : LaneTerms) × IsSomeLane J.verdict key lane.old
        × (key.exports.table ≡ reads.now)
        × (key.exports.marks.1.start ≡ 0)
        × MayPass key (signal_of mark) stamp.old }
    requires other { signal_of mark ≢ Fall }
    ensures kept { (key : LaneTerms)
        → IsSomeLane J.verdict key lane.old → IsSomeLane J.verdict key lane.new }
    ensures same { IsSameStamp stamp.old stamp.new }
    ensures marked { IfOk result (λ _.
        HasStamped reads.now (signal_of mark) stamp.old stamp.new) }
    ensures refused { OnErr result (own stamp.new.1 ≡ own stamp.old.1) }
{
    if lane.state.exporter.is_flushing() {
        return Err(OpFault::Memory);
    }
    match take_mark(rt, reads, lane, stamp, mark) {
        Ok(()) => Ok(()),
        Err(_) => Err(OpFault::Memory),
    }
}
