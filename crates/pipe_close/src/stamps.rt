//! The stamp of a pipe's direction ends.
ghost use Rattle.std.specs.Prelude.{◌≡◌, List, IfOk};
ghost use Rattle.export_lock.specs.Lanes.{IsSomeLane, LaneTerms};
ghost use Rattle.import_core.specs.declared.operation.Op.{Op};
ghost use Rattle.jour_rule.specs.Laws.{AreOfMakers};
ghost use Rattle.jour.specs.Seats.{front, journal};
ghost use Rattle.pipe_close.specs.Left.{IsStampTold, IsLaneLeft};
ghost use Rattle.pipe_lock.specs.Kept.{IsMarked};
ghost use Rattle.pipe_lock.specs.Terms.{DirectionTerms, PipeTerms};

use attrs::Judge;
use export_lock::PipeLane;
use import_lock::{Marks, OpFault, Stamp};

/// Ends a stamp, which has then seen all marks.
fn end_stamp(marks: &mut Marks, mut stamp: Stamp)
    requires here { journal stamp ≡ journal marks.old }
    ensures same { (journal marks.new ≡ journal marks.old)
        × (front marks.new.1 ≡ front marks.old.1) }
    ensures told { IsStampTold (front marks.old.1) stamp }
    ensures lawful { AreOfMakers marks.old.1.seen.terms.opening (front marks.old.1) }
{
    marks.lawful();
    marks.tell_maker(&mut stamp);
    marks.retire(stamp);
}

/// Ends the stamp of a direction. That the direction has yet to withdraw, for which this answers
/// `Memory`, never comes: the pipe's lock has a fault then, and its pipe isn't closed.
pub(crate) fn end_direction<J: Judge + Drop>(
    lane: PipeLane<J>,
    stamp: Stamp,
) -> Result<PipeLane<J>, OpFault>
    requires { journal stamp ≡ journal lane.state.marks }
    ensures { IfOk result (λ left. (pipe : PipeTerms) (direction : DirectionTerms)
        (key : LaneTerms) (ops : List Op) → IsMarked pipe direction ops stamp
        → IsSomeLane J.verdict key lane → IsLaneLeft J.verdict pipe direction key ops left) }
{
    let mut lane = lane;
    if lane.state.exporter.is_flushing() {
        return Err(OpFault::Memory);
    }
    end_stamp(&mut lane.state.marks, stamp);
    Ok(lane)
}
