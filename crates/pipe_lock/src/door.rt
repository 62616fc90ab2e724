//! A pipe's direction behind its lock, which its pipe's operations have come up and go down.
ghost use Rattle.std.specs.Prelude.{◌≡◌, ◌≢◌, true, IfOk, OnErr};
ghost use Rattle.core_machine.specs.Rules.{Fall};
ghost use Rattle.core_setup.specs.Protocols.{signal_of};
ghost use Rattle.export_lock.specs.Locks.{lane_terms_of};
ghost use Rattle.jour.specs.Seats.{own};
ghost use Rattle.pipe_lock.specs.Calls.{HasStamped, IsSameStamp};
ghost use Rattle.pipe_lock.specs.Doors.{FallsBy, IsDoor, MayPass};

use crate::lane::{fall_turn, other_turn};
use crate::mark::Direction;
use attrs::{Judge, Src};
use export_core::PushFault;
use export_lock::{LaneKey, Lanes, PipeLane, Sends};
use import_core::Mark;
use import_lock::{Helper, OpFault, Stamp};
use keyed_lock::Lock;
use outside_io::Gate;
use std::sync::Wait;
use table_shared::Table;

/// The lock of a pipe's direction.
pub type LaneLock<J, P> = Lock<PipeLane<J>, LaneKey<P>, Lanes<J, P>>;

/// A pipe's direction behind its lock, with all that its turns want: the tables that it reads and
/// writes, the sources of what is played, by number, and who has cursors of the table that it
/// writes read on.
pub struct LaneDoor<'a, J: Judge + Drop, P: Sends, G, H> {
    pub lock: &'a LaneLock<J, P>,
    pub gate: &'a G,
    pub helper: &'a H,
    pub reads: &'a Table,
    pub writes: &'a Table,
    pub sources: &'a [Src],
}

impl<'a, J: Judge + Drop, P: Sends, G: Gate, H: Helper> LaneDoor<'a, J, P, G, H> {
    /// One turn of going down, under one hold of the lock; where the table that is written has no
    /// room, the helper is told the cursor that has yet to read, once the lock is free.
    fn fall_step<R: Wait>(&self, rt: &R, stamp: &mut Stamp) -> Result<bool, OpFault>
        requires door { IsDoor (lane_terms_of P.exports P.rules self.now.lock.now.1)
            self.now.reads.now self.now.writes.now self.now.sources.now }
        requires may { MayPass (lane_terms_of P.exports P.rules self.now.lock.now.1)
            Fall stamp.old }
        ensures same { IsSameStamp stamp.old stamp.new }
        ensures falls { IfOk result (λ fell.
            FallsBy fell self.now.reads.now stamp.old stamp.new) }
        ensures refused { OnErr result (own stamp.new.1 ≡ own stamp.old.1) }
    {
        let (held, lane) = self.lock.lock(rt);
        let (lane, did) = fall_turn(
            rt,
            self.gate,
            self.reads,
            self.writes,
            self.sources,
            lane,
            stamp,
        );
        self.lock.unlock(held, lane);
        match did {
            Ok(fell) => Ok(fell),
            Err(PushFault::Blocked { cursor, .. }) => {
                self.helper.help(rt, cursor);
                Ok(false)
            }
            Err(PushFault::Ended { head }) => Err(OpFault::Ended { head }),
            Err(PushFault::Memory) => Err(OpFault::Memory),
        }
    }

    /// Goes down: withdraws all that stands, and then takes the mark.
    fn fall<R: Wait>(&self, rt: &R, stamp: &mut Stamp) -> Result<(), OpFault>
        requires door { IsDoor (lane_terms_of P.exports P.rules self.now.lock.now.1)
            self.now.reads.now self.now.writes.now self.now.sources.now }
        requires may { MayPass (lane_terms_of P.exports P.rules self.now.lock.now.1)
            Fall stamp.old }
        ensures same { IsSameStamp stamp.old stamp.new }
        ensures marked { IfOk result (λ _.
            HasStamped self.now.reads.now Fall stamp.old stamp.new) }
        ensures refused { OnErr result (own stamp.new.1 ≡ own stamp.old.1) }
    {
        for _ in rt.forever() {
            if self.fall_step(rt, stamp)? {
                return Ok(());
            }
        }
        unreachable!()
    }

    /// Takes a mark that isn't a down.
    fn take<R: Wait>(&self, rt: &R, stamp: &mut Stamp, mark: Mark) -> Result<(), OpFault>
        requires door { IsDoor (lane_terms_of P.exports P.rules self.now.lock.now.1)
            self.now.reads.now self.now.writes.now self.now.sources.now }
        requires may { MayPass (lane_terms_of P.exports P.rules self.now.lock.now.1)
            (signal_of mark) stamp.old }
        requires other { signal_of mark ≢ Fall }
        ensures same { IsSameStamp stamp.old stamp.new }
        ensures marked { IfOk result (λ _.
            HasStamped self.now.reads.now (signal_of mark) stamp.old stamp.new) }
        ensures refused { OnErr result (own stamp.new.1 ≡ own stamp.old.1) }
    {
        let (held, mut lane) = self.lock.lock(rt);
        let done = other_turn(rt, self.reads, &mut lane, stamp, mark);
        self.lock.unlock(held, lane);
        done
    }
}

impl<'a, J: Judge + Drop, P: Sends, G: Gate, H: Helper> Direction for LaneDoor<'a, J, P, G, H> {
    ghost use Rattle.export_lock.specs.Locks.{lane_terms_of};
    ghost use Rattle.pipe_lock.specs.Doors.{IsDoor, MayPass};

    ghost table = { λ door. door.reads.now };

    ghost may = { λ signal stamp door.
        IsDoor (lane_terms_of P.exports P.rules door.lock.now.1) door.reads.now door.writes.now
        door.sources.now
        × MayPass (lane_terms_of P.exports P.rules door.lock.now.1) signal stamp };

    fn mark_turn<R: Wait>(&self, rt: &R, stamp: &mut Stamp, mark: Mark) -> Result<(), OpFault> {
        match mark {
            Mark::Stay => Ok(()),
            Mark::Up => self.take(rt, stamp, Mark::Up),
            Mark::Down => self.fall(rt, stamp),
            Mark::Refresh => self.take(rt, stamp, Mark::Refresh),
        }
    }
}
