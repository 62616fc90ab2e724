//! How the mark of an operation goes to both directions of a pipe, each under its stamp.
ghost use Rattle.std.specs.Prelude.{◌≡◌, List, ◌∷◌, Some, IfErr, IfOk};
ghost use Rattle.core_setup.specs.Protocols.{signal_of};
ghost use Rattle.import_core.specs.declared.operation.Op.{Op};
ghost use Rattle.pipe_lock.specs.Calls.{IsDue, OnlyMarks};
ghost use Rattle.pipe_lock.specs.Kept.{AreMarked, AreMarkedSoFar, IsFree};
ghost use Rattle.pipe_lock.specs.Terms.{PipeTerms};

use crate::state::PipeState;
use import_core::Mark;
use import_lock::{OpFault, Stamp};
use std::sync::Wait;

/// A pipe's direction that comes up, goes down and sends all anew as the pipe's operations ask.
pub trait Direction {
    ghost use Rattle.std.specs.Prelude.{◌≡◌, ℕ, IfOk, OnErr};
    ghost use Rattle.atomic_table.specs.Seated.{TableId};
    ghost use Rattle.core_machine.specs.Rules.{Signal};
    ghost use Rattle.core_setup.specs.Protocols.{signal_of};
    ghost use Rattle.jour_rule.specs.declared.views.Terms.{Terms};
    ghost use Rattle.jour_rule.specs.declared.views.View.{View as Seat};
    ghost use Rattle.jour.specs.Seats.{own};
    ghost use Rattle.table_shared.specs.Opening.{TableOpening};
    ghost use Rattle.pipe_lock.specs.Calls.{HasStamped, IsSameStamp};

    /// The table that it reads.
    ghost table: { Self → TableId × Terms TableOpening };

    /// It may take a signal under this stamp.
    ghost may: { Signal → TableId × Seat ℕ → Self → Type 0 };

    /// It takes a mark, which it records under the stamp. Before it goes down it withdraws all that
    /// it sent and that stands. Where it refuses, nothing is recorded.
    fn mark_turn<R: Wait>(&self, rt: &R, stamp: &mut Stamp, mark: Mark) -> Result<(), OpFault>
        requires may { may (signal_of mark) stamp.old self.now }
        ensures same { IsSameStamp stamp.old stamp.new }
        ensures marked { IfOk result (λ _.
            HasStamped (table self.now) (signal_of mark) stamp.old stamp.new) }
        ensures refused { OnErr result (own stamp.new.1 ≡ own stamp.old.1) };
}

impl PipeState {
    /// Both directions take a mark, one after the other; the second takes it only where the first
    /// did.
    fn mark_both<R: Wait, D: Direction>(
        &mut self,
        rt: &R,
        out: &D,
        back: &D,
        mark: Mark,
    ) -> Result<(), OpFault>
        requires may { D.may (signal_of mark) self.old.out out.now
            × D.may (signal_of mark) self.old.back back.now }
        ensures only { OnlyMarks self.old self.new }
        ensures fault { self.new.fault ≡ self.old.fault }
        ensures marked { IfOk result (λ _. (key : PipeTerms) (op : Op) (earlier : List Op)
            → IsDue key op earlier mark self.old
            → key.out.table ≡ D.table out.now → key.back.table ≡ D.table back.now
            → AreMarked key (op ∷ earlier) self.new) }
        ensures so_far { (key : PipeTerms) (op : Op) (earlier : List Op)
            → IsDue key op earlier mark self.old
            → key.out.table ≡ D.table out.now → key.back.table ≡ D.table back.now
            → AreMarkedSoFar key (op ∷ earlier) self.new }
    {
        out.mark_turn(rt, &mut self.out, mark)?;
        back.mark_turn(rt, &mut self.back, mark)
    }

    /// Both directions take the mark of the last operation: the one that reads the primary table,
    /// and then the one back.
    ///
    /// A fault is a direction's, and is left in the value too. The mark is wanting then in that
    /// direction, and in the one back if that comes behind it.
    pub fn give_marks<R: Wait, D: Direction>(
        &mut self,
        rt: &R,
        out: &D,
        back: &D,
        mark: Mark,
    ) -> Result<(), OpFault>
        requires may { D.may (signal_of mark) self.old.out out.now
            × D.may (signal_of mark) self.old.back back.now }
        ensures only { OnlyMarks self.old self.new }
        ensures kept { (key : PipeTerms) (op : Op) (earlier : List Op)
            → IsDue key op earlier mark self.old
            → key.out.table ≡ D.table out.now → key.back.table ≡ D.table back.now
            → IsFree key self.new }
        ensures fault { IfOk result (λ _. self.new.fault ≡ self.old.fault)
            × IfErr result (λ fault. self.new.fault ≡ Some fault) }
    {
        match self.mark_both(rt, out, back, mark) {
            Ok(()) => Ok(()),
            Err(fault) => {
                self.fault = Some(fault);
                Err(fault)
            }
        }
    }
}
