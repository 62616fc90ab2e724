//! How the mark of an operation goes to the protocol's channel, under its stamp.
ghost use Rattle.std.specs.Prelude.{◌≡◌, ℕ, List, [], ◌++◌, None, Some, IfErr, IfOk, IfSome};
ghost use Rattle.attrs.specs.declared.route.Change.{Change};
ghost use Rattle.import_core.specs.declared.operation.Op.{Op};
ghost use Rattle.import_lock.specs.Calls.{IsDue, IsHeld};
ghost use Rattle.import_lock.specs.Kept.{IsFree, left};
ghost use Rattle.core_setup.specs.Protocols.{signal_of};
ghost use Rattle.jour.specs.Seats.{journal};
ghost use Rattle.import_lock.specs.Terms.{ImportTerms};
ghost use Rattle.import_lock.specs.declared.state.OpFault.TheVariants.{Memory};

use crate::state::{ImportState, OpFault, Stamp};
use attrs::Judge;
use bits_ip::OutOfMemory;
use import_core::Mark;
use std::sync::Wait;
use table_shared::{Port, Table};

/// A channel that comes up, goes down and sends all anew as its protocol's operations ask.
pub trait TakesMarks {
    ghost use Rattle.std.specs.Prelude.{◌≡◌, ◌≤◌, ℕ, List, ◌++◌, IfOk, map};
    ghost use Rattle.atomic_table.specs.Seated.{TableId};
    ghost use Rattle.jour_rule.specs.declared.views.Terms.{Terms};
    ghost use Rattle.jour_rule.specs.declared.views.View.{View as Seat};
    ghost use Rattle.jour.specs.Seats.{head_of, journal, number_of, own};
    ghost use Rattle.table_shared.specs.Opening.{TableOpening};
    ghost use Rattle.core_setup.specs.Protocols.{signal_of};
    ghost use Rattle.core_machine.specs.Rules.{Signal};
    ghost use Rattle.phase_legal.specs.Stamps.{items_of, mark_words};
    ghost use Rattle.phase_legal.specs.Turns.{words_in};

    /// It reads this table, and may take a signal under this stamp.
    ghost may: { TableId × Terms TableOpening → Signal → TableId × Seat ℕ → Self → Type 0 };

    /// What a mark makes of it, also where it is refused.
    ghost goes: { Self → Self → Type 0 };

    /// It takes a mark, which it records under the stamp. An up stands at the head of what the port
    /// has then seen. Where it refuses, nothing is recorded.
    fn mark_turn<R: Wait>(
        &mut self,
        rt: &R,
        table: &Table,
        stamp: &mut Stamp,
        port: &mut Port,
        mark: Mark,
    ) -> Result<(), OutOfMemory>
        requires here { journal port.old ≡ table.now }
        requires may { may table.now (signal_of mark) stamp.old self.old }
        ensures goes { goes self.old self.new }
        ensures stamp { (journal stamp.new ≡ journal stamp.old)
            × (number_of stamp.new.1.role ≡ number_of stamp.old.1.role) }
        ensures said { IfOk result (λ _. words_in (own stamp.new.1)
            ≡ words_in (own stamp.old.1)
            ++ map mark_words (items_of (signal_of mark) (head_of port.new.1))) }
        ensures port { (journal port.new ≡ journal port.old)
            × (number_of port.new.1.role ≡ number_of port.old.1.role)
            × (own port.new.1 ≡ own port.old.1)
            × (head_of port.old.1 ≤ head_of port.new.1) };
}

impl<J: Judge> ImportState<J> {
    /// The protocol's channel takes the mark of the last operation, once all that the operations
    /// gave is sent. A protocol without a stamp has no channel, and nothing is done.
    ///
    /// `Memory` comes where the channel refuses, and is left in the value too.
    pub fn give_mark<R: Wait, C: TakesMarks>(
        &mut self,
        rt: &R,
        table: &Table,
        channel: &mut C,
        mark: Mark,
    ) -> Result<(), OpFault>
        requires held { IsHeld J.verdict self.old }
        requires here { journal self.old.port ≡ table.now }
        requires may { IfSome self.old.stamp (λ stamp.
            C.may table.now (signal_of mark) stamp channel.old) }
        requires rest { left self.old ≡ [] }
        ensures kept { IfOk result (λ _. (key : ImportTerms) (made : List (ℕ × Change))
            (op : Op) (ops : List Op) → IsDue J.verdict key made op ops mark self.old
            → IsFree J.verdict key made self.new) }
        ensures channel { IfSome self.old.stamp (λ _. C.goes channel.old channel.new) }
        ensures fault { IfOk result (λ _. self.new.fault ≡ self.old.fault)
            × IfErr result (λ fault. (fault ≡ Memory) × (self.new.fault ≡ Some Memory)) }
    {
        match self.stamp.as_mut() {
            None => Ok(()),
            Some(stamp) => match channel.mark_turn(rt, table, stamp, &mut self.port, mark) {
                Ok(()) => Ok(()),
                Err(_) => {
                    self.fault = Some(OpFault::Memory);
                    Err(OpFault::Memory)
                }
            },
        }
    }
}
