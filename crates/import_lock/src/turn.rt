//! An operation as a whole: applied, recorded, and its changes sent.
ghost use Rattle.std.specs.Prelude.{◌≡◌, ◌≢◌, ◌++◌, ◌∷◌, ℕ, List, [], Some, None, true, IfErr, IfOk};
ghost use mathlib.Core.List.{IsPrefix};
ghost use Rattle.attrs.specs.declared.route.Change.{Change};
ghost use Rattle.jour.specs.Seats.{front, journal, number_of, own};
ghost use Rattle.phase_legal.specs.Turns.{turn_words, words_in};
ghost use Rattle.import_lock.specs.Calls.{HasTurned, IsDue, IsHeld, IsTold, MayTurn, OnlyTurns, Sends};
ghost use Rattle.import_lock.specs.Kept.{IsFree, IsImporting, IsImports, left};
ghost use Rattle.import_lock.specs.Terms.{ImportTerms, IsLineOf, ops_told};
ghost use Rattle.import_lock.specs.declared.state.OpFault.TheVariants.{Memory};

use crate::plan::Plan;
use crate::state::{Hand, ImportState, OpFault};
use attrs::Judge;
use import_core::Op;
use outside_io::Gate;
use std::sync::Wait;
use table_shared::{Table, UpdateFault};

/// Who can have a table's cursor read on.
pub trait Helper {
    /// Is told a cursor of the table that lags the whole journal behind, so that a change waits.
    fn help<R: Wait>(&self, rt: &R, cursor: u32);
}

impl<J: Judge> ImportState<J> {
    /// Tries to send the first change that waits, and tells whether none waits any more.
    fn send_step<R: Wait, G: Gate, H: Helper>(
        &mut self,
        rt: &R,
        gate: &G,
        table: &Table,
        helper: &H,
    ) -> Result<bool, OpFault>
        requires held { IsHeld J.verdict self.old }
        requires here { journal self.old.port ≡ table.now }
        ensures sends { Sends J.verdict self.old self.new }
        ensures rest { IfOk result (λ done. done ≡ true → left self.new ≡ []) }
    {
        match self.send_turn(rt, gate, table) {
            Ok(Some(_)) => Ok(false),
            Ok(None) => Ok(true),
            Err(UpdateFault::Full { cursor, .. }) => {
                helper.help(rt, cursor);
                Ok(false)
            }
            Err(UpdateFault::Ended { head }) => Err(OpFault::Ended { head }),
            Err(UpdateFault::Memory) => Err(OpFault::Memory),
        }
    }

    /// Sends all changes that wait, the first one first. Where the table has no room for one, the
    /// helper is told the cursor that has yet to read, and it is tried again.
    ///
    /// Each fault is the table's. What was sent until then stays, and the rest waits.
    pub fn send_all<R: Wait, G: Gate, H: Helper>(
        &mut self,
        rt: &R,
        gate: &G,
        table: &Table,
        helper: &H,
    ) -> Result<(), OpFault>
        requires held { IsHeld J.verdict self.old }
        requires here { journal self.old.port ≡ table.now }
        ensures sends { Sends J.verdict self.old self.new }
        ensures rest { IfOk result (λ _. left self.new ≡ []) }
    {
        for _ in rt.forever() {
            if self.send_step(rt, gate, table, helper)? {
                return Ok(());
            }
        }
        unreachable!()
    }

    /// Applies an operation, records its line under the hand, and sends its changes.
    fn plan_and_send<R: Wait, G: Gate, H: Helper>(
        &mut self,
        rt: &R,
        gate: &G,
        table: &Table,
        helper: &H,
        hand: &mut Hand,
        line: u32,
        op: &Op,
    ) -> Result<Plan, OpFault>
        requires turn { MayTurn J.verdict (number_of hand.old.1.role) line op.now self.old }
        requires hand { journal hand.old ≡ journal self.old.turns }
        requires here { journal self.old.port ≡ table.now }
        requires rest { left self.old ≡ [] }
        ensures hand { (journal hand.new ≡ journal hand.old)
            × (number_of hand.new.1.role ≡ number_of hand.old.1.role) }
        ensures said { IfOk result (λ _. words_in (own hand.new.1)
            ≡ words_in (own hand.old.1) ++ turn_words line ∷ []) }
        ensures seen { IfOk result (λ _. front hand.new.1 ≡ front self.new.turns.1) }
        ensures prefix { IsPrefix (front hand.old.1) (front hand.new.1) }
        ensures only { OnlyTurns self.old self.new }
        ensures fault { self.new.fault ≡ self.old.fault }
        ensures rest { IfOk result (λ _. left self.new ≡ []) }
        ensures told { IfOk result (λ plan. (key : ImportTerms) (made : List (ℕ × Change))
            → IsImporting J.verdict key made self.old
            → IsLineOf key (number_of hand.old.1.role) line op.now
            → HasTurned J.verdict key made op.now self.old self.new
            × IsTold key op.now plan.mark plan.over self.old self.new) }
        ensures failed { IfErr result (λ fault. fault ≢ Memory
            → (key : ImportTerms) (made : List (ℕ × Change))
            → IsImporting J.verdict key made self.old
            → IsLineOf key (number_of hand.old.1.role) line op.now
            → HasTurned J.verdict key made op.now self.old self.new) }
    {
        let Ok(plan) = self.plan_turn(hand, line, op) else {
            return Err(OpFault::Memory);
        };
        self.send_all(rt, gate, table, helper)?;
        Ok(plan)
    }

    /// Does an operation: it is applied, its line recorded under the hand (at its place, from 1 on;
    /// a start has the place 0), and its changes are sent. The helper is told of cursors that have
    /// no room for one. Then the protocol's channel is due its mark.
    ///
    /// A fault is left in the value too. At `Ended` the operation is recorded, a part of its
    /// changes may be sent, and the rest waits. At `Memory` nothing is said of the importer.
    pub fn op_turn<R: Wait, G: Gate, H: Helper>(
        &mut self,
        rt: &R,
        gate: &G,
        table: &Table,
        helper: &H,
        hand: &mut Hand,
        line: u32,
        op: &Op,
    ) -> Result<Plan, OpFault>
        requires turn { MayTurn J.verdict (number_of hand.old.1.role) line op.now self.old }
        requires hand { journal hand.old ≡ journal self.old.turns }
        requires here { journal self.old.port ≡ table.now }
        requires rest { left self.old ≡ [] }
        ensures hand { (journal hand.new ≡ journal hand.old)
            × (number_of hand.new.1.role ≡ number_of hand.old.1.role) }
        ensures said { IfOk result (λ _. words_in (own hand.new.1)
            ≡ words_in (own hand.old.1) ++ turn_words line ∷ []) }
        ensures seen { IfOk result (λ _. front hand.new.1 ≡ front self.new.turns.1) }
        ensures prefix { IsPrefix (front hand.old.1) (front hand.new.1) }
        ensures only { OnlyTurns self.old self.new }
        ensures fault { IfOk result (λ _. self.new.fault ≡ self.old.fault)
            × IfErr result (λ fault. self.new.fault ≡ Some fault) }
        ensures rest { IfOk result (λ _. left self.new ≡ []) }
        ensures told { IfOk result (λ plan. (key : ImportTerms) (made : List (ℕ × Change))
            → IsImporting J.verdict key made self.old
            → IsLineOf key (number_of hand.old.1.role) line op.now
            → HasTurned J.verdict key made op.now self.old self.new
            × IsTold key op.now plan.mark plan.over self.old self.new) }
        ensures due { IfOk result (λ plan. (key : ImportTerms) (made : List (ℕ × Change))
            → IsFree J.verdict key made self.old → self.old.fault ≡ None
            → IsLineOf key (number_of hand.old.1.role) line op.now
            → (more : List (ℕ × Change))
            × IsDue J.verdict key (made ++ more) op.now
            (ops_told key (front self.old.turns.1)) plan.mark self.new) }
        ensures kept { IfErr result (λ _. (key : ImportTerms)
            → IsImports J.verdict key self.old → self.old.fault ≡ None
            → IsLineOf key (number_of hand.old.1.role) line op.now
            → IsImports J.verdict key self.new) }
    {
        match self.plan_and_send(rt, gate, table, helper, hand, line, op) {
            Ok(plan) => Ok(plan),
            Err(fault) => {
                self.fault = Some(fault);
                Err(fault)
            }
        }
    }
}
