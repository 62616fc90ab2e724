//! An operation of a pipe as a whole: recorded, and its mark given to both directions.
ghost use Rattle.std.specs.Prelude.{◌≡◌, ◌+◌, ◌<◌, ◌^◌, [], ◌∷◌, ◌++◌, length, None, Some, IfErr, IfOk};
ghost use mathlib.Core.List.{IsPrefix};
ghost use Rattle.core_setup.specs.Protocols.{pipe_signal, signal_of};
ghost use Rattle.jour.specs.Seats.{front, journal, number_of, own};
ghost use Rattle.phase_legal.specs.Turns.{turn_words, words_in};
ghost use Rattle.pipe_lock.specs.Calls.{IsSameStamp, MayTurn};
ghost use Rattle.pipe_lock.specs.Kept.{IsFree};
ghost use Rattle.pipe_lock.specs.Terms.{IsLineOf, PipeTerms};

use crate::mark::Direction;
use crate::state::PipeState;
use import_core::{Mark, Op};
use import_lock::{Hand, OpFault};
use std::sync::Wait;

impl PipeState {
    /// Does an operation where no fault came before: its line is recorded under the hand (at its
    /// place, from 1 on), and both directions take its mark.
    ///
    /// A fault is left in the value too. At `Memory` the operation may not be recorded; else a
    /// direction has yet to take its mark.
    pub fn op_turn<R: Wait, D: Direction>(
        &mut self,
        rt: &R,
        out: &D,
        back: &D,
        hand: &mut Hand,
        line: u32,
        op: &Op,
    ) -> Result<Mark, OpFault>
        requires turn { MayTurn (number_of hand.old.1.role) line op.now self.old }
        requires hand { journal hand.old ≡ journal self.old.turns }
        requires may { length self.old.ops.items + 1 < 2 ^ 63
            → D.may (pipe_signal self.old.up op.now) self.old.out out.now
            × D.may (pipe_signal self.old.up op.now) self.old.back back.now }
        ensures hand { (journal hand.new ≡ journal hand.old)
            × (number_of hand.new.1.role ≡ number_of hand.old.1.role) }
        ensures said { IfOk result (λ _. words_in (own hand.new.1)
            ≡ words_in (own hand.old.1) ++ turn_words line ∷ []) }
        ensures seen { IfOk result (λ _. front hand.new.1 ≡ front self.new.turns.1) }
        ensures prefix { IsPrefix (front hand.old.1) (front hand.new.1) }
        ensures mark { IfOk result (λ mark. signal_of mark ≡ pipe_signal self.old.up op.now) }
        ensures stamps { IsSameStamp self.old.out self.new.out
            × IsSameStamp self.old.back self.new.back }
        ensures kept { (key : PipeTerms) → IsFree key self.old → self.old.fault ≡ None
            → IsLineOf key (number_of hand.old.1.role) line op.now
            → key.out.table ≡ D.table out.now → key.back.table ≡ D.table back.now
            → IsFree key self.new }
        ensures fault { IfOk result (λ _. self.new.fault ≡ self.old.fault)
            × IfErr result (λ fault. self.new.fault ≡ Some fault) }
    {
        match self.plan_turn(hand, line, op) {
            Ok(mark) => match self.give_marks(rt, out, back, mark) {
                Ok(()) => Ok(mark),
                Err(fault) => Err(fault),
            },
            Err(_) => {
                self.fault = Some(OpFault::Memory);
                Err(OpFault::Memory)
            }
        }
    }
}
