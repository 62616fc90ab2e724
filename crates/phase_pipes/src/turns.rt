//! An operation of a pipe in a phase, under its locks.
ghost use Rattle.std.specs.Prelude.{◌≡◌, ◌∷◌, ◌++◌, ℕ, List, [], Some, slice_get, IfOk};
ghost use mathlib.Core.List.{IsPrefix};
ghost use Rattle.atomic_table.specs.Seated.{TableId};
ghost use Rattle.jour_rule.specs.declared.views.Terms.{Terms};
ghost use Rattle.jour.specs.Seats.{front, journal, number_of, own};
ghost use Rattle.phase_legal.specs.Turns.{turn_words, words_in};
ghost use Rattle.phase_pipes.specs.Sessions.{IsPipeSession, back_terms, out_terms, pipe_terms};
ghost use Rattle.phase_pipes.specs.Sources.{AreSourcesOf};
ghost use Rattle.pipe_lock.specs.Terms.{IsLineOf};
ghost use Rattle.table_shared.specs.Opening.{TableOpening};

use crate::laws::directions_know_their_sources;
use crate::session::PipeSession;
use attrs::{Judge, Src};
use export_lock::Sends;
use import_core::{Mark, Op};
use import_lock::{Hand, Helper, OpFault, Phase};
use outside_io::Gate;
use pipe_lock::laws::next_signals_pass;
use pipe_lock::{LaneDoor, operate};
use std::sync::Wait;
use table_shared::Table;

impl<J: Judge + Drop, P: Phase + Sends> PipeSession<J, P> {
    /// Does an operation of the pipe under its lock: its line is recorded under the hand (at its
    /// place, from 1 on), and both directions take its mark, each under its own lock. One that goes
    /// down withdraws first all that stands of it. The helper is told of cursors that have no room
    /// for that. The sources are those of what is played, by number.
    ///
    /// A fault that came before comes again, and nothing is done then. At `Memory` the operation
    /// may not be recorded; else a direction has yet to take its mark.
    pub fn operate<'a, R: Wait, G: Gate, H: Helper>(
        &'a self,
        rt: &R,
        gate: &'a G,
        helper: &'a H,
        primary: &'a Table,
        peer: &'a Table,
        sources: &'a [Src],
        hand: &mut Hand,
        line: u32,
        op: &Op,
    ) -> Result<Mark, OpFault>
        requires session { (tables : List (TableId × Terms TableOpening)) × (number : ℕ)
            × IsPipeSession (pipe_terms P.terms self.now).phase tables number self.now.primary
            self.now.peer (pipe_terms P.terms self.now) (out_terms P.exports P.rules self.now)
            (back_terms P.exports P.rules self.now)
            × (slice_get tables self.now.primary ≡ Some primary.now)
            × (slice_get tables self.now.peer ≡ Some peer.now) }
        requires sources { AreSourcesOf (pipe_terms P.terms self.now).phase.setup sources.now }
        requires hand { journal hand.old ≡ (pipe_terms P.terms self.now).turns }
        requires line { IsLineOf (pipe_terms P.terms self.now) (number_of hand.old.1.role) line
            op.now }
        ensures hand { (journal hand.new ≡ journal hand.old)
            × (number_of hand.new.1.role ≡ number_of hand.old.1.role) }
        ensures said { IfOk result (λ _. words_in (own hand.new.1)
            ≡ words_in (own hand.old.1) ++ turn_words line ∷ []) }
        ensures prefix { IsPrefix (front hand.old.1) (front hand.new.1) }
    {
        next_signals_pass();
        directions_know_their_sources();
        let out = LaneDoor {
            lock: &self.out,
            gate,
            helper,
            reads: primary,
            writes: peer,
            sources,
        };
        let back = LaneDoor {
            lock: &self.back,
            gate,
            helper,
            reads: peer,
            writes: primary,
            sources,
        };
        let done = operate(rt, &self.pipe, &out, &back, hand, line, op);
        let LaneDoor {
            lock: _lock,
            gate: _gate,
            helper: _helper,
            reads: _reads,
            writes: _writes,
            sources: _sources,
        } = out;
        let LaneDoor {
            lock: _lock,
            gate: _gate,
            helper: _helper,
            reads: _reads,
            writes: _writes,
            sources: _sources,
        } = back;
        done
    }
}
