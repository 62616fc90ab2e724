//! An operation of a pipe from free lock to free lock.
ghost use Rattle.std.specs.Prelude.{◌≡◌, ◌+◌, ◌<◌, ◌^◌, [], ◌∷◌, ◌++◌, length, None, IfOk};
ghost use mathlib.Core.List.{IsPrefix};
ghost use Rattle.core_setup.specs.Protocols.{pipe_signal};
ghost use Rattle.jour.specs.Seats.{front, journal, number_of, own};
ghost use Rattle.phase_legal.specs.Turns.{turn_words, words_in};
ghost use Rattle.pipe_lock.specs.Kept.{IsFree};
ghost use Rattle.pipe_lock.specs.Locks.{terms_of};
ghost use Rattle.pipe_lock.specs.Terms.{IsLineOf, PipeTerms};
ghost use Rattle.pipe_lock.specs.declared.state.PipeState.{PipeState as State};

use crate::key::{PipeKey, Pipes};
use crate::mark::Direction;
use crate::state::PipeState;
use import_core::{Mark, Op};
use import_lock::{Hand, OpFault, Phase};
use keyed_lock::Lock;
use std::sync::Wait;

/// The import lock of a pipe.
pub type PipeLock<P> = Lock<PipeState, PipeKey<P>, Pipes<P>>;

/// Does an operation of the pipe under its lock: its line is recorded under the hand (at its place,
/// from 1 on), and both directions take its mark. A fault that came before comes again, and nothing
/// is done then.
pub fn operate<R: Wait, P: Phase, D: Direction>(
    rt: &R,
    lock: &PipeLock<P>,
    out: &D,
    back: &D,
    hand: &mut Hand,
    line: u32,
    op: &Op,
) -> Result<Mark, OpFault>
    requires hand { journal hand.old ≡ (terms_of P.terms lock.now.1).turns }
    requires line { IsLineOf (terms_of P.terms lock.now.1) (number_of hand.old.1.role) line op.now }
    requires tables { ((terms_of P.terms lock.now.1).out.table ≡ D.table out.now)
        × ((terms_of P.terms lock.now.1).back.table ≡ D.table back.now) }
    requires may { (state : State) → IsFree (terms_of P.terms lock.now.1) state
        → state.fault ≡ None → length state.ops.items + 1 < 2 ^ 63
        → D.may (pipe_signal state.up op.now) state.out out.now
        × D.may (pipe_signal state.up op.now) state.back back.now }
    ensures hand { (journal hand.new ≡ journal hand.old)
        × (number_of hand.new.1.role ≡ number_of hand.old.1.role) }
    ensures said { IfOk result (λ _. words_in (own hand.new.1)
        ≡ words_in (own hand.old.1) ++ turn_words line ∷ []) }
    ensures prefix { IsPrefix (front hand.old.1) (front hand.new.1) }
{
    let (held, mut state) = lock.lock(rt);
    let done = attempt(rt, out, back, &mut state, hand, line, op);
    lock.unlock(held, state);
    done
}

/// Does an operation unless a fault came before, which then comes again.
fn attempt<R: Wait, D: Direction>(
    rt: &R,
    out: &D,
    back: &D,
    state: &mut PipeState,
    hand: &mut Hand,
    line: u32,
    op: &Op,
) -> Result<Mark, OpFault>
    requires free { (key : PipeTerms) × IsFree key state.old
        × (journal hand.old ≡ key.turns)
        × IsLineOf key (number_of hand.old.1.role) line op.now }
    requires may { state.old.fault ≡ None → length state.old.ops.items + 1 < 2 ^ 63
        → D.may (pipe_signal state.old.up op.now) state.old.out out.now
        × D.may (pipe_signal state.old.up op.now) state.old.back back.now }
    ensures kept { (key : PipeTerms) → IsFree key state.old
        → IsLineOf key (number_of hand.old.1.role) line op.now
        → key.out.table ≡ D.table out.now → key.back.table ≡ D.table back.now
        → IsFree key state.new }
    ensures hand { (journal hand.new ≡ journal hand.old)
        × (number_of hand.new.1.role ≡ number_of hand.old.1.role) }
    ensures said { IfOk result (λ _. words_in (own hand.new.1)
        ≡ words_in (own hand.old.1) ++ turn_words line ∷ []) }
    ensures prefix { IsPrefix (front hand.old.1) (front hand.new.1) }
{
    match state.fault {
        Some(fault) => Err(fault),
        None => state.op_turn(rt, out, back, hand, line, op),
    }
}
