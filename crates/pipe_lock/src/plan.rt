//! How an operation of a pipe is recorded.
ghost use Rattle.std.specs.Prelude.{◌≡◌, ◌+◌, ◌<◌, ◌^◌, if◌then◌else◌, [], ◌∷◌, ◌++◌, length, IfOk, OnErr};
ghost use mathlib.Core.List.{IsPrefix};
ghost use Rattle.core_machine.specs.Rules.{signalled};
ghost use Rattle.core_setup.specs.Protocols.{pipe_signal, signal_of};
ghost use Rattle.import_core.specs.declared.step.Mark.TheVariants.{Stay};
ghost use Rattle.jour_rule.specs.Moves.{entry};
ghost use Rattle.jour.specs.Seats.{front, head_of, journal, number_of, own};
ghost use Rattle.phase_legal.specs.Turns.{turn_words, words_in};
ghost use Rattle.pipe_lock.specs.Calls.{IsUnplanned, MayTurn, OnlyPlans};
ghost use Rattle.pipe_lock.specs.Kept.{IsPiping};
ghost use Rattle.pipe_lock.specs.Terms.{IsLineOf, PipeTerms, ops_told};

use crate::state::PipeState;
use bits_ip::OutOfMemory;
use import_core::{Mark, Op};
use import_lock::{Hand, OpRecord, Turns};

/// What an operation tells the directions of a pipe, which is up or not. Each form of a reload
/// sends all anew in both (BIRD User's Guide, "Remote control").
fn pipe_mark(up: bool, op: &Op) -> Mark
    ensures { signal_of result ≡ pipe_signal up op.now }
{
    match op {
        Op::Disable => when(up, Mark::Down),
        Op::Enable => when(!up, Mark::Up),
        Op::ReloadIn => when(up, Mark::Refresh),
        Op::ReloadOut => when(up, Mark::Refresh),
        Op::Reload => when(up, Mark::Refresh),
        Op::Start => Mark::Stay,
        Op::SessionUp(_) => Mark::Stay,
        Op::Add(_, _) => Mark::Stay,
        Op::Del(_) => Mark::Stay,
        Op::SessionDown => Mark::Stay,
    }
}

fn when(fits: bool, mark: Mark) -> Mark
    ensures { result ≡ (if fits then mark else Stay) }
{
    if fits { mark } else { Mark::Stay }
}

/// Whether a pipe is up behind a mark.
fn is_up_behind(up: bool, mark: Mark) -> bool
    ensures { result ≡ signalled (signal_of mark) up }
{
    match mark {
        Mark::Stay => up,
        Mark::Up => true,
        Mark::Down => false,
        Mark::Refresh => up,
    }
}

/// Records the line at a place under a hand, which has then seen all turns.
fn record(turns: &mut Turns, hand: &mut Hand, line: u32)
    requires here { journal hand.old ≡ journal turns.old }
    requires makers { turns.old.1.seen.terms.opening ≡ turns.old.1.seen.terms.makers }
    requires cursors { turns.old.1.seen.terms.cursors ≡ 0 }
    requires end { head_of turns.old.1 + 1 < 2 ^ 63 }
    ensures here { (journal turns.new ≡ journal turns.old) × (journal hand.new ≡ journal hand.old)
        × (number_of hand.new.1.role ≡ number_of hand.old.1.role) }
    ensures list { front turns.new.1
        ≡ front turns.old.1 ++ entry (number_of hand.old.1.role) (turn_words line) ∷ [] }
    ensures seen { front hand.new.1 ≡ front turns.new.1 }
    ensures said { words_in (own hand.new.1)
        ≡ words_in (own hand.old.1) ++ turn_words line ∷ [] }
    ensures prefix { IsPrefix (front hand.old.1) (front hand.new.1) }
{
    turns.tell_maker(hand);
    hand.number();
    turns.lawful();
    let words = [2, u64::from(line)];
    turns.append(hand, &words);
}

impl PipeState {
    /// Records the line of an operation at a place, from 1 on, under the hand, and answers what it
    /// tells the directions.
    ///
    /// `OutOfMemory` comes where memory is refused, and all is as before then.
    pub fn plan_turn(&mut self, hand: &mut Hand, line: u32, op: &Op) -> Result<Mark, OutOfMemory>
        requires turn { MayTurn (number_of hand.old.1.role) line op.now self.old }
        requires hand { journal hand.old ≡ journal self.old.turns }
        ensures hand { (journal hand.new ≡ journal hand.old)
            × (number_of hand.new.1.role ≡ number_of hand.old.1.role) }
        ensures said { IfOk result (λ _. words_in (own hand.new.1)
            ≡ words_in (own hand.old.1) ++ turn_words line ∷ []) }
        ensures seen { IfOk result (λ _. front hand.new.1 ≡ front self.new.turns.1) }
        ensures prefix { IsPrefix (front hand.old.1) (front hand.new.1) }
        ensures mark { IfOk result (λ mark. signal_of mark ≡ pipe_signal self.old.up op.now) }
        ensures few { IfOk result (λ _. length self.old.ops.items + 1 < 2 ^ 63) }
        ensures only { OnlyPlans self.old self.new }
        ensures refused { OnErr result (IsUnplanned self.old self.new) }
        ensures kept { IfOk result (λ _. (key : PipeTerms) → IsPiping key self.old
            → IsLineOf key (number_of hand.old.1.role) line op.now → IsPiping key self.new) }
        ensures told { IfOk result (λ _. (key : PipeTerms) → IsPiping key self.old
            → IsLineOf key (number_of hand.old.1.role) line op.now
            → ops_told key (front self.new.turns.1)
            ≡ op.now ∷ ops_told key (front self.old.turns.1)) }
    {
        self.ops.reserve(1)?;
        let mark = pipe_mark(self.up, op);
        record(&mut self.turns, hand, line);
        self.ops.push_reserved(OpRecord { line, over: false });
        self.up = is_up_behind(self.up, mark);
        Ok(mark)
    }
}
