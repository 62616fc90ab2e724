//! How an operation is applied and recorded.
ghost use Rattle.std.specs.Prelude.{◌≡◌, ◌+◌, ◌<◌, ◌^◌, ℕ, List, [], ◌∷◌, ◌++◌, IfOk};
ghost use mathlib.Core.List.{IsPrefix};
ghost use Rattle.attrs.specs.declared.route.Change.{Change};
ghost use Rattle.jour_rule.specs.Moves.{entry};
ghost use Rattle.jour.specs.Seats.{front, head_of, journal, number_of, own};
ghost use Rattle.phase_legal.specs.Turns.{turn_words, words_in};
ghost use Rattle.import_lock.specs.Calls.{IsTold, MayTurn, OnlyPlans};
ghost use Rattle.import_lock.specs.Kept.{IsImporting, left};
ghost use Rattle.import_lock.specs.Terms.{ImportTerms, IsLineOf};

use crate::state::{Hand, ImportState, OpRecord, Turns};
use attrs::Judge;
use bits_ip::OutOfMemory;
use import_core::{Mark, Op};

/// What an operation means for the protocol's channel, and whether a route was over the limit.
#[derive(Clone, Copy, Debug, PartialEq, Eq)]
pub struct Plan {
    pub mark: Mark,
    pub over: bool,
}

/// Records the line at a place under a hand, which has then seen all turns.
fn record(turns: &mut Turns, hand: &mut Hand, line: u32)
    requires here { journal hand.old ≡ journal turns.old }
    requires makers { turns.old.1.seen.terms.opening ≡ turns.old.1.seen.terms.makers }
    requires cursors { turns.old.1.seen.terms.cursors ≡ 0 }
    requires end { head_of turns.old.1 + 1 < 2 ^ 63 }
    ensures here { (journal turns.new ≡ journal turns.old) × (journal hand.new ≡ journal hand.old)
        × (number_of hand.new.1.role ≡ number_of hand.old.1.role) }
    ensures list { front turns.new.1
        ≡ front turns.old.1 ++ entry (number_of hand.old.1.role) (turn_words line) ∷ [] }
    ensures seen { front hand.new.1 ≡ front turns.new.1 }
    ensures said { words_in (own hand.new.1)
        ≡ words_in (own hand.old.1) ++ turn_words line ∷ [] }
    ensures prefix { IsPrefix (front hand.old.1) (front hand.new.1) }
{
    turns.tell_maker(hand);
    hand.number();
    turns.lawful();
    let words = [2, u64::from(line)];
    turns.append(hand, &words);
}

impl<J: Judge> ImportState<J> {
    /// Applies an operation and records the line at a place, from 1 on, under the hand; a start has
    /// the place 0. Its changes wait, and none waited before.
    ///
    /// `OutOfMemory` comes where memory is refused; nothing is said of the importer then.
    pub fn plan_turn(&mut self, hand: &mut Hand, line: u32, op: &Op) -> Result<Plan, OutOfMemory>
        requires turn { MayTurn J.verdict (number_of hand.old.1.role) line op.now self.old }
        requires hand { journal hand.old ≡ journal self.old.turns }
        requires rest { left self.old ≡ [] }
        ensures hand { (journal hand.new ≡ journal hand.old)
            × (number_of hand.new.1.role ≡ number_of hand.old.1.role) }
        ensures said { IfOk result (λ _. words_in (own hand.new.1)
            ≡ words_in (own hand.old.1) ++ turn_words line ∷ []) }
        ensures seen { IfOk result (λ _. front hand.new.1 ≡ front self.new.turns.1) }
        ensures prefix { IsPrefix (front hand.old.1) (front hand.new.1) }
        ensures only { OnlyPlans self.old self.new }
        ensures kept { IfOk result (λ _. (key : ImportTerms) (made : List (ℕ × Change))
            → IsImporting J.verdict key made self.old
            → IsLineOf key (number_of hand.old.1.role) line op.now
            → IsImporting J.verdict key made self.new) }
        ensures told { IfOk result (λ plan. (key : ImportTerms) (made : List (ℕ × Change))
            → IsImporting J.verdict key made self.old
            → IsLineOf key (number_of hand.old.1.role) line op.now
            → IsTold key op.now plan.mark plan.over self.old self.new) }
    {
        self.ops.reserve(1)?;
        let step = self.importer.apply(op)?;
        record(&mut self.turns, hand, line);
        self.ops.push_reserved(OpRecord {
            line,
            over: step.over,
        });
        self.backlog = step.changes;
        self.sent = 0;
        Ok(Plan {
            mark: step.mark,
            over: step.over,
        })
    }
}
