//! A pipe's session can be ended, and its turns are what a phase owes in the end.
ghost use Rattle.std.specs.Prelude.{◌≡◌, ℕ, List, Some, slice_get};
ghost use Rattle.std.specs.List.{AllByRecursion};
ghost use Rattle.atomic_table.specs.Seated.{TableId};
ghost use Rattle.core_machine.specs.Lines.{Line};
ghost use Rattle.import_lock.specs.Calls.{IsRoomOf};
ghost use Rattle.import_lock.specs.Terms.{PhaseTerms};
ghost use Rattle.import_lock.specs.declared.state.OpRecord.{OpRecord};
ghost use Rattle.jour_rule.specs.Journal.{receipts};
ghost use Rattle.jour_rule.specs.declared.views.Entry.{Entry};
ghost use Rattle.jour_rule.specs.declared.views.Terms.{Terms};
ghost use Rattle.jour.specs.Seats.{front, journal, number_of, own};
ghost use Rattle.phase_legal.specs.Shown.{HandView, Room};
ghost use Rattle.phase_legal.specs.Turns.{AreStarts, AreTurnsOf};
ghost use Rattle.phase_pipes.specs.Sessions.{IsClosed, IsPipeSession};
ghost use Rattle.phase_pipes.specs.declared.session.ClosedPipe.{ClosedPipe as ClosedPipeView};
ghost use Rattle.pipe_close.specs.Ended.{IsPipeOver};
ghost use Rattle.pipe_close.specs.Left.{ArePipeTurns, IsClosing, IsPipeLeft, PipeLocks};
ghost use Rattle.pipe_close.specs.Turned.{ArePipeTurned};
ghost use Rattle.pipe_close.specs.declared.close.PipeLeft.{PipeLeft as PipeLeftView};
ghost use Rattle.pipe_lock.specs.Terms.{PipeTerms};
ghost use Rattle.table_shared.specs.Opening.{TableOpening};

use attrs::Judge;

/// The turns of a pipe begin with its starts, where the hand for them has seen only these. Each
/// actor's turns are those of its hand.
pub fn pipes_turns_begin_with_starts()
    ensures starts { (room : Room) (key : PipeTerms) (list : List Entry) (hands : List HandView)
        (ops : List OpRecord) → ArePipeTurns key list hands ops → IsRoomOf key.phase room
        → (k : ℕ) (hand : HandView) → slice_get hands k ≡ Some hand
        → number_of hand.1.role ≡ key.phase.starter → AreStarts (front hand.1)
        → ArePipeTurned room key list (front hand.1) }
    ensures hands { (key : PipeTerms) (list : List Entry) (hands : List HandView)
        (ops : List OpRecord) → ArePipeTurns key list hands ops
        → (k : ℕ) (hand : HandView) → slice_get hands k ≡ Some hand
        → (actor i : ℕ) (done : List Line) → number_of hand.1.role ≡ actor
        → AreTurnsOf actor i done (own hand.1)
        → AreTurnsOf actor i done (receipts key.turns.1.start actor list) }
{}

/// What lies under the locks of a pipe's session can be closed, and what is left then can be ended
/// in the session's tables.
pub fn sessions_can_end<J: Judge>()
    ensures closing { (phase : PhaseTerms) (tables : List (TableId × Terms TableOpening))
        (number primary peer : ℕ) (key : PipeLocks) (hands : List HandView)
        (closed : ClosedPipeView J)
        → IsPipeSession phase tables number primary peer key.pipe key.out key.back
        → IsClosed J.verdict key.pipe key.out key.back closed
        → AllByRecursion (λ hand. journal hand ≡ key.pipe.turns) hands
        → IsClosing J.verdict key hands closed }
    ensures over { (phase : PhaseTerms) (tables : List (TableId × Terms TableOpening))
        (number primary peer : ℕ) (key : PipeLocks) (hands : List HandView)
        (left : PipeLeftView J)
        → IsPipeSession phase tables number primary peer key.pipe key.out key.back
        → IsPipeLeft J.verdict key hands left → left.primary ≡ primary → left.peer ≡ peer
        → IsPipeOver J.verdict tables key hands left }
{}
