//! Laws of what a pipe's import lock keeps.
ghost use Rattle.std.specs.Prelude.{◌≡◌, ◌+◌, ◌<◌, ◌^◌, ◌++◌, List, [], length, None};
ghost use Rattle.core_setup.specs.Protocols.{only_tells, pipe_signal};
ghost use Rattle.import_core.specs.declared.operation.Op.{Op};
ghost use Rattle.export_lock.specs.Lanes.{LaneTerms};
ghost use Rattle.jour.specs.Seats.{front};
ghost use Rattle.phase_legal.specs.Changes.{given};
ghost use Rattle.pipe_lock.specs.Doors.{IsLaneOf, MayPass};
ghost use Rattle.pipe_lock.specs.Kept.{IsFree, IsPiping};
ghost use Rattle.pipe_lock.specs.Terms.{AreTerms, PipeTerms, ops_told, past_ops, rules_in};
ghost use Rattle.pipe_lock.specs.declared.state.PipeState.{PipeState};

/// The operations of a pipe change no table, and what the next one tells its directions is by
/// whether it is up.
pub fn pipes_only_signal()
    ensures gives { (key : PipeTerms) (past ops : List Op) → AreTerms key
        → given (rules_in key) key.number past ops ≡ [] }
    ensures signal { (key : PipeTerms) (state : PipeState) (op : Op) → IsPiping key state
        → (rules_in key).gives key.number (ops_told key (front state.turns.1) ++ past_ops key) op
        ≡ only_tells (pipe_signal state.up op) }
{}

/// Whenever the lock is free and there was no fault, both directions may take what the next
/// operation signals, under the locks that are theirs.
pub fn next_signals_pass()
    ensures out { (key : PipeTerms) (lane : LaneTerms) (state : PipeState) (op : Op)
        → IsFree key state → state.fault ≡ None → IsLaneOf key key.out lane
        → length state.ops.items + 1 < 2 ^ 63
        → MayPass lane (pipe_signal state.up op) state.out }
    ensures back { (key : PipeTerms) (lane : LaneTerms) (state : PipeState) (op : Op)
        → IsFree key state → state.fault ≡ None → IsLaneOf key key.back lane
        → length state.ops.items + 1 < 2 ^ 63
        → MayPass lane (pipe_signal state.up op) state.back }
{}
