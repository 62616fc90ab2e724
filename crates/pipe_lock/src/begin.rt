//! What lies under a pipe's import lock as a phase begins.
ghost use Rattle.pipe_lock.specs.Begun.{Begins};
ghost use Rattle.pipe_lock.specs.Kept.{IsFree};
ghost use Rattle.pipe_lock.specs.Terms.{PipeTerms};

use crate::state::PipeState;
use import_lock::{Stamp, Turns};
use std::alloc::Global;

impl PipeState {
    /// The value of a lock as a phase begins. Nothing is recorded, and nothing marked.
    pub fn begin(alloc: Global, up: bool, turns: Turns, out: Stamp, back: Stamp) -> PipeState
        ensures { (key : PipeTerms) → Begins key up turns out back → IsFree key result }
    {
        PipeState {
            up,
            ops: Vec::new(alloc),
            turns,
            out,
            back,
            fault: None,
        }
    }
}
