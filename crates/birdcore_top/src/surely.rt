//! `top` over files and a sink that never fail.
ghost use Rattle.std.specs.Prelude.{◌≡◌, ◌≢◌, ◌⊎◌};
ghost use Rattle.birdcore_top.specs.Answer.{Answers};
ghost use Rattle.birdcore_top.specs.Command.{command_of};
ghost use Rattle.birdcore_top.specs.Outcome.{Outcome, IsRequired};

use crate::Status;
use crate::top::top;
use outside_io::{OpenGate, Shelf, SureShelf, SureSink};
use std::alloc::Global;
use std::random::RandomSource;
use std::sync::Wait;
use std::thread::Threads;

/// Does what the words ask for over the files of a shelf that never fails, and lets what is written
/// go to a sink that takes all.
///
/// No fault is answered then: it is what words and files require, or want of memory.
pub fn do_surely<R: RandomSource + Threads + Wait + Sync>(
    rt: &R,
    alloc: Global,
    words: &[String],
    shelf: &mut SureShelf,
) -> Status
    ensures no_fault { (result ≢ Status.ReadFault) × (result ≢ Status.WriteFault) }
    ensures complete { (o : Outcome)
        → IsRequired (command_of words.now) (⟦<SureShelf as Shelf>⟧.held shelf.old) o
        → Answers o result ⊎ (result ≡ Status.OutOfMemory) }
{
    top(rt, alloc, words, shelf, &mut SureSink, &OpenGate)
}
