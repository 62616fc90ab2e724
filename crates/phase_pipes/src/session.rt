//! A pipe in a phase, and what lies under its locks as it ends.
ghost use Rattle.phase_pipes.specs.Sessions.{IsClosed, back_terms, out_terms, pipe_terms};

use attrs::Judge;
use export_lock::{PipeLane, Sends};
use import_lock::Phase;
use pipe_lock::{LaneLock, PipeLock, PipeState};
use std::sync::Wait;

/// A pipe and its two directions, as threads share them.
#[derive(Drop)]
pub struct PipeSession<J: Judge + Drop, P: Phase + Sends> {
    /// The number of the table that the direction out reads, and the one back writes.
    pub primary: u32,
    /// The number of the other table.
    pub peer: u32,
    pub pipe: PipeLock<P>,
    pub out: LaneLock<J, P>,
    pub back: LaneLock<J, P>,
}

/// What lay under the locks of a pipe and of its directions.
#[derive(Drop)]
pub struct ClosedPipe<J: Judge> {
    pub pipe: PipeState,
    pub out: PipeLane<J>,
    pub back: PipeLane<J>,
}

impl<J: Judge + Drop, P: Phase + Sends> PipeSession<J, P> {
    /// What lies under all three locks, which nobody else uses any more.
    pub fn close<R: Wait>(self, rt: &R) -> ClosedPipe<J>
        ensures { IsClosed J.verdict (pipe_terms P.terms self)
            (out_terms P.exports P.rules self) (back_terms P.exports P.rules self) result }
    {
        let PipeSession {
            pipe,
            out,
            back,
            ..
        } = self;
        let pipe = pipe.into_value(rt);
        let out = out.into_value(rt);
        let back = back.into_value(rt);
        ClosedPipe { pipe, out, back }
    }
}
