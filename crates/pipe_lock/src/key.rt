//! What a pipe's import lock is of.
use crate::state::PipeState;
use import_lock::{Phase, Stamp, Turns};
use keyed_lock::Keeps;
use std::marker::PhantomData;
use std::snapshot::Snapshot;
use table_shared::TableCursor;

/// A direction of a pipe: its number as a channel, the cursor by which it reads its table, and its
/// stamp.
#[derive(Drop)]
pub struct DirectionKey {
    pub number: u32,
    pub cursor: Snapshot<TableCursor>,
    pub stamp: Snapshot<Stamp>,
}

/// What a pipe's import lock is of: a pipe of a phase, its turns, and its directions.
#[derive(Drop)]
pub struct PipeKey<P> {
    pub phase: Snapshot<P>,
    pub number: u32,
    pub turns: Snapshot<Turns>,
    pub out: DirectionKey,
    pub back: DirectionKey,
}

/// What a pipe's import lock keeps.
pub struct Pipes<P> {
    of: PhantomData<P>,
}

impl<P: Phase> Keeps<PipeState, PipeKey<P>> for Pipes<P> {
    ghost use Rattle.pipe_lock.specs.Kept.{IsFree};
    ghost use Rattle.pipe_lock.specs.Locks.{terms_of};

    ghost keeps = { λ key state. IsFree (terms_of P.terms key) state };
}
