//! What an import lock is of.
use crate::state::{ImportState, Stamp, Turns};
use attrs::Judge;
use keyed_lock::Keeps;
use std::marker::PhantomData;
use std::snapshot::Snapshot;
use table_shared::Port;

/// A phase, which locks name: what is played, its lines, and the turns before it.
pub trait Phase {
    ghost use Rattle.import_lock.specs.Terms.{PhaseTerms};

    ghost terms: { Self → PhaseTerms };
}

/// What an import lock is of: a protocol of a phase, its port, its turns, and its channel's stamp.
#[derive(Drop)]
pub struct ImportKey<P> {
    pub phase: Snapshot<P>,
    pub number: u32,
    pub port: Snapshot<Port>,
    pub turns: Snapshot<Turns>,
    pub stamp: Snapshot<Option<Stamp>>,
}

/// What an import lock keeps.
pub struct Imports<J, P> {
    of: PhantomData<(J, P)>,
}

impl<J: Judge, P: Phase> Keeps<ImportState<J>, ImportKey<P>> for Imports<J, P> {
    ghost use Rattle.import_lock.specs.Kept.{IsImports};
    ghost use Rattle.import_lock.specs.Locks.{terms_of};

    ghost keeps = { λ key state. IsImports J.verdict (terms_of P.terms key) state };
}
