//! The value of an export lock of a pipe's direction, and what the lock is of.
use crate::key::{ExportKey, Sends};
use crate::state::ExportState;
use attrs::Judge;
use keyed_lock::Keeps;
use std::marker::PhantomData;
use std::snapshot::Snapshot;
use table_shared::Port;

/// What lies under the export lock of a pipe's direction: what reads the one table, and the port
/// under which it enters in the other table what it sends.
#[derive(Drop)]
pub struct PipeLane<J: Judge> {
    pub state: ExportState<J>,
    pub port: Port,
}

/// What an export lock of a pipe's direction is of: what it has of the table that it reads, and its
/// port of the table that it writes.
#[derive(Drop)]
pub struct LaneKey<P> {
    pub exports: ExportKey<P>,
    pub port: Snapshot<Port>,
}

/// What an export lock of a pipe's direction keeps.
pub struct Lanes<J, P> {
    of: PhantomData<(J, P)>,
}

impl<J: Judge, P: Sends> Keeps<PipeLane<J>, LaneKey<P>> for Lanes<J, P> {
    ghost use Rattle.export_lock.specs.Lanes.{IsSomeLane};
    ghost use Rattle.export_lock.specs.Locks.{lane_terms_of};

    ghost keeps = { λ key lane. IsSomeLane J.verdict (lane_terms_of P.exports P.rules key) lane };
}
