//! A protocol and its channel in a phase, and what lies under their locks as it ends.
ghost use Rattle.std.specs.Prelude.{MatchOption};
ghost use Rattle.import_lock.specs.Kept.{IsImports};
ghost use Rattle.import_lock.specs.Locks.{terms_of};
ghost use Rattle.export_lock.specs.Kept.{IsExports};
ghost use Rattle.export_lock.specs.Locks.{terms_of as export_terms_of};
ghost use Rattle.phase_room.specs.Sessions.{AreClosed};

use crate::locks::{ExportLock, ImportLock};
use attrs::Judge;
use export_lock::{ExportState, Sends};
use import_lock::{ImportState, Phase};
use std::sync::Wait;

/// A protocol with routes of its own and its channel to a neighbour, as threads share them.
#[derive(Drop)]
pub struct Session<J: Judge + Drop, P: Phase + Sends> {
    /// The number of the table to which it imports, and which its channel reads.
    pub table: u32,
    pub import: ImportLock<J, P>,
    /// The lock of its channel, which a static protocol hasn't got.
    pub export: Option<ExportLock<J, P>>,
}

impl<J: Judge + Drop, P: Phase + Sends> Session<J, P> {
    /// What lies under both locks, which nobody else uses any more.
    pub fn close<R: Wait>(self, rt: &R) -> (ImportState<J>, Option<ExportState<J>>)
        ensures import { IsImports J.verdict (terms_of P.terms self.import.1) result.0 }
        ensures export { AreClosed J.verdict P.exports self.export result.1 }
    {
        let Session { import, export, .. } = self;
        let state = import.into_value(rt);
        match export {
            Some(export) => (state, Some(export.into_value(rt))),
            None => (state, None),
        }
    }
}
