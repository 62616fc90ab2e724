//! What lies under an import lock as a phase begins.
ghost use Rattle.std.specs.Prelude.{[]};
ghost use Rattle.core_setup.specs.Setup.{Source};
ghost use Rattle.import_lock.specs.Begun.{Begins};
ghost use Rattle.import_lock.specs.Kept.{IsFree};
ghost use Rattle.import_lock.specs.Terms.{AreTerms, ImportTerms};

use crate::state::{ImportState, Stamp, Turns};
use attrs::{Judge, Seq};
use import_core::Importer;
use std::alloc::Global;
use table_shared::Port;

impl<J: Judge> ImportState<J> {
    /// The value of a lock as a phase begins, with the importer as earlier phases left it. Nothing
    /// is recorded, and nothing waits.
    pub fn begin(
        alloc: Global,
        importer: Importer<J>,
        port: Port,
        turns: Turns,
        stamp: Option<Stamp>,
    ) -> ImportState<J>
        ensures { (key : ImportTerms) (source : Source) → AreTerms key source
            → Begins J.verdict key source importer port turns stamp
            → IsFree J.verdict key [] result }
    {
        ImportState {
            importer,
            port,
            ops: Vec::new(alloc),
            backlog: Seq::from_vec(Vec::new(alloc)),
            sent: 0,
            turns,
            stamp,
            fault: None,
        }
    }
}
