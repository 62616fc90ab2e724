//! What an export lock is of.
use crate::state::ExportState;
use attrs::{JEntry, Judge};
use export_core::LogItem;
use import_lock::Marks;
use keyed_lock::Keeps;
use std::marker::PhantomData;
use std::snapshot::Snapshot;
use table_shared::TableCursor;

/// What is played: by channel what each lets pass, and the rules, by which pipes' directions go.
pub trait Sends {
    ghost use Rattle.std.specs.Prelude.{ℕ};
    ghost use Rattle.core_machine.specs.Rules.{Rules};
    ghost use Rattle.core_setup.specs.Setup.{Exports};

    ghost exports: { Self → ℕ → Exports };

    ghost rules: { Self → Rules };
}

/// What an export lock is of: a channel of what is played, the cursor of its table and the table's
/// entries before the phase, its marks, and its log before the phase.
#[derive(Drop)]
pub struct ExportKey<P> {
    pub played: Snapshot<P>,
    pub number: u32,
    pub cursor: Snapshot<TableCursor>,
    pub before: Snapshot<Vec<JEntry>>,
    pub marks: Snapshot<Marks>,
    pub log: Snapshot<Vec<LogItem>>,
}

/// What an export lock keeps.
pub struct Exports<J, P> {
    of: PhantomData<(J, P)>,
}

impl<J: Judge, P: Sends> Keeps<ExportState<J>, ExportKey<P>> for Exports<J, P> {
    ghost use Rattle.export_lock.specs.Kept.{IsExports};
    ghost use Rattle.export_lock.specs.Locks.{terms_of};

    ghost keeps = { λ key state. IsExports J.verdict (terms_of P.exports key) state };
}
