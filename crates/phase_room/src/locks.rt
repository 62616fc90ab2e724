//! The locks of a protocol and of a channel, as a phase begins.
ghost use Rattle.std.specs.Prelude.{◌≡◌, reverse, IfOk};
ghost use Rattle.phase_room.specs.Locks.{CanExport, CanImport, export_terms, import_terms};
ghost use Rattle.import_lock.specs.Locks.{terms_of};
ghost use Rattle.export_lock.specs.Locks.{terms_of as export_terms_of};

use attrs::{JEntry, Judge};
use bits_ip::OutOfMemory;
use export_core::{Exporter, LogItem};
use export_lock::{ExportKey, ExportState, Exports, Sends};
use import_core::Importer;
use import_lock::{ImportKey, ImportState, Imports, Marks, Phase, Stamp, Turns};
use keyed_lock::Lock;
use std::alloc::Global;
use std::snapshot::Snapshot;
use table_shared::{Port, TableCursor};

/// The lock of a protocol with routes of its own.
pub type ImportLock<J, P> = Lock<ImportState<J>, ImportKey<P>, Imports<J, P>>;

/// The lock of a channel to a neighbour.
pub type ExportLock<J, P> = Lock<ExportState<J>, ExportKey<P>, Exports<J, P>>;

/// The lock of the protocol of this number, with its importer as earlier phases left it.
pub fn lock_import<J: Judge + Drop, P: Phase>(
    alloc: Global,
    phase: &P,
    number: u32,
    importer: Importer<J>,
    port: Port,
    turns: Turns,
    stamp: Option<Stamp>,
) -> Result<ImportLock<J, P>, OutOfMemory>
    requires { CanImport J.verdict (P.terms phase.now) number importer port turns stamp }
    ensures { IfOk result (λ lock. terms_of P.terms lock.1
        ≡ import_terms (P.terms phase.now) number port turns stamp) }
{
    let key = ImportKey {
        phase: Snapshot::of(phase),
        number,
        port: Snapshot::of(&port),
        turns: Snapshot::of(&turns),
        stamp: Snapshot::of(&stamp),
    };
    let state = ImportState::begin(alloc, importer, port, turns, stamp);
    Lock::new(alloc, state, &key)
}

/// The lock of the channel of this number, with its exporter as earlier phases left it. The entries
/// are those of its table before the phase, and the log is the exporter's.
pub fn lock_export<J: Judge + Drop, P: Sends>(
    alloc: Global,
    played: &P,
    number: u32,
    exporter: Exporter<J>,
    cursor: TableCursor,
    marks: Marks,
    before: &Vec<JEntry>,
    log: Snapshot<Vec<LogItem>>,
) -> Result<ExportLock<J, P>, OutOfMemory>
    requires { CanExport J.verdict (P.exports played.now number) before.now.items
        (reverse log.value.items) exporter cursor marks }
    ensures { IfOk result (λ lock. export_terms_of P.exports lock.1
        ≡ export_terms (P.exports played.now number) cursor before.now.items marks
        (reverse log.value.items)) }
{
    let key = ExportKey {
        played: Snapshot::of(played),
        number,
        cursor: Snapshot::of(&cursor),
        before: Snapshot::of(before),
        marks: Snapshot::of(&marks),
        log,
    };
    let state = ExportState::begin(exporter, cursor, marks);
    Lock::new(alloc, state, &key)
}
