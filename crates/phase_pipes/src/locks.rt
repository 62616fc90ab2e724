//! The locks of a pipe and of its directions, as a phase begins.
ghost use Rattle.std.specs.Prelude.{◌≡◌, reverse, IfOk};
ghost use Rattle.export_lock.specs.Begun.{BeginsLane};
ghost use Rattle.export_lock.specs.Locks.{lane_terms_of};
ghost use Rattle.phase_pipes.specs.Locks.{lane_seats, pipe_seats};
ghost use Rattle.pipe_lock.specs.Begun.{Begins};
ghost use Rattle.pipe_lock.specs.Locks.{direction_of, terms_of};

use attrs::{JEntry, Judge};
use bits_ip::OutOfMemory;
use export_core::{Exporter, LogItem};
use export_lock::{ExportKey, LaneKey, PipeLane, Sends};
use import_lock::{Marks, Phase, Stamp, Turns};
use keyed_lock::Lock;
use pipe_lock::{DirectionKey, LaneLock, PipeKey, PipeLock, PipeState};
use std::alloc::Global;
use std::snapshot::Snapshot;
use table_shared::{Port, TableCursor};

/// The lock of the pipe of this number, which is up or not, and whose directions' locks are of what
/// these keys name.
pub fn lock_pipe<P: Phase>(
    alloc: Global,
    phase: &P,
    number: u32,
    up: bool,
    turns: Turns,
    stamps: (Stamp, Stamp),
    keys: (DirectionKey, DirectionKey),
) -> Result<PipeLock<P>, OutOfMemory>
    requires { Begins (pipe_seats (P.terms phase.now) number turns (direction_of keys.0)
        (direction_of keys.1)) up turns stamps.0 stamps.1 }
    ensures { IfOk result (λ lock. terms_of P.terms lock.1
        ≡ pipe_seats (P.terms phase.now) number turns (direction_of keys.0)
        (direction_of keys.1)) }
{
    let key = PipeKey {
        phase: Snapshot::of(phase),
        number,
        turns: Snapshot::of(&turns),
        out: keys.0,
        back: keys.1,
    };
    let state = PipeState::begin(alloc, up, turns, stamps.0, stamps.1);
    Lock::new(alloc, state, &key)
}

/// The lock of the direction of this number, with its exporter as earlier phases left it. The
/// entries are those of the table that it reads before the phase, and the log is the exporter's.
pub fn lock_lane<J: Judge + Drop, P: Sends>(
    alloc: Global,
    played: &P,
    number: u32,
    exporter: Exporter<J>,
    cursor: TableCursor,
    marks: Marks,
    port: Port,
    before: &Vec<JEntry>,
    log: Snapshot<Vec<LogItem>>,
) -> Result<LaneLock<J, P>, OutOfMemory>
    requires { BeginsLane J.verdict
        (lane_seats (P.exports played.now number) (P.rules played.now) number cursor
        before.now.items marks (reverse log.value.items) port) exporter cursor marks port }
    ensures { IfOk result (λ lock. lane_terms_of P.exports P.rules lock.1
        ≡ lane_seats (P.exports played.now number) (P.rules played.now) number cursor
        before.now.items marks (reverse log.value.items) port) }
{
    let exports = ExportKey {
        played: Snapshot::of(played),
        number,
        cursor: Snapshot::of(&cursor),
        before: Snapshot::of(before),
        marks: Snapshot::of(&marks),
        log,
    };
    let key = LaneKey {
        exports,
        port: Snapshot::of(&port),
    };
    let lane = PipeLane::begin(exporter, cursor, marks, port);
    Lock::new(alloc, lane, &key)
}
