//! A pipe's session as a phase begins.
ghost use Rattle.std.specs.Prelude.{◌≡◌, ◌+◌, ◌≤◌, ℕ, List, Some, reverse, slice_get, vec_len, IfOk};
ghost use Rattle.atomic_table.specs.Seated.{TableId};
ghost use Rattle.core_setup.specs.Protocols.{rules_of};
ghost use Rattle.core_setup.specs.Setup.{IsSetup};
ghost use Rattle.export_lock.specs.Locks.{lane_terms_of};
ghost use Rattle.import_lock.specs.Begun.{IsUnused};
ghost use Rattle.jour_rule.specs.declared.views.Terms.{Terms};
ghost use Rattle.jour_rule.specs.declared.views.View.{View as Seat};
ghost use Rattle.jour.specs.Seats.{AreMakers, journal};
ghost use Rattle.phase_pipes.specs.Locks.{direction_seats, lane_seats};
ghost use Rattle.phase_pipes.specs.Parts.{ArePipeParts, IsDirectionPart, TableFound};
ghost use Rattle.phase_pipes.specs.Sessions.{IsNewLane, IsNewPipe, IsPipeSession, back_terms, out_terms, pipe_terms};
ghost use Rattle.phase_room.specs.Journals.{marks_terms};
ghost use Rattle.phase_pipes.specs.Stands.{IsDirectionOf};
ghost use Rattle.pipe_lock.specs.Locks.{direction_of};
ghost use Rattle.table_shared.specs.Opening.{TableOpening};

use crate::locks::{lock_lane, lock_pipe};
use crate::parts::{DirectionPart, PipePart};
use crate::session::PipeSession;
use attrs::{JEntry, Judge};
use bits_ip::OutOfMemory;
use core_setup::laws::setups_are_as_asked;
use export_lock::Sends;
use import_lock::{Hand, Phase, Stamp};
use phase_room::{open_marks, open_turns};
use pipe_lock::{DirectionKey, LaneLock};
use std::alloc::Global;
use std::snapshot::Snapshot;

/// A direction's lock, its stamp, and what the pipe's lock is to know of it. The entries are those
/// of the table that it reads before the phase.
fn begin_lane<J: Judge + Drop, P: Phase + Sends>(
    alloc: Global,
    played: &P,
    before: &Vec<JEntry>,
    part: DirectionPart<J>,
) -> Result<(LaneLock<J, P>, Stamp, DirectionKey), OutOfMemory>
    requires part { (number : ℕ) × (reads : ℕ) × (writes : ℕ)
        × (read : TableFound) × (written : TableFound)
        × (read.stood.before ≡ before.now.items)
        × IsSetup (P.terms played.now).setup
        × IsDirectionOf (P.terms played.now).setup number part.number reads writes
        × IsDirectionPart J.verdict (P.terms played.now) (P.exports played.now) number read
        written part }
    requires rules { P.rules played.now ≡ rules_of (P.terms played.now).setup }
    ensures { IfOk result (λ made. (marks : TableId × Seat ℕ)
        × (lane_terms_of P.exports P.rules made.0.1
        ≡ lane_seats (P.exports played.now part.number) (P.rules played.now) part.number
        part.cursor before.now.items marks (reverse part.log.value.items) part.port)
        × (journal made.1 ≡ journal marks) × IsUnused made.1
        × (marks.1.seen.terms ≡ marks_terms)
        × (direction_of made.2 ≡ direction_seats part.number part.cursor marks)) }
{
    setups_are_as_asked();
    let DirectionPart {
        number,
        exporter,
        log,
        cursor,
        port,
    } = part;
    let (marks, stamp) = open_marks(alloc)?;
    let key = DirectionKey {
        number,
        cursor: Snapshot::of(&cursor),
        stamp: Snapshot::of(&stamp),
    };
    let lock = lock_lane(
        alloc, played, number, exporter, cursor, marks, port, before, log,
    )?;
    Ok((lock, stamp, key))
}

/// The session of a pipe, and the hands of its turns, numbered from 0 on. The entries are those of
/// its primary and of its peer table before the phase.
pub fn begin_pipe<J: Judge + Drop, P: Phase + Sends>(
    alloc: Global,
    played: &P,
    hands: u32,
    primary: &Vec<JEntry>,
    peer: &Vec<JEntry>,
    part: PipePart,
    out: DirectionPart<J>,
    back: DirectionPart<J>,
) -> Result<(PipeSession<J, P>, Vec<Hand>), OutOfMemory>
    requires few { hands ≤ 1024 }
    requires hands { hands ≡ (P.terms played.now).starter + 1 }
    requires rules { P.rules played.now ≡ rules_of (P.terms played.now).setup }
    requires parts { (here : TableFound) × (there : TableFound)
        × (here.stood.before ≡ primary.now.items)
        × (there.stood.before ≡ peer.now.items)
        × ArePipeParts J.verdict (P.terms played.now) (P.exports played.now) here there part out
        back }
    ensures session { IfOk result (λ made. (tables : List (TableId × Terms TableOpening))
        → slice_get tables part.primary ≡ Some (journal out.cursor.0)
        → slice_get tables part.peer ≡ Some (journal back.cursor.0)
        → IsPipeSession (P.terms played.now) tables part.number made.0.primary made.0.peer
        (pipe_terms P.terms made.0) (out_terms P.exports P.rules made.0)
        (back_terms P.exports P.rules made.0)) }
    ensures hands { IfOk result (λ made. (vec_len made.1 ≡ hands)
        × AreMakers (pipe_terms P.terms made.0).turns made.1.items) }
    ensures new { IfOk result (λ made. IsNewPipe P.terms P.exports P.rules played.now
        part.number part.primary part.peer made.0) }
    ensures lanes { IfOk result (λ made.
        IsNewLane (P.exports played.now) (P.rules played.now) primary.now.items out
        (out_terms P.exports P.rules made.0)
        × IsNewLane (P.exports played.now) (P.rules played.now) peer.now.items back
        (back_terms P.exports P.rules made.0)) }
{
    let (turns, made) = open_turns(alloc, hands)?;
    let (out, out_stamp, out_key) = begin_lane(alloc, played, primary, out)?;
    let (back, back_stamp, back_key) = begin_lane(alloc, played, peer, back)?;
    let PipePart {
        number,
        primary,
        peer,
        up,
    } = part;
    let stamps = (out_stamp, back_stamp);
    let pipe = lock_pipe(
        alloc,
        played,
        number,
        up,
        turns,
        stamps,
        (out_key, back_key),
    )?;
    Ok((
        PipeSession {
            primary,
            peer,
            pipe,
            out,
            back,
        },
        made,
    ))
}
