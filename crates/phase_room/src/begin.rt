//! Sessions as a phase begins.
ghost use Rattle.std.specs.Prelude.{◌≡◌, ◌+◌, ◌≤◌, ℕ, List, None, Some, slice_get, vec_len, IfOk, IfSome};
ghost use Rattle.atomic_table.specs.Seated.{TableId};
ghost use Rattle.jour_rule.specs.declared.views.Terms.{Terms};
ghost use Rattle.jour_rule.specs.declared.views.View.{View as Seat};
ghost use Rattle.jour.specs.Seats.{AreMakers, journal};
ghost use Rattle.table_shared.specs.Opening.{TableOpening};
ghost use Rattle.import_lock.specs.Begun.{IsUnused};
ghost use Rattle.import_lock.specs.Locks.{terms_of};
ghost use Rattle.phase_room.specs.Entering.{IsNewChannel, IsNewSession};
ghost use Rattle.phase_room.specs.Journals.{turns_terms};
ghost use Rattle.phase_room.specs.Locks.{import_terms};
ghost use Rattle.phase_room.specs.Parts.{IsChannelPart, IsProtocolPart};
ghost use Rattle.phase_room.specs.Rooms.{TableTerms};
ghost use Rattle.phase_room.specs.Sessions.{IsSession, channel_terms, protocol_terms};

use crate::lists::{open_marks, open_turns};
use crate::locks::{ImportLock, lock_export, lock_import};
use crate::parts::{ChannelPart, ProtocolPart};
use crate::session::Session;
use attrs::{JEntry, Judge};
use bits_ip::OutOfMemory;
use export_lock::Sends;
use import_lock::{Hand, Phase, Stamp};
use std::alloc::Global;

/// A protocol's lock, and the hands of its turns, numbered from 0 on.
fn begin_import<J: Judge + Drop, P: Phase>(
    alloc: Global,
    played: &P,
    hands: u32,
    part: ProtocolPart<J>,
    stamp: Option<Stamp>,
) -> Result<(ImportLock<J, P>, Vec<Hand>), OutOfMemory>
    requires few { hands ≤ 1024 }
    requires hands { hands ≡ (P.terms played.now).starter + 1 }
    requires part { (stood : TableTerms) × (here : TableId × Terms TableOpening)
        × IsProtocolPart J.verdict (P.terms played.now) stood here part }
    requires unused { IfSome stamp IsUnused }
    ensures { IfOk result (λ made. (turns : TableId × Seat ℕ)
        × (terms_of P.terms made.0.1
        ≡ import_terms (P.terms played.now) part.number part.port turns stamp)
        × (vec_len made.1 ≡ hands) × AreMakers (journal turns) made.1.items
        × (turns.1.seen.terms ≡ turns_terms hands)) }
{
    let ProtocolPart {
        number,
        importer,
        port,
        ..
    } = part;
    let (turns, made) = open_turns(alloc, hands)?;
    let lock = lock_import(alloc, played, number, importer, port, turns, stamp)?;
    Ok((lock, made))
}

/// The session of a static protocol, and the hands of its turns, numbered from 0 on.
pub fn begin_static<J: Judge + Drop, P: Phase + Sends>(
    alloc: Global,
    played: &P,
    hands: u32,
    part: ProtocolPart<J>,
) -> Result<(Session<J, P>, Vec<Hand>), OutOfMemory>
    requires few { hands ≤ 1024 }
    requires hands { hands ≡ (P.terms played.now).starter + 1 }
    requires part { (stood : TableTerms) × (here : TableId × Terms TableOpening)
        × IsProtocolPart J.verdict (P.terms played.now) stood here part }
    ensures session { IfOk result (λ made. (tables : List (TableId × Terms TableOpening))
        → slice_get tables part.table ≡ Some (journal part.port)
        → IsSession (P.terms played.now) tables part.number made.0.table
        (protocol_terms P.terms made.0) (channel_terms P.exports made.0)) }
    ensures hands { IfOk result (λ made. (vec_len made.1 ≡ hands)
        × AreMakers (protocol_terms P.terms made.0).turns made.1.items) }
    ensures new { IfOk result (λ made.
        IsNewSession P.terms (P.terms played.now).starter part.number part.table made.0
        × (channel_terms P.exports made.0 ≡ None)) }
{
    let table = part.table;
    let (import, made) = begin_import(alloc, played, hands, part, None)?;
    Ok((
        Session {
            table,
            import,
            export: None,
        },
        made,
    ))
}

/// The session of a protocol with its channel to a neighbour. The entries are those of its table
/// before the phase.
pub fn begin_neighbour<J: Judge + Drop, P: Phase + Sends>(
    alloc: Global,
    played: &P,
    hands: u32,
    before: &Vec<JEntry>,
    part: ProtocolPart<J>,
    channel: ChannelPart<J>,
) -> Result<(Session<J, P>, Vec<Hand>), OutOfMemory>
    requires few { hands ≤ 1024 }
    requires hands { hands ≡ (P.terms played.now).starter + 1 }
    requires parts { (stood : TableTerms) × (here : TableId × Terms TableOpening)
        × (stood.before ≡ before.now.items)
        × IsProtocolPart J.verdict (P.terms played.now) stood here part
        × IsChannelPart J.verdict (P.terms played.now) stood here (P.exports played.now)
        part.number channel }
    ensures session { IfOk result (λ made. (tables : List (TableId × Terms TableOpening))
        → slice_get tables part.table ≡ Some (journal part.port)
        → IsSession (P.terms played.now) tables part.number made.0.table
        (protocol_terms P.terms made.0) (channel_terms P.exports made.0)) }
    ensures hands { IfOk result (λ made. (vec_len made.1 ≡ hands)
        × AreMakers (protocol_terms P.terms made.0).turns made.1.items) }
    ensures new { IfOk result (λ made.
        IsNewSession P.terms (P.terms played.now).starter part.number part.table made.0
        × IsNewChannel (P.exports played.now) before.now.items channel
        (channel_terms P.exports made.0)) }
{
    let ChannelPart {
        number,
        exporter,
        log,
        cursor,
    } = channel;
    let table = part.table;
    let (marks, stamp) = open_marks(alloc)?;
    let (import, made) = begin_import(alloc, played, hands, part, Some(stamp))?;
    let export = lock_export(alloc, played, number, exporter, cursor, marks, before, log)?;
    Ok((
        Session {
            table,
            import,
            export: Some(export),
        },
        made,
    ))
}
