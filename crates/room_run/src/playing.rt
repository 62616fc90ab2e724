//! The room of a phase is played.
ghost use Rattle.std.specs.Prelude.{◌≡◌, ◌<◌, ℕ, List, length, IfOk};
ghost use Rattle.std.specs.List.{All};
ghost use Rattle.core_machine.specs.Lines.{Act};
ghost use Rattle.phase_open.specs.declared.standing.StandingTable.{StandingTable as TableView};
ghost use Rattle.room_actors.specs.Script.{IsScript};
ghost use Rattle.room_members.specs.Members.{IsRoom};
ghost use Rattle.room_members.specs.Ports.{HasPorts};
ghost use Rattle.room_open.specs.Opening.{IsOpening};
ghost use Rattle.room_open.specs.declared.standing.StandingMember.{StandingMember as HeldView};
ghost use Rattle.room_run.specs.Inside.{AreStartSeats, HaveAllActed, HaveStarted};
ghost use Rattle.room_ends.specs.Played.{IsPlayed, starts_of};

use crate::acting::{Through, start_and_act};
use crate::dealing::{Dealt, deal};
use attrs::{JEntry, Judge};
use export_lock::Sends;
use import_lock::{Hand, OpFault, Phase};
use outside_io::Gate;
use phase_actors::Answers;
use room_close::end_phase;
use room_ends::PlayedRoom;
use room_members::Room;
use room_open::Opening;
use script_lines::Line;
use show_route::Query;
use std::alloc::Global;
use std::sync::Wait;
use std::thread::Threads;
use table_shared::TablePass;

/// Ends the phase once all have acted.
fn end_room<R: Wait, G: Gate, J: Judge + Drop, P: Phase + Sends>(
    alloc: Global,
    rt: &R,
    gate: &G,
    room: Room<J, P>,
    through: Through,
    starters: Vec<Hand>,
    passes: Vec<TablePass>,
) -> Result<PlayedRoom<J>, OpFault>
    requires room { IsRoom P.terms P.exports P.rules room }
    requires ports { HasPorts P.terms P.exports P.rules room }
    requires acted { HaveAllActed P.terms room through.all.items }
    requires seats { AreStartSeats P.terms room starters.items passes.items }
    ensures { IfOk result (λ played. (starts : List Act)
        → HaveStarted (P.terms room.played.value).starter starts starters.items
        → IsPlayed J.verdict P.terms P.exports P.rules room starts played) }
{
    let Through { all, spares } = through;
    let dealt = deal(alloc, &room, all, starters, passes)?;
    let Dealt {
        hands,
        passes,
        told,
    } = dealt;
    let ended = end_phase(alloc, rt, gate, room, hands, passes, spares)?;
    Ok(PlayedRoom { ended, told })
}

/// Plays a phase in the room that was opened for it: protocols of these numbers start, a thread for
/// each actor does its lines while four workers serve channels and pipes, and the phase ends. Who
/// answers queries has what is played. The entries of each table before the phase come back.
///
/// It ends at the first fault, but not before all threads have returned.
pub fn play_room<
    R: Threads + Wait + Sync,
    G: Gate + Sync,
    A: Answers + Sync,
    J: Judge + Drop + Send,
    P: Phase + Sends + Send,
>(
    alloc: Global,
    rt: &R,
    gate: &G,
    answers: &A,
    opening: Opening<J, P>,
    queries: &Vec<Query>,
    lines: &Vec<Line>,
    statics: &[u32],
) -> Result<(PlayedRoom<J>, Vec<Vec<JEntry>>), OpFault>
    requires opening { (played : P) × (tables : List TableView)
        × (members : List (HeldView J))
        × IsOpening P.terms P.exports P.rules played tables members opening }
    requires script { IsScript P.terms opening.room queries.now.items lines.now.items }
    requires setup { A.setup answers.now ≡ (P.terms opening.room.played.value).setup }
    requires statics { All (λ (number : ℕ). number < length opening.room.members.items)
        statics.now }
    ensures played { IfOk result (λ made. IsPlayed J.verdict P.terms P.exports P.rules
        opening.room (starts_of statics.now) made.0) }
    ensures before { IfOk result (λ made. made.1 ≡ opening.before) }
{
    let Opening {
        room,
        actors,
        mut starters,
        mut passes,
        spares,
        before,
    } = opening;
    let through = start_and_act(
        alloc,
        rt,
        gate,
        answers,
        &room,
        spares,
        queries,
        lines,
        statics,
        actors,
        &mut starters,
        &mut passes,
    )?;
    let played = end_room(alloc, rt, gate, room, through, starters, passes)?;
    Ok((played, before))
}
