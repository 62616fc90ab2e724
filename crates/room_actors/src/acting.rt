//! An actor does its lines.
ghost use Rattle.std.specs.Prelude.{◌≡◌, [], Some, reverse, IfOk};
ghost use Rattle.phase_legal.specs.Turns.{line_at};
ghost use Rattle.phase_actors.specs.Acting.{IsDoing, IsSeated};
ghost use Rattle.phase_actors.specs.Steps.{Does};
ghost use Rattle.room_members.specs.Members.{IsRoom, room_seen};
ghost use Rattle.sys_run.specs.Scripts.{line_of};
ghost use Rattle.room_actors.specs.Script.{CanDo, IsScript};

use crate::apply::apply_line;
use crate::show::show_line;
use attrs::Judge;
use export_lock::Sends;
use import_lock::{Helper, OpFault, Phase};
use outside_io::Gate;
use phase_actors::{Actor, Answers};
use room_members::Room;
use script_lines::Line;
use show_route::Query;
use std::sync::Wait;

/// The line of a place, from 1 on, where it is the actor's.
fn act_line<R: Wait, G: Gate, H: Helper, A: Answers, J: Judge + Drop, P: Phase + Sends>(
    rt: &R,
    gate: &G,
    helper: &H,
    answers: &A,
    room: &Room<J, P>,
    queries: &[Query],
    actor: &mut Actor,
    place: u32,
    line: &Line,
) -> Result<(), OpFault>
    requires room { IsRoom P.terms P.exports P.rules room.now }
    requires setup { A.setup answers.now ≡ (P.terms room.now.played.value).setup }
    requires queries { (P.terms room.now.played.value).setup.queries ≡ queries.now }
    requires line { line_at (P.terms room.now.played.value).lines place
        ≡ Some (line_of queries.now line.now) }
    requires can { CanDo P.terms room.now line.now }
    requires seats { IsSeated (room_seen P.terms room.now) actor.old }
    ensures number { actor.new.number ≡ actor.old.number }
    ensures seats { IsSeated (room_seen P.terms room.now) actor.new }
    ensures does { IfOk result (λ _.
        Does (P.terms room.now.played.value).setup (room_seen P.terms room.now) place
        (line_of queries.now line.now) actor.old actor.new) }
{
    match line {
        Line::Take { .. } => Ok(()),
        Line::Push { .. } => Ok(()),
        Line::Apply {
            actor: asker,
            protocol,
            op,
            ..
        } => apply_line(rt, gate, helper, room, actor, place, *asker, *protocol, op),
        Line::Show {
            actor: asker,
            query,
        } => show_line(rt, answers, room, queries, actor, place, *asker, *query),
    }
}

/// An actor does its lines among those of the phase, in their order, and passes by those of others.
/// It ends at the first fault: one of an operation, or want of memory.
pub fn act<R: Wait, G: Gate, H: Helper, A: Answers, J: Judge + Drop, P: Phase + Sends>(
    rt: &R,
    gate: &G,
    helper: &H,
    answers: &A,
    room: &Room<J, P>,
    queries: &[Query],
    lines: &[Line],
    actor: &mut Actor,
) -> Result<(), OpFault>
    requires room { IsRoom P.terms P.exports P.rules room.now }
    requires setup { A.setup answers.now ≡ (P.terms room.now.played.value).setup }
    requires script { IsScript P.terms room.now queries.now lines.now }
    requires new { IsDoing (P.terms room.now.played.value).setup (room_seen P.terms room.now) []
        actor.old }
    ensures number { actor.new.number ≡ actor.old.number }
    ensures seats { IsSeated (room_seen P.terms room.now) actor.new }
    ensures done { IfOk result (λ _.
        IsDoing (P.terms room.now.played.value).setup (room_seen P.terms room.now)
        (reverse (P.terms room.now.played.value).lines) actor.new) }
{
    for index in 0..lines.len() {
        let place = index as u32 + 1;
        act_line(
            rt,
            gate,
            helper,
            answers,
            room,
            queries,
            actor,
            place,
            &lines[index],
        )?;
    }
    Ok(())
}
