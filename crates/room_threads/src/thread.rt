//! The thread of an actor.
ghost use Rattle.std.specs.Prelude.{◌≡◌};
ghost use Rattle.room_threads.specs.Acted.{HasActed, IsReady};
ghost use Rattle.room_threads.specs.Started.{IsStarted, number_in};

use crate::actor::{Acted, Owes, Started};
use attrs::Judge;
use export_lock::Sends;
use import_lock::{Helper, Phase};
use outside_io::Gate;
use phase_actors::{Actor, Answers};
use room_actors::act;
use room_members::Room;
use script_lines::Line;
use show_route::Query;
use std::snapshot::Snapshot;
use std::sync::Wait;
use std::thread::{Scope, Threads};

/// To go through so many lines takes less time than to start a thread.
const FEW: usize = 4096;

/// An actor does its lines, to their end or to its first fault.
fn act_out<R: Wait, G: Gate, H: Helper, A: Answers, J: Judge + Drop, P: Phase + Sends>(
    rt: &R,
    gate: &G,
    helper: &H,
    answers: &A,
    room: &Room<J, P>,
    queries: &Vec<Query>,
    lines: &Vec<Line>,
    mut actor: Actor,
) -> Acted
    requires { IsReady P.terms P.exports P.rules (A.setup answers.now) room.now queries.now.items
        lines.now.items actor }
    ensures is { HasActed P.terms room.now result }
    ensures number { result.actor.number ≡ actor.number }
{
    let fault = act(
        rt,
        gate,
        helper,
        answers,
        room,
        queries.as_slice(),
        lines.as_slice(),
        &mut actor,
    )
    .err();
    Acted { actor, fault }
}

/// Whether the line is the actor's.
fn is_line_of(line: &Line, number: u32) -> bool {
    match line {
        Line::Take { .. } => false,
        Line::Push { .. } => false,
        Line::Apply { actor, .. } => *actor == number,
        Line::Show { actor, .. } => *actor == number,
    }
}

/// Whether the actor of a number may have something to do: few lines are looked through.
fn is_busy(lines: &[Line], number: u32) -> bool {
    lines.len() > FEW || lines.iter().any(|line| is_line_of(line, number))
}

/// Starts the actor's thread. Where that can't be, and where none of few lines is the actor's, it
/// goes through the lines at once.
pub fn start<
    's,
    E,
    R: Wait + Sync,
    G: Gate + Sync,
    H: Helper + Sync,
    A: Answers + Sync,
    J: Judge + Drop + Send,
    P: Phase + Sends + Send,
>(
    scope: &Scope<'s, E>,
    rt: &'s R,
    gate: &'s G,
    helper: &'s H,
    answers: &'s A,
    room: &'s Room<J, P>,
    queries: &'s Vec<Query>,
    lines: &'s Vec<Line>,
    actor: Actor,
) -> Started<J, P>
    requires { IsReady P.terms P.exports P.rules (A.setup answers.now) room.now queries.now.items
        lines.now.items actor }
    ensures is { IsStarted P.terms room.now result }
    ensures number { number_in result ≡ actor.number }
{
    if !is_busy(lines.as_slice(), actor.number) {
        return Started::Done(act_out(rt, gate, helper, answers, room, queries, lines, actor));
    }
    let owes = Owes {
        room: Snapshot::of(room),
        actor: actor.number,
    };
    match scope.spawn_with(
        owes,
        move || -> Acted
            requires { IsReady P.terms P.exports P.rules (A.setup answers.now) room.now
                queries.now.items lines.now.items actor }
            ensures { HasActed P.terms room.entry.now result
                × (result.actor.number ≡ actor.number) }
        { act_out(rt, gate, helper, answers, room, queries, lines, actor) },
    ) {
        Ok(handle) => Started::Running(handle),
        Err(refused) => Started::Done((refused.value)()),
    }
}

/// The actor's end. Where it has a thread, that is waited for.
pub fn finish<J: Judge + Drop, P: Phase + Sends, R: Threads>(
    rt: &R,
    room: &Room<J, P>,
    started: Started<J, P>,
) -> Acted
    requires { IsStarted P.terms room.now started }
    ensures is { HasActed P.terms room.now result }
    ensures number { result.actor.number ≡ number_in started }
{
    match started {
        Started::Running(handle) => handle.join(rt),
        Started::Done(acted) => acted,
    }
}
