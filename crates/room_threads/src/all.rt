//! All actors of a phase at once.
ghost use Rattle.std.specs.Prelude.{◌≡◌, map, IfOk};
ghost use Rattle.std.specs.List.{All};
ghost use Rattle.room_threads.specs.Acted.{IsReady};
ghost use Rattle.room_threads.specs.Started.{AreStarted, HaveActed, IsStarted, number_in, number_of};

use crate::actor::{Acted, Started};
use crate::thread::{finish, start};
use attrs::Judge;
use bits_ip::OutOfMemory;
use export_lock::Sends;
use import_lock::{Helper, Phase};
use outside_io::Gate;
use phase_actors::{Actor, Answers};
use room_members::Room;
use script_lines::Line;
use show_route::Query;
use std::alloc::Global;
use std::sync::Wait;
use std::thread;
use std::thread::{Scope, Threads};

fn start_each<
    's,
    E,
    R: Wait + Sync,
    G: Gate + Sync,
    H: Helper + Sync,
    A: Answers + Sync,
    J: Judge + Drop + Send,
    P: Phase + Sends + Send,
>(
    alloc: Global,
    scope: &Scope<'s, E>,
    rt: &'s R,
    gate: &'s G,
    helper: &'s H,
    answers: &'s A,
    room: &'s Room<J, P>,
    queries: &'s Vec<Query>,
    lines: &'s Vec<Line>,
    actors: Vec<Actor>,
) -> Result<Vec<Started<J, P>>, OutOfMemory>
    requires { All (IsReady P.terms P.exports P.rules (A.setup answers.now) room.now
        queries.now.items lines.now.items) actors.items }
    ensures { IfOk result (λ all. AreStarted P.terms room.now actors.items all.items) }
{
    let mut all = Vec::new(alloc);
    for actor in actors {
        let started = start(
            scope, rt, gate, helper, answers, room, queries, lines, actor,
        );
        all.push(started).map_err(|_| OutOfMemory)?;
    }
    Ok(all)
}

fn finish_each<J: Judge + Drop, P: Phase + Sends, R: Threads>(
    alloc: Global,
    rt: &R,
    room: &Room<J, P>,
    started: Vec<Started<J, P>>,
) -> Result<Vec<Acted>, OutOfMemory>
    requires { All (IsStarted P.terms room.now) started.items }
    ensures { IfOk result (λ all.
        HaveActed P.terms room.now (map number_in started.items) all.items) }
{
    let mut all = Vec::new(alloc);
    for one in started {
        all.push(finish(rt, room, one)).map_err(|_| OutOfMemory)?;
    }
    Ok(all)
}

/// All actors do their lines within a scope, each in a thread of its own where one can be started.
pub fn act_in<
    's,
    E,
    R: Threads + Wait + Sync,
    G: Gate + Sync,
    H: Helper + Sync,
    A: Answers + Sync,
    J: Judge + Drop + Send,
    P: Phase + Sends + Send,
>(
    alloc: Global,
    scope: &Scope<'s, E>,
    rt: &'s R,
    gate: &'s G,
    helper: &'s H,
    answers: &'s A,
    room: &'s Room<J, P>,
    queries: &'s Vec<Query>,
    lines: &'s Vec<Line>,
    actors: Vec<Actor>,
) -> Result<Vec<Acted>, OutOfMemory>
    requires { All (IsReady P.terms P.exports P.rules (A.setup answers.now) room.now
        queries.now.items lines.now.items) actors.items }
    ensures { IfOk result (λ all.
        HaveActed P.terms room.now (map number_of actors.items) all.items) }
{
    let started = start_each(
        alloc, scope, rt, gate, helper, answers, room, queries, lines, actors,
    )?;
    finish_each(alloc, rt, room, started)
}

/// All actors do their lines, each in a thread of its own where one can be started. They come back
/// in their order.
pub fn act_all<
    R: Threads + Wait + Sync,
    G: Gate + Sync,
    H: Helper + Sync,
    A: Answers + Sync,
    J: Judge + Drop + Send,
    P: Phase + Sends + Send,
>(
    alloc: Global,
    rt: &R,
    gate: &G,
    helper: &H,
    answers: &A,
    room: &Room<J, P>,
    queries: &Vec<Query>,
    lines: &Vec<Line>,
    actors: Vec<Actor>,
) -> Result<Vec<Acted>, OutOfMemory>
    requires { All (IsReady P.terms P.exports P.rules (A.setup answers.now) room.now
        queries.now.items lines.now.items) actors.items }
    ensures { IfOk result (λ all.
        HaveActed P.terms room.now (map number_of actors.items) all.items) }
{
    thread::scope(
        thread::scope_env(),
        rt,
        |scope| -> Result<Vec<Acted>, OutOfMemory>
            requires { All (IsReady P.terms P.exports P.rules (A.setup answers.now) room.now
                queries.now.items lines.now.items) actors.items }
            ensures { IfOk result (λ all. HaveActed P.terms room.entry.now
                (map number_of actors.items) all.items) }
        {
            act_in(
                alloc, scope, rt, gate, helper, answers, room, queries, lines, actors,
            )
        },
    )
}
