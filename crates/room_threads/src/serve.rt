//! Workers serve channels and pipes while the actors act.
ghost use Rattle.std.specs.Prelude.{map, IfOk};
ghost use Rattle.std.specs.List.{All};
ghost use Rattle.room_members.specs.Members.{IsRoom};
ghost use Rattle.room_threads.specs.Acted.{IsReady};
ghost use Rattle.room_threads.specs.Started.{HaveActed, number_of};

use crate::actor::Acted;
use crate::all::act_in;
use attrs::Judge;
use bits_ip::OutOfMemory;
use export_lock::Sends;
use import_lock::{Helper, OpFault, Phase};
use outside_io::Gate;
use phase_actors::{Actor, Answers};
use room_members::Room;
use room_workers::{Bell, Channels, serve};
use script_lines::Line;
use show_route::Query;
use std::alloc::Global;
use std::sync::Wait;
use std::thread;
use std::thread::{JoinHandle, Scope, Threads};

/// The thread of the worker of a number, if it has a channel to serve and one can be started.
fn start_worker<
    's,
    E,
    R: Wait + Sync,
    G: Gate + Sync,
    J: Judge + Drop + Send,
    P: Phase + Sends + Send,
>(
    alloc: Global,
    scope: &Scope<'s, E>,
    rt: &'s R,
    gate: &'s G,
    room: &'s Room<J, P>,
    channels: &'s Channels,
    worker: usize,
    bell: &'s Bell,
) -> Option<JoinHandle<Result<(), OpFault>>>
    requires room { IsRoom P.terms P.exports P.rules room.now }
{
    if worker >= channels.count() {
        return None;
    }
    match scope.spawn(
        move || -> Result<(), OpFault>
            requires { IsRoom P.terms P.exports P.rules room.now }
        { serve(alloc, rt, gate, room, channels, worker, bell) },
    ) {
        Ok(handle) => Some(handle),
        Err(_) => None,
    }
}

/// Waits for a worker, if there is one. What it could not do, for want of memory or where a table
/// has no position left, is left to whoever settles its channels.
fn finish_worker<R: Threads>(rt: &R, worker: Option<JoinHandle<Result<(), OpFault>>>) {
    if let Some(handle) = worker {
        let _ = handle.join(rt);
    }
}

/// Tells all workers that the actors have ended.
fn ring_all(bells: &[Bell]) {
    for bell in bells {
        bell.ring();
    }
}

/// All actors do their lines as by `act_all`, while four workers serve the channels, a pipe's
/// directions among them. A worker whose thread can't be started leaves its channels to helps and
/// to whoever settles them.
pub fn act_and_serve<
    R: Threads + Wait + Sync,
    G: Gate + Sync,
    H: Helper + Sync,
    A: Answers + Sync,
    J: Judge + Drop + Send,
    P: Phase + Sends + Send,
>(
    alloc: Global,
    rt: &R,
    gate: &G,
    helper: &H,
    answers: &A,
    room: &Room<J, P>,
    channels: &Channels,
    queries: &Vec<Query>,
    lines: &Vec<Line>,
    actors: Vec<Actor>,
) -> Result<Vec<Acted>, OutOfMemory>
    requires room { IsRoom P.terms P.exports P.rules room.now }
    requires ready { All (IsReady P.terms P.exports P.rules (A.setup answers.now) room.now
        queries.now.items lines.now.items) actors.items }
    ensures { IfOk result (λ all.
        HaveActed P.terms room.now (map number_of actors.items) all.items) }
{
    let bells = [Bell::new(), Bell::new(), Bell::new(), Bell::new()];
    let bells = &bells;
    thread::scope(
        thread::scope_env(),
        rt,
        |scope| -> Result<Vec<Acted>, OutOfMemory>
            requires { IsRoom P.terms P.exports P.rules room.now
                × All (IsReady P.terms P.exports P.rules (A.setup answers.now) room.now
                queries.now.items lines.now.items) actors.items }
            ensures { IfOk result (λ all. HaveActed P.terms room.entry.now
                (map number_of actors.items) all.items) }
        {
            let one = start_worker(alloc, scope, rt, gate, room, channels, 0, &bells[0]);
            let two = start_worker(alloc, scope, rt, gate, room, channels, 1, &bells[1]);
            let three = start_worker(alloc, scope, rt, gate, room, channels, 2, &bells[2]);
            let four = start_worker(alloc, scope, rt, gate, room, channels, 3, &bells[3]);
            let all = act_in(
                alloc, scope, rt, gate, helper, answers, room, queries, lines, actors,
            );
            ring_all(bells);
            finish_worker(rt, one);
            finish_worker(rt, two);
            finish_worker(rt, three);
            finish_worker(rt, four);
            all
        },
    )
}
