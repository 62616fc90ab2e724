//! Static protocols start, and then all actors do their lines, while workers serve channels and
//! pipes.
ghost use Rattle.std.specs.Prelude.{◌≡◌, ◌<◌, ℕ, [], length, IfOk};
ghost use Rattle.std.specs.List.{All};
ghost use Rattle.room_actors.specs.Script.{IsScript};
ghost use Rattle.room_members.specs.Members.{IsRoom};
ghost use Rattle.room_run.specs.Inside.{AreNew, AreStartSeats, HaveAllActed, HaveStarted};
ghost use Rattle.room_ends.specs.Played.{starts_of};

use crate::starting::start_all;
use attrs::Judge;
use bits_ip::OutOfMemory;
use export_lock::Sends;
use import_lock::{Hand, OpFault, Phase};
use outside_io::Gate;
use phase_actors::{Actor, Answers};
use room_members::Room;
use room_threads::{Acted, act_and_serve};
use room_workers::{Channels, Help};
use script_lines::Line;
use show_route::Query;
use std::alloc::Global;
use std::sync::Wait;
use std::thread::Threads;
use table_shared::{TableCursor, TablePass};

/// What comes back once all threads have returned.
#[derive(Drop)]
pub(crate) struct Through {
    /// The actors, by number.
    pub all: Vec<Acted>,
    /// By channel its cursors of tables that it doesn't read.
    pub spares: Vec<Vec<TableCursor>>,
}

/// All actors do their lines, while workers and helps have the room's channels and pipes go on.
fn act_all<
    R: Threads + Wait + Sync,
    G: Gate + Sync,
    A: Answers + Sync,
    J: Judge + Drop + Send,
    P: Phase + Sends + Send,
>(
    alloc: Global,
    rt: &R,
    gate: &G,
    answers: &A,
    room: &Room<J, P>,
    channels: &Channels,
    queries: &Vec<Query>,
    lines: &Vec<Line>,
    actors: Vec<Actor>,
) -> Result<Vec<Acted>, OutOfMemory>
    requires room { IsRoom P.terms P.exports P.rules room.now }
    requires script { IsScript P.terms room.now queries.now.items lines.now.items }
    requires setup { A.setup answers.now ≡ (P.terms room.now.played.value).setup }
    requires actors { AreNew P.terms room.now actors.items }
    ensures { IfOk result (λ all. HaveAllActed P.terms room.now all.items) }
{
    let help = Help {
        alloc,
        room,
        channels,
    };
    let all = act_and_serve(
        alloc, rt, gate, &help, answers, room, channels, queries, lines, actors,
    )?;
    Ok(all)
}

/// The same, with want of memory as a fault.
fn act_or_fault<
    R: Threads + Wait + Sync,
    G: Gate + Sync,
    A: Answers + Sync,
    J: Judge + Drop + Send,
    P: Phase + Sends + Send,
>(
    alloc: Global,
    rt: &R,
    gate: &G,
    answers: &A,
    room: &Room<J, P>,
    channels: &Channels,
    queries: &Vec<Query>,
    lines: &Vec<Line>,
    actors: Vec<Actor>,
) -> Result<Vec<Acted>, OpFault>
    requires room { IsRoom P.terms P.exports P.rules room.now }
    requires script { IsScript P.terms room.now queries.now.items lines.now.items }
    requires setup { A.setup answers.now ≡ (P.terms room.now.played.value).setup }
    requires actors { AreNew P.terms room.now actors.items }
    ensures { IfOk result (λ all. HaveAllActed P.terms room.now all.items) }
{
    match act_all(
        alloc, rt, gate, answers, room, channels, queries, lines, actors,
    ) {
        Ok(all) => Ok(all),
        Err(_) => Err(OpFault::Memory),
    }
}

/// The channels of a room, with these spare cursors.
fn find_channels<R: Wait, J: Judge + Drop, P: Phase + Sends>(
    alloc: Global,
    rt: &R,
    room: &Room<J, P>,
    spares: Vec<Vec<TableCursor>>,
) -> Result<Channels, OpFault> {
    match Channels::of(alloc, rt, room, spares) {
        Ok(channels) => Ok(channels),
        Err(_) => Err(OpFault::Memory),
    }
}

/// The spare cursors of channels that nobody serves any more.
fn take_spares<R: Wait>(
    alloc: Global,
    rt: &R,
    channels: Channels,
) -> Result<Vec<Vec<TableCursor>>, OpFault> {
    match channels.into_spares(rt, alloc) {
        Ok(spares) => Ok(spares),
        Err(_) => Err(OpFault::Memory),
    }
}

/// Static protocols start, and all actors hear of it.
fn start_protocols<R: Wait, G: Gate, J: Judge + Drop, P: Phase + Sends>(
    alloc: Global,
    rt: &R,
    gate: &G,
    room: &Room<J, P>,
    channels: &Channels,
    statics: &[u32],
    starters: &mut Vec<Hand>,
    passes: &mut Vec<TablePass>,
    actors: &mut Vec<Actor>,
) -> Result<(), OpFault>
    requires room { IsRoom P.terms P.exports P.rules room.now }
    requires there { All (λ (number : ℕ). number < length room.now.members.items) statics.now }
    requires seats { AreStartSeats P.terms room.now starters.old.items passes.old.items }
    requires none { HaveStarted (P.terms room.now.played.value).starter (starts_of [])
        starters.old.items }
    requires actors { AreNew P.terms room.now actors.old.items }
    ensures seats { IfOk result (λ _.
        AreStartSeats P.terms room.now starters.new.items passes.new.items) }
    ensures actors { IfOk result (λ _. AreNew P.terms room.now actors.new.items) }
    ensures started { IfOk result (λ _. HaveStarted (P.terms room.now.played.value).starter
        (starts_of statics.now) starters.new.items) }
{
    let help = Help {
        alloc,
        room,
        channels,
    };
    start_all(rt, gate, &help, room, statics, starters, passes, actors)
}

/// Static protocols start, and then all actors do their lines. The spare cursors are lent to those
/// who help, and come back.
pub(crate) fn start_and_act<
    R: Threads + Wait + Sync,
    G: Gate + Sync,
    A: Answers + Sync,
    J: Judge + Drop + Send,
    P: Phase + Sends + Send,
>(
    alloc: Global,
    rt: &R,
    gate: &G,
    answers: &A,
    room: &Room<J, P>,
    spares: Vec<Vec<TableCursor>>,
    queries: &Vec<Query>,
    lines: &Vec<Line>,
    statics: &[u32],
    actors: Vec<Actor>,
    starters: &mut Vec<Hand>,
    passes: &mut Vec<TablePass>,
) -> Result<Through, OpFault>
    requires room { IsRoom P.terms P.exports P.rules room.now }
    requires script { IsScript P.terms room.now queries.now.items lines.now.items }
    requires setup { A.setup answers.now ≡ (P.terms room.now.played.value).setup }
    requires actors { AreNew P.terms room.now actors.items }
    requires there { All (λ (number : ℕ). number < length room.now.members.items) statics.now }
    requires seats { AreStartSeats P.terms room.now starters.old.items passes.old.items }
    requires none { HaveStarted (P.terms room.now.played.value).starter (starts_of [])
        starters.old.items }
    ensures acted { IfOk result (λ through. HaveAllActed P.terms room.now through.all.items) }
    ensures seats { IfOk result (λ _.
        AreStartSeats P.terms room.now starters.new.items passes.new.items) }
    ensures started { IfOk result (λ _. HaveStarted (P.terms room.now.played.value).starter
        (starts_of statics.now) starters.new.items) }
{
    let channels = find_channels(alloc, rt, room, spares)?;
    let mut actors = actors;
    start_protocols(
        alloc,
        rt,
        gate,
        room,
        &channels,
        statics,
        starters,
        passes,
        &mut actors,
    )?;
    let all = act_or_fault(
        alloc, rt, gate, answers, room, &channels, queries, lines, actors,
    )?;
    let spares = take_spares(alloc, rt, channels)?;
    Ok(Through { all, spares })
}
