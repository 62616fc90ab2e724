//! An actor is told of a table.
ghost use Rattle.std.specs.Prelude.{◌≡◌, ◌<◌, ◌++◌, ◌∷◌, [], Some, length, slice_get, IfOk};
ghost use Rattle.core_setup.specs.Setup.{FitsQuery};
ghost use Rattle.phase_legal.specs.Shown.{AreBeside};
ghost use Rattle.phase_actors.specs.Acting.{IsPassOf, IsSeated};
ghost use Rattle.phase_actors.specs.Steps.{Does, IsAnswered, showing};
ghost use Rattle.room_members.specs.Members.{room_seen};
ghost use Rattle.sys_run.specs.Scripts.{asked_table};
ghost use Rattle.room_actors.specs.Script.{CanShow};

use attrs::Judge;
use export_lock::Sends;
use import_lock::{OpFault, Phase};
use phase_actors::{Actor, Answers, Told};
use room_members::Room;
use show_route::Query;
use std::sync::Wait;
use table_shared::{Table, TablePass};

/// Answers the query of a number over its table, as it stands at the head that the pass loads.
fn answer<R: Wait, A: Answers>(
    rt: &R,
    answers: &A,
    tables: &Vec<Table>,
    passes: &mut Vec<TablePass>,
    number: u32,
    query: &Query,
) -> Result<Told, OpFault>
    requires query { slice_get (A.setup answers.now).queries number ≡ Some query.now }
    requires fits { FitsQuery (A.setup answers.now).tables (A.setup answers.now).protocols
        (A.setup answers.now).choices query.now }
    requires table { query.now.table < length tables.now.items }
    requires passes { AreBeside IsPassOf tables.now.items passes.old.items }
    ensures passes { AreBeside IsPassOf tables.now.items passes.new.items }
    ensures answered { IfOk result (λ told. IsAnswered (A.setup answers.now) number
        passes.old.items passes.new.items told) }
{
    let table = &tables[query.table as usize];
    let pass = &mut passes[query.table as usize];
    let Ok(view) = table.snapshot(rt, pass, &query.pick) else {
        return Err(OpFault::Memory);
    };
    let Ok(text) = answers.answer(query, view.rows.as_slice(), view.total) else {
        return Err(OpFault::Memory);
    };
    Ok(Told {
        query: number,
        table: query.table,
        at: view.at,
        text,
    })
}

/// Keeps what an actor was told, behind all that it was told before.
fn note(replies: &mut Vec<Told>, told: Told) -> Result<(), OpFault>
    ensures { IfOk result (λ _. replies.new.items ≡ replies.old.items ++ told ∷ []) }
{
    match replies.push(told) {
        Ok(()) => Ok(()),
        Err(_) => Err(OpFault::Memory),
    }
}

/// A line that asks for a table, where it is the actor's.
pub fn show_line<R: Wait, A: Answers, J: Judge + Drop, P: Phase + Sends>(
    rt: &R,
    answers: &A,
    room: &Room<J, P>,
    queries: &[Query],
    actor: &mut Actor,
    place: u32,
    asker: u32,
    number: u32,
) -> Result<(), OpFault>
    requires setup { A.setup answers.now ≡ (P.terms room.now.played.value).setup }
    requires queries { (P.terms room.now.played.value).setup.queries ≡ queries.now }
    requires can { CanShow P.terms room.now number }
    requires seats { IsSeated (room_seen P.terms room.now) actor.old }
    ensures number { actor.new.number ≡ actor.old.number }
    ensures seats { IsSeated (room_seen P.terms room.now) actor.new }
    ensures does { IfOk result (λ _.
        Does (P.terms room.now.played.value).setup (room_seen P.terms room.now) place
        (showing asker (asked_table queries.now number) number) actor.old actor.new) }
{
    if asker != actor.number {
        return Ok(());
    }
    let query = &queries[number as usize];
    let told = answer(rt, answers, &room.tables, &mut actor.passes, number, query)?;
    note(&mut actor.replies, told)
}
