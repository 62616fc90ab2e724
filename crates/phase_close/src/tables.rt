//! Tables are closed.
ghost use Rattle.std.specs.Prelude.{◌≡◌, ◌<◌, Some, length, slice_get, IfOk};
ghost use Rattle.std.specs.List.{AllByRecursion};
ghost use Rattle.jour.specs.Seats.{front, journal};
ghost use Rattle.phase_legal.specs.Shown.{AreBeside};
ghost use Rattle.table_shared.specs.Phases.{IsHeard, IsPhase};
ghost use Rattle.phase_close.specs.Closed.{TableList, all_lists};
ghost use Rattle.phase_close.specs.Whole.{ArePassesHeard};

use bits_ip::OutOfMemory;
use std::alloc::Global;
use std::sync::Wait;
use table_shared::{Closing, Phase, Table, TablePass};

/// The tables without their locks, which nobody else uses any more.
pub fn close_tables<R: Wait>(
    alloc: Global,
    rt: &R,
    tables: Vec<Table>,
) -> Result<Vec<Closing>, OutOfMemory>
    ensures { IfOk result (λ closings.
        AreBeside (λ table closing. journal closing ≡ table) tables.items closings.items) }
{
    let mut closings = Vec::new(alloc);
    for table in tables {
        let closing = table.close(rt);
        closings.push(closing)?;
    }
    Ok(closings)
}

/// Ends an actor's pass of the table of a number.
fn hear_at(closings: &mut Vec<Closing>, place: usize, mut pass: TablePass)
    requires inside { place < length closings.old.items }
    requires here { (l : TableList) → slice_get (all_lists closings.old.items) place ≡ Some l
        → journal pass ≡ l.0 }
    ensures same { all_lists closings.new.items ≡ all_lists closings.old.items }
    ensures heard { (l : TableList) → slice_get (all_lists closings.old.items) place ≡ Some l
        → IsHeard l.0.1 l.1 pass.1 }
{
    closings[place].hear_pass(&mut pass);
}

/// Ends an actor's passes, one of each table: what they have seen begins what stands there.
pub fn hear_actor(closings: &mut Vec<Closing>, passes: Vec<TablePass>)
    requires { AreBeside (λ l pass. journal pass ≡ l.0) (all_lists closings.old.items)
        passes.items }
    ensures same { all_lists closings.new.items ≡ all_lists closings.old.items }
    ensures heard { AreBeside (λ l pass. IsHeard l.0.1 l.1 pass.1)
        (all_lists closings.old.items) passes.items }
{
    let mut place: usize = 0;
    for pass in passes {
        hear_at(closings, place, pass);
        place += 1;
    }
}

/// The same for all actors.
pub fn hear_actors(closings: &mut Vec<Closing>, actors: Vec<Vec<TablePass>>)
    requires { AllByRecursion (λ passes. AreBeside (λ l pass. journal pass ≡ l.0)
        (all_lists closings.old.items) passes.items) actors.items }
    ensures same { all_lists closings.new.items ≡ all_lists closings.old.items }
    ensures heard { AllByRecursion (ArePassesHeard (all_lists closings.old.items)) actors.items }
{
    for passes in actors {
        hear_actor(closings, passes);
    }
}

/// What the phase has made of each table.
pub fn end_tables(alloc: Global, closings: Vec<Closing>) -> Result<Vec<Phase>, OutOfMemory>
    ensures { IfOk result (λ phases.
        AreBeside (λ closing phase. IsPhase closing.1.seen.terms (front closing.1) phase)
        closings.items phases.items) }
{
    let mut phases = Vec::new(alloc);
    for closing in closings {
        let phase = closing.phase();
        phases.push(phase)?;
    }
    Ok(phases)
}
