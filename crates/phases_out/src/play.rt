//! Has a core play phases, and writes the report of each when it has ended.
ghost use Rattle.std.specs.Prelude.{◌≤◌, [], length, map, IfErr, OnOk};
ghost use Rattle.core_setup.specs.Setup.{Setup};
ghost use Rattle.sys_run.specs.Playing as played;
ghost use Rattle.phases_out.specs.Given.{AskWhatIs, FitTables};
ghost use Rattle.phases_out.specs.Inside.{CutsOff, HasWritten, PlayedBy};
ghost use Rattle.phases_out.specs.Written.{ArePlayed, Ends};

use crate::ending::Ending;
use crate::output::{write_end, write_phase};
use attrs::Judge;
use outside_io::Sink;
use report::Form;
use script_lines::{Line, Name};
use std::alloc::Global;
use sys_run::Core;

/// Plays phases by a core that has played nothing, and writes the reports with the last line: of
/// each phase the one to which the machine comes on the lines as they are written.
pub fn play_all<J: Judge, K: Sink>(
    alloc: Global,
    form: Form,
    core: &mut Core<J>,
    actors: &[Name],
    phases: Vec<Vec<Line>>,
    out: &mut K,
) -> Ending
    requires { (setup : Setup) × played.HasPlayed J.verdict setup actors.now [] [] core.old
        × AskWhatIs (length setup.queries) (map (λ phase. phase.items) phases.items)
        × FitTables setup (map (λ phase. phase.items) phases.items) }
    ensures { (setup : Setup) → played.HasPlayed J.verdict setup actors.now [] [] core.old
        → Ends (ArePlayed setup actors.now) (map (λ phase. phase.items) phases.items) form
        (K.contents out.old) (K.contents out.new) (K.faults out.old) (K.faults out.new) result }
{
    match play_each(alloc, form, core, actors, phases, out) {
        Ok(()) => write_end(out),
        Err(ending) => ending,
    }
}

/// Plays the phases, and writes the report of each.
fn play_each<J: Judge, K: Sink>(
    alloc: Global,
    form: Form,
    core: &mut Core<J>,
    actors: &[Name],
    phases: Vec<Vec<Line>>,
    out: &mut K,
) -> Result<(), Ending>
    requires { (setup : Setup) × played.HasPlayed J.verdict setup actors.now [] [] core.old
        × AskWhatIs (length setup.queries) (map (λ phase. phase.items) phases.items)
        × FitTables setup (map (λ phase. phase.items) phases.items) }
    ensures played { OnOk result ((setup : Setup)
        → played.HasPlayed J.verdict setup actors.now [] [] core.old
        → HasWritten (PlayedBy J.verdict setup actors.now core.new) setup
        (map (λ phase. phase.items) phases.items) form (K.contents out.old) (K.contents out.new)) }
    ensures ends { IfErr result (λ ending. (setup : Setup)
        → played.HasPlayed J.verdict setup actors.now [] [] core.old
        → Ends (ArePlayed setup actors.now) (map (λ phase. phase.items) phases.items) form
        (K.contents out.old) (K.contents out.new) (K.faults out.old) (K.faults out.new)
        ending) }
    ensures cut { IfErr result CutsOff }
    ensures later { K.faults out.old ≤ K.faults out.new }
{
    for lines in phases {
        let report = core.play(actors, lines)?;
        write_phase(alloc, form, &report, out)?;
    }
    Ok(())
}
