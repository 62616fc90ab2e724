//! Has a runner run phases by threads, and writes the report of each when it has ended.
ghost use Rattle.std.specs.Prelude.{◌≡◌, ◌≤◌, ◌<◌, ◌^◌, [], All, Err, List, length, map, IfErr, IfOk, MatchOption, OnOk};
ghost use Rattle.std.specs.Io.KnownBytes.{Appends, Keeps};
ghost use Rattle.std.specs.declared.alloc.Global.{Global as Heap};
ghost use Rattle.std.specs.declared.vec.Vec.{Vec as Held};
ghost use Rattle.core_machine.specs.Lines.{Line as MachineLine};
ghost use Rattle.core_setup.specs.Plays.{IsLegalPlay};
ghost use Rattle.core_setup.specs.Setup.{IsSetup, Setup};
ghost use Rattle.outside_io.specs.Faults.{Rose};
ghost use Rattle.outside_io.specs.Whole.{WritesFront};
ghost use Rattle.report.specs.Report.{text_in};
ghost use Rattle.report.specs.declared.phase.PhaseReport.{PhaseReport as Report};
ghost use Rattle.script_lines.specs.declared.script.Line.{Line as HeldLine};
ghost use Rattle.sys_threads.specs.Playing.{setup_lent};
ghost use Rattle.sys_threads.specs.Running.{CanPlay, HasRun};
ghost use Rattle.sys_threads.specs.declared.runner.Runner.{Runner as HeldRunner};
ghost use Rattle.phases_out.specs.Given.{FitTables, NameSome};
ghost use Rattle.phases_out.specs.Inside.{CutsOff, HasWritten, RunsOne};
ghost use Rattle.phases_out.specs.Written.{AreRun, Ends};
ghost use Rattle.phases_out.specs.declared.ending.Ending.TheVariants.{OutOfMemory as WantOfMemory};

use crate::ending::Ending;
use crate::output::{write_end, write_phase};
use attrs::Judge;
use bits_ip::OutOfMemory;
use outside_io::{Gate, Sink};
use report::Form;
use script_lines::{Line, Name};
use std::alloc::Global;
use std::hash::RandomState;
use std::sync::Wait;
use std::thread::Threads;
use sys_threads::{LentParts, RunFault, Runner, can_run};

impl From<RunFault> for Ending {
    ghost from_gives = { λ _ ending. ending ≡ WantOfMemory };

    fn from(fault: RunFault) -> Self {
        match fault {
            // So many positions don't fit in memory.
            RunFault::Ended { .. } => Ending::OutOfMemory,
            RunFault::Memory => Ending::OutOfMemory,
        }
    }
}

/// Runs phases over what is lent, and writes the reports with the last line: those of some legal
/// phases, one for each. Each actor has a thread of its own, which passes the gate.
///
/// Where there is more than threads have room for, there is no ending, and nothing is written.
pub fn run_all<'p, R: Threads + Wait + Sync, G: Gate + Sync, J: Judge + Drop + Sync, K: Sink>(
    rt: &R,
    alloc: Global,
    gate: &G,
    hasher: RandomState,
    lent: LentParts<'p, J>,
    form: Form,
    actors: &[Name],
    phases: &[Vec<Line>],
    out: &mut K,
) -> Option<Ending>
    requires start { (setup : Setup) × (setup_lent J.verdict lent ≡ setup) × IsSetup setup
        × NameSome setup (length actors.now) (map (λ phase. phase.items) phases.now)
        × FitTables setup (map (λ phase. phase.items) phases.now) }
    ensures { (setup : Setup) → setup_lent J.verdict lent.entry ≡ setup
        → MatchOption result (out.new ≡ out.old)
        (Ends (AreRun setup actors.now) (map (λ phase. phase.items) phases.now) form
        (K.contents out.old) (K.contents out.new) (K.faults out.old) (K.faults out.new)) }
{
    if !can_run(&lent, actors.len(), phases) {
        return None;
    }
    match Runner::of(alloc, hasher, lent, actors.len()) {
        Ok(runner) => Some(run_by_runner(rt, alloc, gate, form, runner, actors, phases, out)),
        Err(OutOfMemory) => Some(Ending::OutOfMemory),
    }
}

/// Runs phases by a runner that has run nothing, and writes the reports with the last line.
fn run_by_runner<'p, R: Threads + Wait + Sync, G: Gate + Sync, J: Judge + Drop + Sync, K: Sink>(
    rt: &R,
    alloc: Global,
    gate: &G,
    form: Form,
    runner: Runner<'p, J>,
    actors: &[Name],
    phases: &[Vec<Line>],
    out: &mut K,
) -> Ending
    requires start { (setup : Setup) × HasRun J.verdict setup actors.now [] [] runner
        × NameSome setup (length actors.now) (map (λ phase. phase.items) phases.now)
        × FitTables setup (map (λ phase. phase.items) phases.now)
        × All (λ (phase : Held HeldLine Heap). length phase.items < 2 ^ 32) phases.now }
    ensures { (setup : Setup) → HasRun J.verdict setup actors.now [] [] runner.entry
        → Ends (AreRun setup actors.now) (map (λ phase. phase.items) phases.now) form
        (K.contents out.old) (K.contents out.new) (K.faults out.old) (K.faults out.new) result }
{
    match run_each(rt, alloc, gate, form, runner, actors, phases, out) {
        Ok(()) => write_end(out),
        Err(ending) => ending,
    }
}

/// Runs the phases, and writes the report of each.
fn run_each<'p, R: Threads + Wait + Sync, G: Gate + Sync, J: Judge + Drop + Sync, K: Sink>(
    rt: &R,
    alloc: Global,
    gate: &G,
    form: Form,
    runner: Runner<'p, J>,
    actors: &[Name],
    phases: &[Vec<Line>],
    out: &mut K,
) -> Result<(), Ending>
    requires start { (setup : Setup) × HasRun J.verdict setup actors.now [] [] runner
        × NameSome setup (length actors.now) (map (λ phase. phase.items) phases.now)
        × FitTables setup (map (λ phase. phase.items) phases.now)
        × All (λ (phase : Held HeldLine Heap). length phase.items < 2 ^ 32) phases.now }
    ensures run { OnOk result ((setup : Setup)
        → HasRun J.verdict setup actors.now [] [] runner.entry
        → HasWritten (IsLegalPlay setup actors.now) setup (map (λ phase. phase.items) phases.now)
        form (K.contents out.old) (K.contents out.new)) }
    ensures stopped { IfErr result (λ ending. (setup : Setup)
        → HasRun J.verdict setup actors.now [] [] runner.entry
        → Ends (AreRun setup actors.now) (map (λ phase. phase.items) phases.now) form
        (K.contents out.old) (K.contents out.new) (K.faults out.old) (K.faults out.new)
        ending) }
    ensures cut { IfErr result CutsOff }
    ensures later { K.faults out.old ≤ K.faults out.new }
{
    let mut runner = runner;
    for lines in phases {
        runner = run_phase(rt, alloc, gate, form, runner, actors, lines, out)?;
    }
    Ok(())
}

/// Runs one phase more, and writes its report.
fn run_phase<'p, R: Threads + Wait + Sync, G: Gate + Sync, J: Judge + Drop + Sync, K: Sink>(
    rt: &R,
    alloc: Global,
    gate: &G,
    form: Form,
    runner: Runner<'p, J>,
    actors: &[Name],
    lines: &Vec<Line>,
    out: &mut K,
) -> Result<Runner<'p, J>, Ending>
    requires { (setup : Setup) × (scripts : List (List MachineLine)) × (reports : List Report)
        × HasRun J.verdict setup actors.now scripts reports runner
        × CanPlay setup (length actors.now) lines.now.items }
    ensures run { IfOk result (λ next.
        RunsOne J.verdict actors.now lines.now.items runner.entry next
        (λ report. Appends (K.contents out.old) (K.contents out.new) (text_in form report))) }
    ensures cut { IfErr result CutsOff }
    ensures front { result ≡ Err Ending.SinkFailed → (next : HeldRunner J)
        × RunsOne J.verdict actors.now lines.now.items runner.entry next
        (λ report. WritesFront (K.contents out.old) (K.contents out.new) (text_in form report)) }
    ensures nothing { result ≡ Err Ending.OutOfMemory
        → Keeps (K.contents out.old) (K.contents out.new) }
    ensures write { result ≡ Err Ending.SinkFailed
        → Rose (K.faults out.old) (K.faults out.new) }
    ensures later { K.faults out.old ≤ K.faults out.new }
{
    let (report, next) = runner.play(rt, gate, actors, lines)?;
    write_phase(alloc, form, &report, out)?;
    Ok(next)
}
