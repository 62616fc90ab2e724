//! Runs a script over a configuration by threads, and writes the report of each phase when it has
//! ended. What threads can't run, one thread plays.
ghost use Rattle.std.specs.Prelude.{◌≡◌, All, length, MatchOption};
ghost use Rattle.std.specs.Io.KnownBytes.{Appends};
ghost use Rattle.std.specs.List.{flat_map};
ghost use Rattle.core_setup.specs.Setup.{IsSetup};
ghost use Rattle.outside_io.specs.Faults.{Rose};
ghost use Rattle.outside_io.specs.Whole.{WritesFront};
ghost use Rattle.report.specs.Report.{report_text, text_in};
ghost use Rattle.sys_build.specs.Setups.{IsPlayable};
ghost use Rattle.conf_system.specs.Coded.{AllCanRun, HasCode, CanRunOver};
ghost use Rattle.conf_system.specs.Seen.{system_of};
ghost use Rattle.phases_out.specs.Given.{AskWhatIs, FitTables, NameSome};
ghost use Rattle.phases_out.specs.Written.{AreRun, Ends, HasBegun, HasPlayed, text_so_far};
ghost use Rattle.birdcore_top.specs.Given.{phases_read, setup_read};

use crate::play::play_coded;
use bits_ip::OutOfMemory;
use conf_system::{Code, System};
use core_setup::laws::plays_are_legal;
use outside_io::{Gate, Sink};
use phases_out::{Ending, LentParts, run_all};
use report::Form;
use std::alloc::Global;
use std::hash::RandomState;
use std::random::RandomSource;
use std::sync::Wait;
use std::thread::Threads;
use sys_build::{ReadScript, parts};

/// Runs the script over the configuration, and writes the reports in this form.
///
/// They are those of some legal phases, one for each phase of the script: which ones isn't
/// promised. Each actor has a thread of its own, which passes the gate. Where there is more than
/// threads have room for, one thread does all lines in the order in which they are written, as
/// `play_phases` does. Want of memory is told as there.
pub(crate) fn run_phases<R: RandomSource + Threads + Wait + Sync, G: Gate + Sync, K: Sink>(
    rt: &R,
    alloc: Global,
    gate: &G,
    system: &System,
    cells: u32,
    form: Form,
    script: ReadScript,
    out: &mut K,
) -> Ending
    requires playable { IsPlayable (system_of system.now) }
    requires ordered { AllCanRun system.now }
    requires before { All (CanRunOver system.now) script.filters.items }
    requires setup { IsSetup (setup_read system.now script cells) }
    requires asked { AskWhatIs (length script.queries.items) (phases_read script) }
    requires named { NameSome (setup_read system.now script cells) (length script.actors.items)
        (phases_read script) }
    requires fits { FitTables (setup_read system.now script cells) (phases_read script) }
    ensures report { result ≡ Ending.Written
        → HasPlayed (AreRun (setup_read system.now script cells) script.actors.items)
        (phases_read script)
        (λ reports. Appends (K.contents out.old) (K.contents out.new) (report_text form reports)) }
    ensures front { result ≡ Ending.SinkFailed
        → HasBegun (AreRun (setup_read system.now script cells) script.actors.items)
        (phases_read script)
        (λ more reports.
        WritesFront (K.contents out.old) (K.contents out.new) (text_so_far form more reports)) }
    ensures begun { result ≡ Ending.OutOfMemory
        → HasBegun (AreRun (setup_read system.now script cells) script.actors.items)
        (phases_read script)
        (λ more reports.
        Appends (K.contents out.old) (K.contents out.new) (flat_map (text_in form) reports)) }
    ensures write { result ≡ Ending.SinkFailed → Rose (K.faults out.old) (K.faults out.new) }
{
    let Some(hasher) = RandomState::new(rt).ok() else {
        return Ending::OutOfMemory;
    };
    match system.code(alloc) {
        Ok(code) => {
            run_coded(
                rt, alloc, gate, hasher, system, &code, cells, form, script, out,
            )
        }
        Err(OutOfMemory) => Ending::OutOfMemory,
    }
}

/// Runs the script over the configuration and its code, and writes the reports.
fn run_coded<R: Threads + Wait + Sync, G: Gate + Sync, K: Sink>(
    rt: &R,
    alloc: Global,
    gate: &G,
    hasher: RandomState,
    system: &System,
    code: &Code,
    cells: u32,
    form: Form,
    script: ReadScript,
    out: &mut K,
) -> Ending
    requires playable { IsPlayable (system_of system.now) }
    requires code { HasCode system.now code.now }
    requires before { All (CanRunOver system.now) script.filters.items }
    requires setup { IsSetup (setup_read system.now script cells) }
    requires asked { AskWhatIs (length script.queries.items) (phases_read script) }
    requires named { NameSome (setup_read system.now script cells) (length script.actors.items)
        (phases_read script) }
    requires fits { FitTables (setup_read system.now script cells) (phases_read script) }
    ensures { Ends (AreRun (setup_read system.now script cells) script.actors.items)
        (phases_read script) form (K.contents out.old) (K.contents out.new) (K.faults out.old)
        (K.faults out.new) result }
{
    plays_are_legal();
    match run_by_threads(
        rt, alloc, gate, hasher, system, code, cells, form, &script, out,
    ) {
        Some(ending) => ending,
        None => play_coded(alloc, hasher, system, code, cells, form, script, out),
    }
}

/// The same by threads alone. Where they can't run it there is no ending, and nothing is written.
fn run_by_threads<R: Threads + Wait + Sync, G: Gate + Sync, K: Sink>(
    rt: &R,
    alloc: Global,
    gate: &G,
    hasher: RandomState,
    system: &System,
    code: &Code,
    cells: u32,
    form: Form,
    script: &ReadScript,
    out: &mut K,
) -> Option<Ending>
    requires playable { IsPlayable (system_of system.now) }
    requires code { HasCode system.now code.now }
    requires before { All (CanRunOver system.now) script.now.filters.items }
    requires setup { IsSetup (setup_read system.now script.now cells) }
    requires named { NameSome (setup_read system.now script.now cells)
        (length script.now.actors.items) (phases_read script.now) }
    requires fits { FitTables (setup_read system.now script.now cells) (phases_read script.now) }
    ensures { MatchOption result (out.new ≡ out.old)
        (Ends (AreRun (setup_read system.now script.now cells) script.now.actors.items)
        (phases_read script.now) form (K.contents out.old) (K.contents out.new)
        (K.faults out.old) (K.faults out.new)) }
{
    match parts(alloc, system, code, script.filters.as_slice()) {
        Ok(parts) => {
            let lent = LentParts {
                tables: parts.tables.as_slice(),
                protocols: parts.protocols.as_slice(),
                cells,
                choices: parts.choices.as_slice(),
                queries: &script.queries,
            };
            run_all(
                rt,
                alloc,
                gate,
                hasher,
                lent,
                form,
                script.actors.as_slice(),
                script.phases.as_slice(),
                out,
            )
        }
        Err(OutOfMemory) => Some(Ending::OutOfMemory),
    }
}
