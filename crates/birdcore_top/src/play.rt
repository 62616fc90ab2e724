//! Plays a script over a configuration, and writes the report of each phase when it has ended.
ghost use Rattle.std.specs.Prelude.{◌≡◌, All, length};
ghost use Rattle.std.specs.Io.KnownBytes.{Appends};
ghost use Rattle.std.specs.List.{flat_map};
ghost use Rattle.core_setup.specs.Setup.{IsSetup};
ghost use Rattle.outside_io.specs.Faults.{Rose};
ghost use Rattle.outside_io.specs.Whole.{WritesFront};
ghost use Rattle.report.specs.Report.{report_text, text_in};
ghost use Rattle.sys_build.specs.Setups.{IsPlayable};
ghost use Rattle.conf_system.specs.Coded.{AllCanRun, HasCode, CanRunOver};
ghost use Rattle.conf_system.specs.Seen.{system_of};
ghost use Rattle.phases_out.specs.Given.{AskWhatIs, FitTables};
ghost use Rattle.phases_out.specs.Written.{ArePlayed, Ends, HasBegun, HasPlayed, text_so_far};
ghost use Rattle.birdcore_top.specs.Given.{phases_read, setup_read};

use bits_ip::OutOfMemory;
use conf_system::{Code, System};
use outside_io::Sink;
use phases_out::{Ending, play_all};
use report::Form;
use std::alloc::Global;
use std::hash::RandomState;
use std::random::RandomSource;
use sys_build::{ReadScript, build};

/// Plays the script over the configuration, and writes the reports in this form: of each phase
/// those to which the machine comes on the lines as they are written. The journal of each table
/// holds so many changes.
///
/// With `OutOfMemory` the reports of the first phases may have been written, each whole. It comes
/// too where there are no random bytes, by which keys that others choose are hashed.
pub(crate) fn play_phases<R: RandomSource, K: Sink>(
    rt: &R,
    alloc: Global,
    system: &System,
    cells: u32,
    form: Form,
    script: ReadScript,
    out: &mut K,
) -> Ending
    requires playable { IsPlayable (system_of system.now) }
    requires ordered { AllCanRun system.now }
    requires before { All (CanRunOver system.now) script.filters.items }
    requires setup { IsSetup (setup_read system.now script cells) }
    requires asked { AskWhatIs (length script.queries.items) (phases_read script) }
    requires fits { FitTables (setup_read system.now script cells) (phases_read script) }
    ensures report { result ≡ Ending.Written
        → HasPlayed (ArePlayed (setup_read system.now script cells) script.actors.items)
        (phases_read script)
        (λ reports. Appends (K.contents out.old) (K.contents out.new) (report_text form reports)) }
    ensures front { result ≡ Ending.SinkFailed
        → HasBegun (ArePlayed (setup_read system.now script cells) script.actors.items)
        (phases_read script)
        (λ more reports.
        WritesFront (K.contents out.old) (K.contents out.new) (text_so_far form more reports)) }
    ensures begun { result ≡ Ending.OutOfMemory
        → HasBegun (ArePlayed (setup_read system.now script cells) script.actors.items)
        (phases_read script)
        (λ more reports.
        Appends (K.contents out.old) (K.contents out.new) (flat_map (text_in form) reports)) }
    ensures write { result ≡ Ending.SinkFailed → Rose (K.faults out.old) (K.faults out.new) }
{
    let Some(hasher) = RandomState::new(rt).ok() else {
        return Ending::OutOfMemory;
    };
    match system.code(alloc) {
        Ok(code) => play_coded(alloc, hasher, system, &code, cells, form, script, out),
        Err(OutOfMemory) => Ending::OutOfMemory,
    }
}

/// Plays the script over the configuration and its code, and writes the reports.
pub(crate) fn play_coded<K: Sink>(
    alloc: Global,
    hasher: RandomState,
    system: &System,
    code: &Code,
    cells: u32,
    form: Form,
    script: ReadScript,
    out: &mut K,
) -> Ending
    requires playable { IsPlayable (system_of system.now) }
    requires code { HasCode system.now code.now }
    requires before { All (CanRunOver system.now) script.filters.items }
    requires setup { IsSetup (setup_read system.now script cells) }
    requires asked { AskWhatIs (length script.queries.items) (phases_read script) }
    requires fits { FitTables (setup_read system.now script cells) (phases_read script) }
    ensures { Ends (ArePlayed (setup_read system.now script cells) script.actors.items)
        (phases_read script) form (K.contents out.old) (K.contents out.new) (K.faults out.old)
        (K.faults out.new) result }
{
    let ReadScript {
        phases,
        actors,
        queries,
        filters,
    } = script;
    let mut core = match build(
        alloc,
        hasher,
        system,
        code,
        filters.as_slice(),
        queries,
        cells,
    ) {
        Ok(core) => core,
        Err(OutOfMemory) => return Ending::OutOfMemory,
    };
    play_all(alloc, form, &mut core, &actors, phases, out)
}
