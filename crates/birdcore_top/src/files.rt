//! Reads the files that the words name: the configuration, and the script over it.
ghost use Rattle.std.specs.Prelude.{◌≡◌, ◌≤◌, ℕ, All, List, Err, map, length, IsTrue, IfOk, IfErr, IfSome, IsErrAnd};
ghost use Rattle.core_setup.specs.Setup.{IsSetup};
ghost use Rattle.outside_io.specs.Faults.{Rose, NoneFell};
ghost use Rattle.outside_io.specs.Whole.{IsLong, IsWhole};
ghost use Rattle.sys_build.specs.Scripts.{Accepted, Answers};
ghost use Rattle.sys_build.specs.Setups.{IsPlayable};
ghost use Rattle.conf_system.specs.Coded.{AllCanRun, CanRunOver};
ghost use Rattle.conf_system.specs.Seen.{filter_says, system_of};
ghost use Rattle.birdcore_top.specs.Outcome.{OverLimit, Played, Configures, ConfGives, IsConfigured, PlayGives, ScriptGives};
ghost use Rattle.birdcore_top.specs.Answer.{AreMissedInTurn, IsMissed, FindsLackedBy, IsReadStatus, Stops};
ghost use Rattle.phases_out.specs.Given.{AskWhatIs, FitTables, NameSome};
ghost use Rattle.birdcore_top.specs.Given.{phases_read, setup_read};

use crate::status::Status;
use conf_system::{System, read_system};
use outside_io::{ReadError, Shelf, read_whole};
use std::alloc::Global;
use sys_build::laws::{
    accepted_scripts_are_setups, accepted_scripts_fit_their_tables, accepted_scripts_name_what_is,
    names_count_as_the_setup,
};
use sys_build::{ReadScript, read_script};

/// What the two files say.
#[derive(Drop)]
pub(crate) struct Files {
    pub(crate) system: System,
    pub(crate) script: ReadScript,
}

/// Reads the two files, the configuration first. The script may schedule or may not.
pub(crate) fn read_files<F: Shelf>(
    alloc: Global,
    conf: &str,
    script: &str,
    schedule: bool,
    shelf: &mut F,
) -> Result<Files, Status>
    ensures files { IfOk result (λ files. (cells : ℕ)
        → PlayGives IfSome schedule conf.now script.now cells (F.held shelf.old)
        (Played (setup_read files.system files.script cells) files.script.actors.items
        (phases_read files.script))) }
    ensures playable { IfOk result (λ files. IsPlayable (system_of files.system)) }
    ensures ordered { IfOk result (λ files. AllCanRun files.system) }
    ensures before { IfOk result (λ files.
        All (CanRunOver files.system) files.script.filters.items) }
    ensures setup { IfOk result (λ files. (cells : ℕ)
        → IsSetup (setup_read files.system files.script cells)) }
    ensures asked { IfOk result (λ files.
        AskWhatIs (length files.script.queries.items) (phases_read files.script)) }
    ensures named { IfOk result (λ files. (cells : ℕ)
        → NameSome (setup_read files.system files.script cells) (length files.script.actors.items)
        (phases_read files.script)) }
    ensures fits { IfOk result (λ files. (cells : ℕ)
        → FitTables (setup_read files.system files.script cells) (phases_read files.script)) }
    ensures stopped { IfErr result (Stops (λ o. (cells : ℕ)
        → PlayGives IfSome schedule conf.now script.now cells (F.held shelf.old) o)) }
    ensures read { result ≡ Err Status.ReadFault → Rose (F.faults shelf.old) (F.faults shelf.new) }
    ensures in_turn { result ≡ Err Status.ReadFault
        → AreMissedInTurn conf.now script.now (F.held shelf.old)
        (F.missed shelf.old) (F.missed shelf.new) }
    ensures absent { FindsLackedBy conf.now script.now (F.lacks shelf.old) (F.held shelf.old)
        result }
{
    accepted_scripts_are_setups();
    accepted_scripts_name_what_is();
    accepted_scripts_fit_their_tables();
    names_count_as_the_setup();
    let system = read_conf(alloc, conf, shelf)?;
    let script = read_lines(alloc, &system, script, schedule, shelf)?;
    Ok(Files { system, script })
}

/// Reads the configuration of this name.
pub(crate) fn read_conf<F: Shelf>(
    alloc: Global,
    name: &str,
    shelf: &mut F,
) -> Result<System, Status>
    ensures config { IfOk result
        (λ system. IfSome (F.held shelf.old name.now) (Configures (system_of system))) }
    ensures configured { IfOk result (λ system. IsConfigured (system_of system)) }
    ensures ordered { IfOk result AllCanRun }
    ensures stopped { IfErr result (Stops (ConfGives IfSome name.now (F.held shelf.old name.now))) }
    ensures read { result ≡ Err Status.ReadFault → Rose (F.faults shelf.old) (F.faults shelf.new) }
    ensures by_name { result ≡ Err Status.ReadFault
        → Rose (F.missed shelf.old name.now) (F.missed shelf.new name.now) }
    ensures absent { IsTrue (F.lacks shelf.old name.now) → IsErrAnd result IsMissed }
    ensures later { F.faults shelf.old ≤ F.faults shelf.new }
    ensures none_fell { NoneFell (F.missed shelf.old) (F.missed shelf.new) }
    ensures held { F.held shelf.new ≡ F.held shelf.old }
    ensures lacks { F.lacks shelf.new ≡ F.lacks shelf.old }
{
    let bytes = read_file(alloc, name, shelf)?;
    let system = read_system(alloc, &bytes)?;
    Ok(system)
}

/// Reads the script of this name over the configuration.
fn read_lines<F: Shelf>(
    alloc: Global,
    system: &System,
    name: &str,
    schedule: bool,
    shelf: &mut F,
) -> Result<ReadScript, Status>
    requires { IsConfigured (system_of system.now) }
    ensures script { IfOk result (λ script. (cells : ℕ)
        → ScriptGives IfSome (system_of system.now) schedule cells name.now (F.held shelf.old name.now)
        (Played (setup_read system.now script cells) script.actors.items
        (phases_read script))) }
    ensures answers { IfOk result (λ script. (text : List ℕ) × Answers (system_of system.now) schedule
        text
        (Accepted (phases_read script) script.actors.items script.queries.items
        (map (filter_says system.now) script.filters.items))) }
    ensures before { AllCanRun system.now
        → IfOk result (λ script. All (CanRunOver system.now) script.filters.items) }
    ensures stopped { IfErr result (Stops (λ o. (cells : ℕ)
        → ScriptGives IfSome (system_of system.now) schedule cells name.now
        (F.held shelf.old name.now) o)) }
    ensures read { result ≡ Err Status.ReadFault → Rose (F.faults shelf.old) (F.faults shelf.new) }
    ensures by_name { result ≡ Err Status.ReadFault
        → Rose (F.missed shelf.old name.now) (F.missed shelf.new name.now) }
    ensures absent { IsTrue (F.lacks shelf.old name.now) → IsErrAnd result IsMissed }
    ensures later { F.faults shelf.old ≤ F.faults shelf.new }
    ensures none_fell { NoneFell (F.missed shelf.old) (F.missed shelf.new) }
{
    let bytes = read_file(alloc, name, shelf)?;
    let script = read_script(alloc, &bytes, system, schedule)?;
    Ok(script)
}

/// Reads a file to its end.
fn read_file<F: Shelf>(alloc: Global, name: &str, shelf: &mut F) -> Result<Vec<u8>, Status>
    ensures whole { IfOk result (λ bytes. IsWhole (F.held shelf.old name.now) bytes.items) }
    ensures stopped { IfErr result
        (Stops (λ o. (o ≡ OverLimit name.now) × IfSome (F.held shelf.old name.now) IsLong)) }
    ensures read { result ≡ Err Status.ReadFault → Rose (F.faults shelf.old) (F.faults shelf.new) }
    ensures by_name { result ≡ Err Status.ReadFault
        → Rose (F.missed shelf.old name.now) (F.missed shelf.new name.now) }
    ensures absent { IsTrue (F.lacks shelf.old name.now) → IsErrAnd result IsMissed }
    ensures later { F.faults shelf.old ≤ F.faults shelf.new }
    ensures none_fell { NoneFell (F.missed shelf.old) (F.missed shelf.new) }
    ensures held { F.held shelf.new ≡ F.held shelf.old }
    ensures lacks { F.lacks shelf.new ≡ F.lacks shelf.old }
{
    match read_whole(alloc, shelf, name) {
        Ok(bytes) => Ok(bytes),
        Err(error) => Err(status_of(alloc, name, error)),
    }
}

/// The answer where the file of this name isn't read to its end.
fn status_of(alloc: Global, name: &str, error: ReadError) -> Status
    ensures { IsReadStatus name.now error result }
{
    match error {
        ReadError::Failed => Status::ReadFault,
        ReadError::TooLong => match String::from_str(alloc, name) {
            Ok(name) => Status::TooLong { name },
            Err(_) => Status::OutOfMemory,
        },
        ReadError::Memory => Status::OutOfMemory,
    }
}
