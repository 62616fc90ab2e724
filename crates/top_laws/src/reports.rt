//! What is played comes to one list of reports, and these are legal.
ghost use Rattle.std.specs.Prelude.{◌≡◌, ℕ, List, Option, map};
ghost use Rattle.core_setup.specs.Plays.{IsLegalPlay, IsPlay};
ghost use Rattle.core_setup.specs.Setup.{Setup};
ghost use Rattle.report.specs.declared.phase.PhaseReport.{PhaseReport};
ghost use Rattle.script_lines.specs.declared.script.Line.{Line};
ghost use Rattle.sys_run.specs.Scripts.{phase_of};
ghost use Rattle.birdcore_top.specs.Command.{Command};
ghost use Rattle.birdcore_top.specs.Outcome.{Held, Played, IsPossible};
ghost use Rattle.birdcore_top.specs.Written.{AreReportsOf};

use core_setup::laws::{plays_are_legal, reports_are_determined};
use sys_build::laws::accepted_scripts_are_setups;

/// Phases played come to one list of reports. Of phases run that isn't said: any legal reports are
/// theirs.
pub fn phases_come_to_one_report()
    ensures { (command : Option Command) (held : Held) (setup : Setup)
        (actors : List (List ℕ)) (phases : List (List Line)) (reports others : List PhaseReport)
        → IsPossible command held (Played setup actors phases)
        → IsPlay setup actors (map (phase_of setup.queries) phases) reports
        → IsPlay setup actors (map (phase_of setup.queries) phases) others
        → reports ≡ others }
{
    accepted_scripts_are_setups();
    reports_are_determined();
}

/// The reports of a play or a run are legal: operations are merges of the actors' lines, each
/// table's journal has every protocol's imports once, in order, each channel's log follows its
/// table's history, each reply is its table's, and the state is that of the operations.
pub fn reports_are_legal()
    ensures { (command : Option Command) (held : Held) (setup : Setup)
        (actors : List (List ℕ)) (phases : List (List Line)) (reports : List PhaseReport)
        → IsPossible command held (Played setup actors phases)
        → AreReportsOf command setup actors phases reports
        → IsLegalPlay setup actors (map (phase_of setup.queries) phases) reports }
{
    accepted_scripts_are_setups();
    plays_are_legal();
}
