//! What follows of what a core has played.
ghost use Rattle.std.specs.Prelude.{ℕ, List};
ghost use Rattle.core_machine.specs.Lines.{Line};
ghost use Rattle.core_setup.specs.Plays.{IsPlay};
ghost use Rattle.core_setup.specs.Setup.{Setup};
ghost use Rattle.report.specs.declared.phase.PhaseReport.{PhaseReport};
ghost use Rattle.sys_run.specs.Playing.{HasPlayed};
ghost use Rattle.sys_run.specs.declared.player.Core.{Core};

use attrs::Judge;

/// What a core has played is a play of the machine, so that its reports are legal.
pub fn played_is_a_play<J: Judge>()
    ensures { (setup : Setup) (actors : List (List ℕ)) (scripts : List (List Line))
        (reports : List PhaseReport) (core : Core J)
        → HasPlayed J.verdict setup actors scripts reports core
        → IsPlay setup actors scripts reports }
{}
