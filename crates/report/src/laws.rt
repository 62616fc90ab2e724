//! What the quiet form of a report is.
ghost use Rattle.std.specs.Prelude.{◌≡◌, ◌++◌, List, ℕ, codes, decimal};
ghost use Rattle.report.specs.Report.{phase_text, quiet_text};
ghost use Rattle.report.specs.declared.phase.PhaseReport.{PhaseReport};

/// The quiet text of a phase is its whole text without what came about in it: its first line is
/// kept, and all from the line `state` on.
pub fn quiet_texts_leave_out_what_came_about()
    ensures { (phase : PhaseReport) → (events state : List ℕ)
        × (phase_text phase ≡ codes "phase " ++ decimal phase.number ++ codes "\n"
        ++ (events ++ (codes "state\n" ++ state)))
        × (quiet_text phase ≡ codes "phase " ++ decimal phase.number ++ codes "\n"
        ++ (codes "state\n" ++ state)) }
{}
