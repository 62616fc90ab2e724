//! Laws of phases that have ended.
ghost use Rattle.std.specs.Prelude.{◌≡◌, ◌++◌, ◌≤◌, ℕ, List, None, length, map, reverse};
ghost use Rattle.attrs.specs.declared.journal.JEntry.{JEntry};
ghost use Rattle.attrs.specs.declared.route.Change.{Change};
ghost use Rattle.attrs.specs.declared.route.Route.{Route};
ghost use Rattle.bits_ip.specs.Prefix.{Net};
ghost use Rattle.export_core.specs.Logs.{Course, Follows, Settled};
ghost use Rattle.export_core.specs.States.{StandsFor, State as Exporter, value_for};
ghost use Rattle.export_core.specs.declared.log.Key.{Key};
ghost use Rattle.export_core.specs.declared.log.LogItem.{LogItem};
ghost use Rattle.jour_rule.specs.declared.views.Entry.{Entry};
ghost use Rattle.export_core.specs.Histories.{TellsBest, change_of, course_of as told_course};
ghost use Rattle.core_machine.specs.Histories.{content_of};
ghost use Rattle.core_machine.specs.Legal.{IsLegal, Joined, Printed};
ghost use Rattle.core_machine.specs.Lines.{Line, Turn};
ghost use Rattle.core_machine.specs.Match.{IsSpecOf, TellChosen};
ghost use Rattle.core_machine.specs.Pipes.{course_of};
ghost use Rattle.core_machine.specs.Rules.{IsRules, Rules};
ghost use Rattle.phase_legal.specs.Shown.{Room};
ghost use Rattle.phase_legal.specs.Turns.{turns_told};
ghost use Rattle.phase_ends.specs.Ends.{AreSourced, Ends};
ghost use Rattle.phase_ends.specs.Leaves.{HasLeft, past_in};

use attrs::Judge;
use phase_legal::laws::{
    histories_stay_real, marks_become_signals, tables_have_what_operations_give,
    tables_have_what_ports_made, turns_merge_the_lines, what_was_told_is_right,
};

/// Where what is up is settled, and the state is printed as tables, operations and logs have it,
/// the state is that of the operations, so the phase is legal.
pub fn settled_phases_are_legal()
    ensures { (rules : Rules) (first : ℕ → List Turn) (past : Joined) (lines : List Line)
        (p : Printed) → IsRules rules → Ends rules first past lines p
        → IsLegal rules first past lines p }
{}

/// Where entries tell the best route of their nets, and all routes are of protocols that there are,
/// each entry tells the route that the rules choose.
pub fn what_is_best_is_chosen()
    ensures { (rules : Rules) (entries : List JEntry) → IsRules rules → TellsBest entries
        → AreSourced (reverse (map change_of entries))
        → ((front back : List JEntry) → entries ≡ front ++ back
        → (net : Net) (num : ℕ) → rules.protocols ≤ num
        → content_of (reverse (map change_of front)) net num ≡ None)
        → TellChosen rules entries }
{}

/// An exporter that stands for what the entries of its table tell sends what its channel may, and
/// where it is settled at their end the channel is.
pub fn exporters_send_what_they_may<J: Judge>()
    ensures follows { (rules : Rules) (c : ℕ) (entries : List JEntry) (e : Exporter J)
        → IsRules rules → IsSpecOf rules c e.spec → TellChosen rules entries
        → ((k : Key) (r : Route) → value_for J.verdict e k r ≡ rules.value c k r)
        → StandsFor J.verdict (told_course e.spec entries) e
        → Follows (rules.value c) (course_of rules c (reverse (map change_of entries)))
        (reverse e.log) }
    ensures settled { (rules : Rules) (c : ℕ) (entries : List JEntry) (e : Exporter J)
        → IsRules rules → IsSpecOf rules c e.spec → TellChosen rules entries
        → ((k : Key) (r : Route) → value_for J.verdict e k r ≡ rules.value c k r)
        → StandsFor J.verdict (told_course e.spec entries) e
        → ((d : Course) → length entries ≡ d.len → StandsFor J.verdict d e
        → Settled (value_for J.verdict e) d (reverse e.log))
        → Settled (rules.value c) (course_of rules c (reverse (map change_of entries)))
        (reverse e.log) }
{}

/// What threads leave of a phase, once all have returned and all channels are settled, is a legal
/// phase behind its starts.
pub fn what_threads_leave_is_legal()
    ensures { (room : Room) (history : ℕ → List Change) (logs : ℕ → List LogItem)
        (entries : ℕ → List Entry) (said : ℕ → List JEntry) (p : Printed) (starter : ℕ)
        (begun rest : ℕ → List Entry) (made : ℕ → List (ℕ × Change)) → IsRules room.rules
        → HasLeft room history logs entries said p starter begun rest made
        → IsLegal room.rules (λ i. turns_told room.lines (begun i)) (past_in room history logs)
        (reverse room.lines) p }
{
    turns_merge_the_lines();
    histories_stay_real();
    tables_have_what_operations_give();
    tables_have_what_ports_made();
    marks_become_signals();
    what_was_told_is_right();
    settled_phases_are_legal();
}
