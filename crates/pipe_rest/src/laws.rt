//! Laws of what has gone on to rest.
ghost use Rattle.std.specs.Prelude.{◌≡◌, ◌+◌, ◌≤◌, ℕ, List, Some, length, slice_get, true};
ghost use Rattle.atomic_table.specs.Seated.{TableId};
ghost use Rattle.attrs.specs.declared.journal.JEntry.{JEntry};
ghost use Rattle.attrs.specs.declared.route.Src.{Src};
ghost use Rattle.export_core.specs.Calls.{IsAtRest};
ghost use Rattle.export_core.specs.Standing.{is_open};
ghost use Rattle.jour_rule.specs.declared.views.Entry.{Entry};
ghost use Rattle.jour_rule.specs.declared.views.Terms.{Terms};
ghost use Rattle.table_shared.specs.Opening.{TableOpening};
ghost use Rattle.table_shared.specs.Phases.{IsHeard};
ghost use Rattle.table_shared.specs.Records.{AreRecords, at_first};
ghost use Rattle.phase_legal.specs.Shown.{HandView};
ghost use Rattle.export_lock.specs.LaneTurns.{AreSources};
ghost use Rattle.export_lock.specs.declared.state.ExportState.{ExportState};
ghost use Rattle.pipe_close.specs.Ended.{IsPipeOver};
ghost use Rattle.pipe_close.specs.Left.{IsPipeLeft, PipeLocks};
ghost use Rattle.pipe_close.specs.declared.close.PipeLeft.{PipeLeft};
ghost use Rattle.pipe_turns.specs.Ends.{AreBelow};
ghost use Rattle.pipe_turns.specs.Turns.{CanTurn};
ghost use Rattle.pipe_rest.specs.Heads.{IsAmong, RestsAt, head_at};
ghost use Rattle.pipe_rest.specs.Later.{CanSettle, IsLaterMember, IsLaterPipe, PipeCanSettle};
ghost use Rattle.pipe_rest.specs.declared.member.MemberLeft.{MemberLeft as MemberView};

use attrs::Judge;
use pipe_turns::laws::ports_have_seen_the_last_head;

/// A pipe whose directions have gone on, by turns that leave their marks, is left as before, and
/// can be ended as before.
pub fn later_pipes_are_left<J: Judge>()
    ensures left { (sources : List Src) (key : PipeLocks) (hands : List HandView)
        (old new : PipeLeft J) → IsLaterPipe J.verdict sources old new
        → AreSources key.out sources → AreSources key.back sources
        → IsPipeLeft J.verdict key hands old → IsPipeLeft J.verdict key hands new }
    ensures over { (tables : List (TableId × Terms TableOpening)) (sources : List Src)
        (key : PipeLocks) (hands : List HandView) (old new : PipeLeft J)
        → IsLaterPipe J.verdict sources old new
        → AreSources key.out sources → AreSources key.back sources
        → IsPipeOver J.verdict tables key hands old → IsPipeOver J.verdict tables key hands new }
{}

/// What has gone on can go on as before, its tables are there, and what goes on twice has gone on.
pub fn later_members_can_settle<J: Judge>()
    ensures can { (tables : List (TableId × Terms TableOpening)) (sources : List Src)
        (old new : MemberView J) → IsLaterMember J.verdict sources old new
        → CanSettle J.verdict tables sources old → CanSettle J.verdict tables sources new }
    ensures among { (tables : List (TableId × Terms TableOpening)) (sources : List Src)
        (member : MemberView J) → CanSettle J.verdict tables sources member
        → IsAmong (length tables) member }
    ensures twice { (sources : List Src) (first second third : MemberView J)
        → IsLaterMember J.verdict sources first second
        → IsLaterMember J.verdict sources second third
        → IsLaterMember J.verdict sources first third }
{}

/// Both directions of a pipe that can go on can do turns over its two tables.
pub fn pipes_can_turn<J: Judge>()
    ensures { (tables : List (TableId × Terms TableOpening)) (sources : List Src)
        (pipe : PipeLeft J) (here there : TableId × Terms TableOpening)
        → PipeCanSettle J.verdict tables sources pipe
        → slice_get tables pipe.primary ≡ Some here → slice_get tables pipe.peer ≡ Some there
        → CanTurn J.verdict here there sources pipe.out
        × CanTurn J.verdict there here sources pipe.back }
{}

/// What is up and at rest at no less than the head of its table is at rest at the table's last
/// head, once all ports that have a source there have ended and have seen no more than that head.
pub fn settled_members_know_the_last_head<J: Judge>()
    ensures { (heads : List ℕ) (table : ℕ) (terms : Terms TableOpening) (list : List Entry)
        (said : List JEntry) (state : ExportState J)
        → AreRecords terms.opening (at_first terms.opening) list said
        → AreBelow terms list (head_at heads table)
        → IsHeard terms list state.cursor.0.1 → terms.start ≤ state.exporter.position
        → RestsAt (head_at heads table) state → is_open state.exporter.log ≡ true
        → IsAtRest state.exporter (terms.start + length list) }
{
    ports_have_seen_the_last_head();
}
