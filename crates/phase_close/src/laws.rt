//! What is left of protocols and channels is what a phase owes in the end.
ghost use Rattle.std.specs.Prelude.{◌≡◌, ◌++◌, ℕ, List, None, Some, length, reverse, slice_get};
ghost use Rattle.atomic_table.specs.Seated.{TableId};
ghost use Rattle.attrs.specs.declared.journal.JEntry.{JEntry};
ghost use Rattle.attrs.specs.declared.route.Change.{Change};
ghost use Rattle.export_core.specs.declared.log.LogItem.{LogItem};
ghost use Rattle.import_core.specs.Importers.{Importing};
ghost use Rattle.jour_rule.specs.Journal.{receipts};
ghost use Rattle.jour_rule.specs.declared.views.Entry.{Entry};
ghost use Rattle.jour_rule.specs.declared.views.Terms.{Terms};
ghost use Rattle.jour_rule.specs.declared.views.View.{View as Seat};
ghost use Rattle.jour.specs.Seats.{front, number_of, own};
ghost use Rattle.core_machine.specs.Legal.{Printed};
ghost use Rattle.core_machine.specs.Lines.{Line};
ghost use Rattle.core_machine.specs.Signals.{AreSignals, notices, without_sends};
ghost use Rattle.table_shared.specs.Opening.{TableOpening};
ghost use Rattle.table_shared.specs.Phases.{IsRetired as IsPortRetired};
ghost use Rattle.phase_legal.specs.Shown.{HandView, Room};
ghost use Rattle.phase_legal.specs.Stamps.{AreUpTo, HasPort};
ghost use Rattle.phase_legal.specs.Turns.{AreStarts, AreTurnsOf, turns_told};
ghost use Rattle.import_lock.specs.Calls.{IsRoomOf};
ghost use Rattle.import_lock.specs.Terms.{ImportTerms, past_ops};
ghost use Rattle.import_lock.specs.declared.state.OpRecord.{OpRecord};
ghost use Rattle.export_lock.specs.Kept.{GoesOn};
ghost use Rattle.export_lock.specs.Terms.{ExportTerms};
ghost use Rattle.export_lock.specs.declared.state.ExportState.{ExportState};
ghost use Rattle.phase_ends.specs.Leaves.{IsMarked, MakesAll};
ghost use Rattle.phase_close.specs.Closed.{IsEnding, IsLater, SessionTerms, TableList};
ghost use Rattle.phase_close.specs.Left.{AreAllTurns, IsChannelLeft, IsImportLeft};
ghost use Rattle.phase_close.specs.Turned.{AreTurned};
ghost use Rattle.phase_close.specs.Whole.{IsOver};
ghost use Rattle.phase_close.specs.declared.session.SessionLeft.{SessionLeft as SessionLeftView};

use attrs::Judge;

/// The turns of a protocol begin with its starts, where the hand for them has seen only these. Each
/// actor's turns are those of its hand.
pub fn turns_begin_with_starts()
    ensures starts { (room : Room) (key : ImportTerms) (list : List Entry) (hands : List HandView)
        (ops : List OpRecord) → AreAllTurns key list hands ops → IsRoomOf key.phase room
        → (k : ℕ) (hand : HandView) → slice_get hands k ≡ Some hand
        → number_of hand.1.role ≡ key.phase.starter → AreStarts (front hand.1)
        → AreTurned room key list (front hand.1) }
    ensures hands { (key : ImportTerms) (list : List Entry) (hands : List HandView)
        (ops : List OpRecord) → AreAllTurns key list hands ops
        → (k : ℕ) (hand : HandView) → slice_get hands k ≡ Some hand
        → (actor i : ℕ) (done : List Line) → number_of hand.1.role ≡ actor
        → AreTurnsOf actor i done (own hand.1)
        → AreTurnsOf actor i done (receipts key.turns.1.start actor list) }
{}

/// A protocol's port has made all that its operations of the phase gave, once it has ended in its
/// table.
pub fn protocols_make_all<J: Judge>()
    ensures { (room : Room) (history : ℕ → List Change) (logs : ℕ → List LogItem)
        (entries : ℕ → List Entry) (said : ℕ → List JEntry) (p : Printed) (key : ImportTerms)
        (hands : List HandView) (importer : Importing J) (ops : List OpRecord)
        (port : TableId × Seat TableOpening) (list : List Entry) (made : List (ℕ × Change))
        → IsImportLeft J.verdict key hands importer ops port list made → IsRoomOf key.phase room
        → slice_get room.ports key.number ≡ Some key.port_number
        → slice_get room.tables (room.rules.table key.number) ≡ Some key.port
        → p.ops key.number ≡ turns_told room.lines list
        → IsPortRetired key.port.1 (entries (room.rules.table key.number)) port
        → MakesAll room history logs entries said p key.number made }
{}

/// The marks of a channel to a neighbour are those that its protocol's operations of the phase
/// signal, where these are the items that its log has more than before.
pub fn marks_tell_all<J: Judge>()
    ensures { (room : Room) (history : ℕ → List Change) (logs : ℕ → List LogItem)
        (entries : ℕ → List Entry) (said : ℕ → List JEntry) (p : Printed) (key : ImportTerms)
        (list : List Entry) (made : List (ℕ × Change)) (channel : ExportTerms)
        (state : ExportState J) (c : ℕ) (opening : TableOpening)
        → IsChannelLeft J.verdict key list made channel state → IsRoomOf key.phase room
        → room.rules.owner c ≡ key.number → room.rules.target c ≡ None
        → p.ops (room.rules.owner c) ≡ turns_told room.lines list
        → p.items c ++ logs c ≡ reverse state.exporter.log → logs c ≡ channel.log
        → key.port.1.start ≡ length (history (room.rules.reads c))
        → HasPort room.rules c (past_ops key) (history (room.rules.reads c)) opening
        (entries (room.rules.reads c)) (said (room.rules.reads c)) made
        → AreUpTo (length (history (room.rules.reads c))) (without_sends (logs c))
        → AreSignals room.rules (history (room.rules.reads c)) c (without_sends (logs c))
        (notices room.rules (room.rules.owner c) (past_ops key))
        → IsMarked room history logs entries said p c made }
{}

/// What is left of a channel stays so by turns that take its table's entries and push, as a sync
/// does them.
pub fn later_turns_keep_marks<J: Judge>()
    ensures { (key : ImportTerms) (list : List Entry) (made : List (ℕ × Change))
        (channel : ExportTerms) (old new : ExportState J)
        → IsChannelLeft J.verdict key list made channel old → GoesOn J.verdict old new
        → without_sends (reverse new.exporter.log) ≡ without_sends (reverse old.exporter.log)
        → IsChannelLeft J.verdict key list made channel new }
{}

/// A session whose channel has gone on, by turns that leave its marks, can be ended as before.
pub fn later_sessions_can_end<J: Judge>()
    ensures over { (tables : List (TableId × Terms TableOpening)) (key : SessionTerms)
        (old new : SessionLeftView J) → IsLater J.verdict old new
        → IsOver J.verdict tables key old → IsOver J.verdict tables key new }
    ensures ending { (lists : List TableList) (key : SessionTerms) (old new : SessionLeftView J)
        → IsLater J.verdict old new
        → IsEnding J.verdict lists key old → IsEnding J.verdict lists key new }
{}
