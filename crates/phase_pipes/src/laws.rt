//! Laws of pipes in a phase.
ghost use Rattle.std.specs.Prelude.{◌≡◌, ◌∷◌, ◌++◌, ℕ, List, [], Some, length, reverse, true};
ghost use Rattle.atomic_table.specs.Seated.{TableId};
ghost use Rattle.attrs.specs.declared.journal.JEntry.{JEntry};
ghost use Rattle.attrs.specs.declared.route.Change.{Change};
ghost use Rattle.attrs.specs.declared.route.Src.{Src};
ghost use Rattle.bits_ip.specs.declared.address.Family.{Family};
ghost use Rattle.core_machine.specs.Enters.{enters};
ghost use Rattle.core_machine.specs.Histories.{of_those};
ghost use Rattle.core_machine.specs.Legal.{Printed};
ghost use Rattle.core_machine.specs.Lines.{Line, ops_of};
ghost use Rattle.core_machine.specs.Pipes.{passes};
ghost use Rattle.core_machine.specs.Signals.{AreSignals, notices, without_sends};
ghost use Rattle.core_setup.specs.Channels.{Channel, channel_at};
ghost use Rattle.core_setup.specs.Protocols.{exports_of, protocol_at, rules_of};
ghost use Rattle.core_setup.specs.Setup.{IsPipe, IsSetup, IsSource, Pipe, Protocol, Setup, Source};
ghost use Rattle.export_core.specs.declared.log.LogItem.{LogItem};
ghost use Rattle.export_lock.specs.LaneTurns.{AreSources};
ghost use Rattle.export_lock.specs.Lanes.{LaneTerms};
ghost use Rattle.export_lock.specs.declared.lane.PipeLane.{PipeLane};
ghost use Rattle.import_core.specs.declared.operation.Op.{Op};
ghost use Rattle.import_lock.specs.Calls.{IsRoomOf};
ghost use Rattle.jour_rule.specs.declared.views.Entry.{Entry};
ghost use Rattle.jour_rule.specs.declared.views.View.{View as Seat};
ghost use Rattle.phase_ends.specs.Leaves.{HasEntered, IsMarked};
ghost use Rattle.phase_legal.specs.Shown.{Room};
ghost use Rattle.phase_legal.specs.Stamps.{AreUpTo};
ghost use Rattle.phase_pipes.specs.First.{one_pipe, open_exporter};
ghost use Rattle.phase_pipes.specs.Left.{IsDirectionLeft};
ghost use Rattle.phase_pipes.specs.Ports.{EntersAlone, joined_opening, joined_terms, ports_with_pipes};
ghost use Rattle.phase_pipes.specs.Sessions.{IsDirectionIn};
ghost use Rattle.phase_pipes.specs.Sources.{AreSourcesOf};
ghost use Rattle.phase_pipes.specs.Stands.{IsDirectionOf, StandsDirection, StandsPipe};
ghost use Rattle.phase_room.specs.First.{first_phase, nothing_in};
ghost use Rattle.phase_room.specs.Rooms.{BeginsTable, IsOwnPort, TableTerms};
ghost use Rattle.pipe_lock.specs.Terms.{DirectionTerms, PipeTerms, past_ops};

use attrs::Judge;
use core_setup::laws::setups_are_as_asked;
use export_lock::laws::marks_are_those_of_stamps;

/// The sources of what is played, by number, are all that a direction's turns ask for.
pub fn directions_know_their_sources()
    ensures { (setup : Setup) (lane : LaneTerms) (table : ℕ) (sources : List Src)
        → IsSetup setup → lane.rules ≡ rules_of setup
        → (rules_of setup).target lane.number ≡ Some table → AreSourcesOf setup sources
        → AreSources lane sources }
{
    setups_are_as_asked();
}

/// Where the ports of a table have the sources that pipes bring, the port of a direction that
/// writes the table has just those that it passes, and no other port has any of them. The port of a
/// protocol that imports to the table has this protocol alone, as where there is no pipe. The
/// table's journal begins with what stands there.
pub fn each_source_has_one_port()
    ensures out { (setup : Setup) (number out back : ℕ) (protocol : Protocol) (pipe : Pipe)
        (stood : TableTerms) → IsSetup setup → protocol_at setup number ≡ Some protocol
        → protocol.body ≡ IsPipe pipe → (rules_of setup).belong number ≡ out ∷ back ∷ []
        → IsDirectionOf setup number out pipe.primary pipe.peer
        → IsDirectionOf setup number back pipe.peer pipe.primary
        → EntersAlone (rules_of setup) out (joined_opening setup pipe.peer stood) number }
    ensures back { (setup : Setup) (number out back : ℕ) (protocol : Protocol) (pipe : Pipe)
        (stood : TableTerms) → IsSetup setup → protocol_at setup number ≡ Some protocol
        → protocol.body ≡ IsPipe pipe → (rules_of setup).belong number ≡ out ∷ back ∷ []
        → IsDirectionOf setup number out pipe.primary pipe.peer
        → IsDirectionOf setup number back pipe.peer pipe.primary
        → EntersAlone (rules_of setup) back (joined_opening setup pipe.primary stood) number }
    ensures own { (setup : Setup) (number : ℕ) (protocol : Protocol) (source : Source)
        (stood : TableTerms) → IsSetup setup → protocol_at setup number ≡ Some protocol
        → protocol.body ≡ IsSource source
        → IsOwnPort number (joined_opening setup source.table stood) }
    ensures begins { (cells : ℕ) (setup : Setup) (number : ℕ) (stood : TableTerms)
        → BeginsTable stood (joined_terms cells setup number stood) }
{
    setups_are_as_asked();
}

/// In the first phase of each setup all stands that a pipe's session begins with: the pipe is up,
/// each direction is up at 0 and has sent nothing, and tables are empty.
pub fn first_phases_have_pipes<J: Judge>()
    ensures pipes { (setup : Setup) (lines : List Line) (actors number : ℕ) (protocol : Protocol)
        (pipe : Pipe) → IsSetup setup → protocol_at setup number ≡ Some protocol
        → protocol.body ≡ IsPipe pipe
        → StandsPipe (first_phase setup lines actors) number pipe true }
    ensures directions { (setup : Setup) (lines : List Line) (actors number : ℕ)
        (protocol : Protocol) (pipe : Pipe) (d : ℕ) (channel : Channel) (family : Family) (judge : J)
        → IsSetup setup → protocol_at setup number ≡ Some protocol
        → protocol.body ≡ IsPipe pipe → channel_at setup d ≡ Some channel
        → channel.exports.spec.family ≡ family → J.verdict judge ≡ channel.exports.filter
        → StandsDirection J.verdict (first_phase setup lines actors) number d
        (exports_of setup d channel) (nothing_in family) (nothing_in family)
        (open_exporter (exports_of setup d channel).spec judge) }
    ensures worked { (judge : J) → IsSetup (one_pipe (J.verdict judge))
        × (ports_with_pipes (one_pipe (J.verdict judge)) 0 ≡ (0 ∷ []) ∷ [] ∷ [])
        × (ports_with_pipes (one_pipe (J.verdict judge)) 1 ≡ [] ∷ (0 ∷ []) ∷ [])
        × IsDirectionOf (one_pipe (J.verdict judge)) 1 1 0 1
        × IsDirectionOf (one_pipe (J.verdict judge)) 1 2 1 0 }
{
    setups_are_as_asked();
}

/// Once a phase has ended, what is left of a pipe's direction is what the phase owes of it: its
/// port has entered what the items of the phase say, and its marks are those that the pipe's
/// operations signal.
pub fn directions_leave_what_is_owed<J: Judge>()
    ensures entered { (room : Room) (history : ℕ → List Change) (logs : ℕ → List LogItem)
        (entries : ℕ → List Entry) (said : ℕ → List JEntry) (p : Printed) (key : PipeTerms)
        (reads writes : ℕ) (direction : DirectionTerms) (lane : LaneTerms) (ops : List Op)
        (stamp : TableId × Seat ℕ) (state : PipeLane J) → IsRoomOf key.phase room
        → IsDirectionIn key room.tables reads writes direction lane
        → IsDirectionLeft J.verdict key direction lane ops stamp (entries writes) state
        → p.items direction.number ++ logs direction.number ≡ reverse state.state.exporter.log
        → logs direction.number ≡ lane.exports.log
        → of_those (passes room.rules direction.number) (history writes)
        ≡ enters room.rules (logs direction.number)
        → HasEntered room history logs entries said p direction.number writes }
    ensures marked { (room : Room) (history : ℕ → List Change) (logs : ℕ → List LogItem)
        (entries : ℕ → List Entry) (said : ℕ → List JEntry) (p : Printed) (key : PipeTerms)
        (reads writes : ℕ) (direction : DirectionTerms) (lane : LaneTerms) (ops : List Op)
        (stamp : TableId × Seat ℕ) (state : PipeLane J) (made : List (ℕ × Change))
        → IsRoomOf key.phase room
        → IsDirectionIn key room.tables reads writes direction lane
        → IsDirectionLeft J.verdict key direction lane ops stamp (entries writes) state
        → p.items direction.number ++ logs direction.number ≡ reverse state.state.exporter.log
        → logs direction.number ≡ lane.exports.log
        → room.rules.owner direction.number ≡ key.number
        → ops_of (p.ops (room.rules.owner direction.number)) ≡ ops
        → direction.table.1.start ≡ length (history (room.rules.reads direction.number))
        → AreUpTo (length (history (room.rules.reads direction.number)))
        (without_sends (logs direction.number))
        → AreSignals room.rules (history (room.rules.reads direction.number)) direction.number
        (without_sends (logs direction.number))
        (notices room.rules (room.rules.owner direction.number) (past_ops key))
        → IsMarked room history logs entries said p direction.number made }
{
    marks_are_those_of_stamps::<J>();
}
