//! Laws of what a phase begins with.
ghost use Rattle.std.specs.Prelude.{◌≡◌, ℕ, Bool, List, Option, Some, reverse};
ghost use Rattle.atomic_table.specs.Seated.{TableId};
ghost use Rattle.bits_ip.specs.declared.address.Family.{Family};
ghost use Rattle.export_core.specs.Standing.{is_open};
ghost use Rattle.export_core.specs.States.{State};
ghost use Rattle.import_core.specs.Importers.{Importing};
ghost use Rattle.jour_rule.specs.declared.views.Terms.{Terms};
ghost use Rattle.jour_rule.specs.declared.views.View.{View as Seat};
ghost use Rattle.jour.specs.Seats.{journal};
ghost use Rattle.core_machine.specs.Lines.{Line};
ghost use Rattle.core_setup.specs.Protocols.{protocol_at};
ghost use Rattle.core_setup.specs.Setup.{Exports, IsSetup, IsSource, Protocol, Setup, Source, family_at};
ghost use Rattle.table_shared.specs.Opening.{TableOpening};
ghost use Rattle.import_lock.specs.Terms.{PhaseTerms};
ghost use Rattle.phase_room.specs.First.{first_phase, new_exporter, new_importer, nothing_in, smallest, two_neighbours};
ghost use Rattle.phase_room.specs.Locks.{CanExport, CanImport, export_terms, import_terms};
ghost use Rattle.phase_room.specs.Rooms.{TableTerms};
ghost use Rattle.phase_room.specs.Stands.{AreChannelSeats, AreSeats, StandsChannel, StandsSource, StandsTable};
ghost use Rattle.phase_room.specs.Together.{AreTogether};

use attrs::Judge;

/// What stands of a protocol with routes of its own, with the seats that it is given, is all that
/// its lock begins with.
pub fn protocols_can_begin<J: Judge>()
    ensures { (phase : PhaseTerms) (number : ℕ) (source : Source) (table : TableTerms)
        (importer : Importing J) (here : TableId × Terms TableOpening)
        (port : TableId × Seat TableOpening) (turns : TableId × Seat ℕ)
        (stamp : Option (TableId × Seat ℕ))
        → StandsSource J.verdict phase number source table importer
        → AreSeats phase number table here port turns stamp
        → CanImport J.verdict phase number importer port turns stamp }
{}

/// The same of its channel to a neighbour. Both locks then tell of one table and one list of marks.
pub fn channels_can_begin<J: Judge>()
    ensures begins { (phase : PhaseTerms) (number : ℕ) (table : TableTerms) (exports : Exports)
        (exporter : State J) (here : TableId × Terms TableOpening)
        (cursor : (TableId × Seat TableOpening) × Bool) (marks : TableId × Seat ℕ)
        → StandsTable table → StandsChannel J.verdict phase number exports table exporter
        → AreChannelSeats table here (is_open exporter.log) cursor marks
        → CanExport J.verdict exports table.before (reverse exporter.log) exporter cursor marks }
    ensures together { (phase : PhaseTerms) (number : ℕ) (table : TableTerms) (exports : Exports)
        (exporter : State J) (here : TableId × Terms TableOpening)
        (cursor : (TableId × Seat TableOpening) × Bool) (marks : TableId × Seat ℕ)
        (port : TableId × Seat TableOpening) (turns stamp : TableId × Seat ℕ)
        → StandsTable table → StandsChannel J.verdict phase number exports table exporter
        → AreChannelSeats table here (is_open exporter.log) cursor marks
        → AreSeats phase number table here port turns (Some stamp)
        → journal stamp ≡ journal marks
        → AreTogether (import_terms phase number port turns (Some stamp))
        (export_terms exports cursor table.before marks (reverse exporter.log)) }
{}

/// In the first phase of each setup all stands that a phase begins with: tables are empty, and
/// importers and exporters are as they are made.
pub fn first_phases_stand<J: Judge>()
    ensures tables { (family : Family) → StandsTable (nothing_in family) }
    ensures sources { (setup : Setup) (lines : List Line) (actors number : ℕ)
        (protocol : Protocol) (source : Source) (family : Family) (judge : J) → IsSetup setup
        → protocol_at setup number ≡ Some protocol → protocol.body ≡ IsSource source
        → family_at setup.tables source.table ≡ Some family
        → J.verdict judge ≡ source.filter
        → StandsSource J.verdict (first_phase setup lines actors) number source
        (nothing_in family) (new_importer source.spec judge) }
    ensures channels { (setup : Setup) (lines : List Line) (actors number : ℕ)
        (protocol : Protocol) (source : Source) (family : Family) (judge : J)
        (exports : Exports) → IsSetup setup
        → protocol_at setup number ≡ Some protocol → protocol.body ≡ IsSource source
        → family_at setup.tables source.table ≡ Some family
        → source.exports ≡ Some exports → J.verdict judge ≡ exports.filter
        → StandsChannel J.verdict (first_phase setup lines actors) number exports
        (nothing_in family) (new_exporter exports.spec judge) }
    ensures worked { (judge : J) → IsSetup (smallest (J.verdict judge))
        × IsSetup (two_neighbours (J.verdict judge)) }
{}
