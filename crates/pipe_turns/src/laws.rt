//! Laws of how a phase with pipes comes to rest.
ghost use Rattle.std.specs.Prelude.{◌≡◌, ◌≤◌, ◌+◌, List, length};
ghost use Rattle.attrs.specs.declared.journal.JEntry.{JEntry};
ghost use Rattle.jour_rule.specs.declared.views.Entry.{Entry};
ghost use Rattle.jour_rule.specs.declared.views.Terms.{Terms};
ghost use Rattle.jour_rule.specs.declared.views.View.{View as Seat};
ghost use Rattle.jour.specs.Seats.{known};
ghost use Rattle.table_shared.specs.Opening.{TableOpening};
ghost use Rattle.table_shared.specs.Phases.{IsHeard};
ghost use Rattle.table_shared.specs.Records.{AreRecords, at_first};
ghost use Rattle.pipe_turns.specs.Ends.{AreBelow};

/// What knows of a head that is no less than what each port of a table has seen, knows the table's
/// last head.
pub fn ports_have_seen_the_last_head()
    ensures { (terms : Terms TableOpening) (list : List Entry) (said : List JEntry)
        (reader : Seat TableOpening)
        → AreRecords terms.opening (at_first terms.opening) list said
        → IsHeard terms list reader → terms.start ≤ known reader
        → AreBelow terms list (known reader) → known reader ≡ terms.start + length list }
{}
