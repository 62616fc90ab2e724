//! Laws of tables' journals.
ghost use Rattle.std.specs.Prelude.{◌≡◌, ℕ, List, map, Contains};
ghost use Rattle.bits_ip.specs.Prefix.{Net};
ghost use Rattle.attrs.specs.History.{IsReal, after};
ghost use Rattle.attrs.specs.declared.journal.JEntry.{JEntry};
ghost use Rattle.jour_rule.specs.declared.views.Entry.{Entry};
ghost use Rattle.jour_rule.specs.declared.views.View.{View as Seat};
ghost use Rattle.jour_rule.specs.Journal.{receipts};
ghost use Rattle.table_shared.specs.Opening.{TableOpening, sources_of};
ghost use Rattle.rec_words.specs.Entries.{IsEntryWords};
ghost use Rattle.table_shared.specs.Taken.{IsGiven, IsReadAs};
ghost use Rattle.table_shared.specs.Records.{AreRecords, AreSaid, at_first, change_of, content_after};

use rec_words::laws::words_spell_one_entry;

/// The changes of a table's entries are a real history.
pub fn records_are_real()
    ensures { (opening : TableOpening) (entries : List Entry) (said : List JEntry)
        → AreRecords opening (at_first opening) entries said
        → IsReal (at_first opening) (map change_of said) }
{}

/// A table's entries are one list of records.
pub fn records_are_one()
    ensures { (opening : TableOpening) (entries : List Entry) (said other : List JEntry)
        → AreRecords opening (at_first opening) entries said
        → AreRecords opening (at_first opening) entries other → said ≡ other }
{
    words_spell_one_entry();
}

/// Where a source is of one port alone, what stands for its keys is what the opening rows and that
/// port's receipts give.
pub fn a_port_alone_changes_its_sources()
    ensures { (opening : TableOpening) (entries : List Entry) (said mine : List JEntry)
        (start port num : ℕ) (net : Net) → AreRecords opening (at_first opening) entries said
        → AreSaid (receipts start port entries) mine
        → ((other : ℕ) → Contains (sources_of opening other) num → other ≡ port)
        → content_after opening said net num
        ≡ after (at_first opening) (map change_of mine) net num }
{
    words_spell_one_entry();
}

/// What a cursor's `next` gives is always the words of an entry, so `get_words` never refuses it.
/// The record that it says is a real change where what the cursor has taken leaves the table.
pub fn what_is_read_is_a_record()
    ensures record { (cursor : Seat TableOpening) (words : List ℕ) → IsGiven cursor words
        → (said : JEntry) × IsReadAs cursor words said }
    ensures words { (cursor : Seat TableOpening) (words : List ℕ) → IsGiven cursor words
        → IsEntryWords words }
{}
