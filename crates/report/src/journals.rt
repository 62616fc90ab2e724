//! What each table took in a phase.
ghost use Rattle.std.specs.Prelude.{◌≡◌, ◌++◌, ◌∷◌, ◌+◌, codes, decimal, length, OnOk};
ghost use Rattle.std.specs.List.{flat_map};
ghost use Rattle.bits_ip.specs.Out.{Kept};
ghost use Rattle.report.specs.Report.{entries_text, entry_text, journal_text, standing_text};
ghost use Rattle.report.specs.ReportParts.{names_in};

use crate::phase::{JournalReport, ProtocolReport};
use crate::place::write_place;
use attrs::{Change, Route, append_attrs};
use bits_ip::{TextOut, write_number};

/// Appends each table's changes of a phase.
pub(crate) fn write_journals<W: TextOut>(
    protocols: &[ProtocolReport],
    journals: &[JournalReport],
    out: &mut W,
) -> Result<(), W::Fault>
    ensures written { OnOk result
        (W.written out.new ≡ W.written out.old
        ++ flat_map (journal_text (names_in protocols.now)) journals.now) }
    ensures kept { Kept W.follows out.old out.new }
{
    for journal in journals {
        write_journal(protocols, journal, out)?;
    }
    Ok(())
}

fn write_journal<W: TextOut>(
    protocols: &[ProtocolReport],
    journal: &JournalReport,
    out: &mut W,
) -> Result<(), W::Fault>
    ensures written { OnOk result
        (W.written out.new ≡ W.written out.old
        ++ journal_text (names_in protocols.now) journal.now) }
    ensures kept { Kept W.follows out.old out.new }
{
    write_journal_head(journal, out)?;
    write_entries(protocols, journal.from, journal.entries.as_slice(), out)
}

/// The table, with its positions before the phase and behind it.
fn write_journal_head<W: TextOut>(journal: &JournalReport, out: &mut W) -> Result<(), W::Fault>
    ensures written { OnOk result
        (W.written out.new ≡ W.written out.old
        ++ codes "journal " ++ journal.now.table ++ 32 ∷ decimal journal.now.from
        ++ 32 ∷ decimal (journal.now.from + length journal.now.entries) ++ codes "\n") }
    ensures kept { Kept W.follows out.old out.new }
{
    let from = journal.from;
    let end = u128::from(from) + journal.entries.len() as u128;
    out.put(b"journal ")?;
    out.put(journal.table.as_slice())?;
    out.put(b" ")?;
    write_number(from, out)?;
    out.put(b" ")?;
    write_number(end, out)?;
    out.put(b"\n")
}

/// The changes, at the positions behind `from`.
fn write_entries<W: TextOut>(
    protocols: &[ProtocolReport],
    from: u64,
    entries: &[Change],
    out: &mut W,
) -> Result<(), W::Fault>
    ensures written { OnOk result
        (W.written out.new ≡ W.written out.old
        ++ entries_text (names_in protocols.now) from entries.now) }
    ensures kept { Kept W.follows out.old out.new }
{
    for (index, entry) in entries.iter().enumerate() {
        let position = u128::from(from) + index as u128 + 1;
        write_entry(protocols, position, entry, out)?;
    }
    Ok(())
}

fn write_entry<W: TextOut>(
    protocols: &[ProtocolReport],
    position: u128,
    entry: &Change,
    out: &mut W,
) -> Result<(), W::Fault>
    ensures written { OnOk result
        (W.written out.new ≡ W.written out.old
        ++ entry_text (names_in protocols.now) position entry.now) }
    ensures kept { Kept W.follows out.old out.new }
{
    out.put(b"\t")?;
    write_number(position, out)?;
    out.put(b" ")?;
    write_place(protocols, &entry.net, entry.num, out)?;
    write_new(&entry.new, out)?;
    out.put(b"\n")
}

/// A route's attributes, and a dash where there is none.
fn write_new<W: TextOut>(new: &Option<Route>, out: &mut W) -> Result<(), W::Fault>
    ensures written { OnOk result (W.written out.new ≡ W.written out.old ++ standing_text new.now) }
    ensures kept { Kept W.follows out.old out.new }
{
    match new {
        Some(route) => append_attrs(&route.attrs, out),
        None => out.put(b"-"),
    }
}
