//! The text of a phase.
ghost use Rattle.std.specs.Prelude.{◌≡◌, ◌++◌, codes, decimal, OnOk};
ghost use Rattle.std.specs.List.{flat_map};
ghost use Rattle.bits_ip.specs.Out.{Kept};
ghost use Rattle.report.specs.Report.{channel_text, export_text, journal_text, mode_line, names_of, phase_text, protocol_text, quiet_text, reply_block, table_text, text_in};

use crate::exports::write_exports;
use crate::journals::write_journals;
use crate::logs::write_channels;
use crate::modes::write_modes;
use crate::phase::{Form, PhaseReport};
use crate::protocols::write_protocols;
use crate::replies::write_replies;
use crate::tables::write_tables;
use bits_ip::{TextOut, write_number};

/// Appends the text of a phase. Where a piece isn't taken, a part of the text may stand.
pub fn phase_text<W: TextOut>(phase: &PhaseReport, out: &mut W) -> Result<(), W::Fault>
    ensures written { OnOk result (W.written out.new ≡ W.written out.old ++ phase_text phase.now) }
    ensures kept { Kept W.follows out.old out.new }
{
    write_phase_head(phase.number, out)?;
    write_events(phase, out)?;
    write_state(phase, out)
}

/// Appends the text of a phase in its quiet form: its number, and what stands at its end. Where a
/// piece isn't taken, a part of the text may stand.
pub fn quiet_text<W: TextOut>(phase: &PhaseReport, out: &mut W) -> Result<(), W::Fault>
    ensures written { OnOk result (W.written out.new ≡ W.written out.old ++ quiet_text phase.now) }
    ensures kept { Kept W.follows out.old out.new }
{
    write_phase_head(phase.number, out)?;
    write_state(phase, out)
}

/// Appends the text of a phase in this form.
pub fn text_in<W: TextOut>(form: Form, phase: &PhaseReport, out: &mut W) -> Result<(), W::Fault>
    ensures written { OnOk result (W.written out.new ≡ W.written out.old ++ text_in form phase.now) }
    ensures kept { Kept W.follows out.old out.new }
{
    match form {
        Form::Whole => phase_text(phase, out),
        Form::Quiet => quiet_text(phase, out),
    }
}

fn write_phase_head<W: TextOut>(number: u64, out: &mut W) -> Result<(), W::Fault>
    ensures written { OnOk result
        (W.written out.new ≡ W.written out.old ++ codes "phase " ++ decimal number ++ codes "\n") }
    ensures kept { Kept W.follows out.old out.new }
{
    out.put(b"phase ")?;
    write_number(number, out)?;
    out.put(b"\n")
}

/// What came about in the phase.
fn write_events<W: TextOut>(phase: &PhaseReport, out: &mut W) -> Result<(), W::Fault>
    ensures written { OnOk result (W.written out.new ≡ W.written out.old
        ++ flat_map protocol_text phase.now.protocols
        ++ flat_map (journal_text (names_of phase.now)) phase.now.journals
        ++ flat_map (channel_text (names_of phase.now)) phase.now.channels
        ++ flat_map reply_block phase.now.replies) }
    ensures kept { Kept W.follows out.old out.new }
{
    let protocols = phase.protocols.as_slice();
    write_protocols(protocols, out)?;
    write_journals(protocols, phase.journals.as_slice(), out)?;
    write_channels(protocols, phase.channels.as_slice(), out)?;
    write_replies(phase.replies.as_slice(), out)
}

/// What stands at the phase's end.
fn write_state<W: TextOut>(phase: &PhaseReport, out: &mut W) -> Result<(), W::Fault>
    ensures written { OnOk result (W.written out.new ≡ W.written out.old ++ codes "state\n"
        ++ flat_map (table_text (names_of phase.now)) phase.now.tables
        ++ flat_map mode_line phase.now.modes
        ++ flat_map (export_text (names_of phase.now)) phase.now.exports) }
    ensures kept { Kept W.follows out.old out.new }
{
    let protocols = phase.protocols.as_slice();
    out.put(b"state\n")?;
    write_tables(protocols, phase.tables.as_slice(), out)?;
    write_modes(phase.modes.as_slice(), out)?;
    write_exports(protocols, phase.exports.as_slice(), out)
}
