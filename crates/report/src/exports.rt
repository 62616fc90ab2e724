//! The channels as they stand.
ghost use Rattle.std.specs.Prelude.{◌≡◌, ◌++◌, codes, Some, OnOk};
ghost use Rattle.std.specs.List.{flat_map};
ghost use Rattle.bits_ip.specs.Out.{Kept};
ghost use Rattle.report.specs.Report.{export_text, line1, standing_block, standing_line};
ghost use Rattle.report.specs.ReportParts.{names_in};

use crate::phase::{ExportReport, ProtocolReport, Standing};
use crate::place::write_key;
use attrs::append_attrs;
use bits_ip::{TextOut, write_number};

/// Appends what stands as sent by each channel.
pub(crate) fn write_exports<W: TextOut>(
    protocols: &[ProtocolReport],
    exports: &[ExportReport],
    out: &mut W,
) -> Result<(), W::Fault>
    ensures written { OnOk result
        (W.written out.new ≡ W.written out.old
        ++ flat_map (export_text (names_in protocols.now)) exports.now) }
    ensures kept { Kept W.follows out.old out.new }
{
    for export in exports {
        write_export(protocols, export, out)?;
    }
    Ok(())
}

fn write_export<W: TextOut>(
    protocols: &[ProtocolReport],
    export: &ExportReport,
    out: &mut W,
) -> Result<(), W::Fault>
    ensures written { OnOk result
        (W.written out.new ≡ W.written out.old ++ export_text (names_in protocols.now) export.now) }
    ensures kept { Kept W.follows out.old out.new }
{
    let name = export.name.as_slice();
    match &export.standing {
        Some(sent) => write_sent(protocols, export.pipe, name, sent.as_slice(), out),
        None => write_closed(name, out),
    }
}

/// A channel that is down.
fn write_closed<W: TextOut>(name: &[u8], out: &mut W) -> Result<(), W::Fault>
    ensures written { OnOk result
        (W.written out.new ≡ W.written out.old
        ++ line1 (codes "export " ++ name.now ++ codes " down")) }
    ensures kept { Kept W.follows out.old out.new }
{
    out.put(b"\texport ")?;
    out.put(name)?;
    out.put(b" down\n")
}

/// How much stands as sent, and what.
fn write_sent<W: TextOut>(
    protocols: &[ProtocolReport],
    pipe: bool,
    name: &[u8],
    sent: &[Standing],
    out: &mut W,
) -> Result<(), W::Fault>
    ensures written { OnOk result
        (W.written out.new ≡ W.written out.old
        ++ standing_block (names_in protocols.now) pipe name.now (Some sent.now)) }
    ensures kept { Kept W.follows out.old out.new }
{
    out.put(b"\texport ")?;
    out.put(name)?;
    out.put(b" ")?;
    write_number(sent.len() as u64, out)?;
    out.put(b"\n")?;
    write_standings(protocols, pipe, sent, out)
}

fn write_standings<W: TextOut>(
    protocols: &[ProtocolReport],
    pipe: bool,
    sent: &[Standing],
    out: &mut W,
) -> Result<(), W::Fault>
    ensures written { OnOk result
        (W.written out.new ≡ W.written out.old
        ++ flat_map (standing_line (names_in protocols.now) pipe) sent.now) }
    ensures kept { Kept W.follows out.old out.new }
{
    for standing in sent {
        write_standing(protocols, pipe, standing, out)?;
    }
    Ok(())
}

fn write_standing<W: TextOut>(
    protocols: &[ProtocolReport],
    pipe: bool,
    standing: &Standing,
    out: &mut W,
) -> Result<(), W::Fault>
    ensures written { OnOk result
        (W.written out.new ≡ W.written out.old
        ++ standing_line (names_in protocols.now) pipe standing.now) }
    ensures kept { Kept W.follows out.old out.new }
{
    out.put(b"\t\t")?;
    write_key(protocols, pipe, &standing.key, out)?;
    append_attrs(&standing.attrs, out)?;
    out.put(b"\n")
}
