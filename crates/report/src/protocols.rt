//! What each protocol was told in a phase.
ghost use Rattle.std.specs.Prelude.{◌≡◌, ◌++◌, OnOk};
ghost use Rattle.std.specs.List.{flat_map};
ghost use Rattle.bits_ip.specs.Out.{Kept};
ghost use Rattle.report.specs.Operation.{done_text};
ghost use Rattle.report.specs.Report.{line1, protocol_text};

use crate::operation::write_done;
use crate::phase::ProtocolReport;
use bits_ip::TextOut;
use import_core::Done;

/// Appends each protocol with its operations.
pub(crate) fn write_protocols<W: TextOut>(
    protocols: &[ProtocolReport],
    out: &mut W,
) -> Result<(), W::Fault>
    ensures written { OnOk result
        (W.written out.new ≡ W.written out.old ++ flat_map protocol_text protocols.now) }
    ensures kept { Kept W.follows out.old out.new }
{
    for protocol in protocols {
        write_protocol(protocol, out)?;
    }
    Ok(())
}

fn write_protocol<W: TextOut>(protocol: &ProtocolReport, out: &mut W) -> Result<(), W::Fault>
    ensures written { OnOk result
        (W.written out.new ≡ W.written out.old ++ protocol_text protocol.now) }
    ensures kept { Kept W.follows out.old out.new }
{
    out.put(b"protocol ")?;
    out.put(protocol.name.as_slice())?;
    out.put(b"\n")?;
    write_ops(protocol.ops.as_slice(), out)
}

fn write_ops<W: TextOut>(ops: &[Done], out: &mut W) -> Result<(), W::Fault>
    ensures written { OnOk result
        (W.written out.new ≡ W.written out.old
        ++ flat_map (λ done. line1 (done_text done)) ops.now) }
    ensures kept { Kept W.follows out.old out.new }
{
    for done in ops {
        out.put(b"\t")?;
        write_done(done, out)?;
        out.put(b"\n")?;
    }
    Ok(())
}
