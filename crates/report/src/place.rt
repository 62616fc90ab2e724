//! Nets, with the names of sources.
ghost use Rattle.std.specs.Prelude.{◌≡◌, ◌++◌, ◌∷◌, OnOk};
ghost use Rattle.bits_ip.specs.Out.{Kept};
ghost use Rattle.text.specs.Names.{name_of};
ghost use Rattle.report.specs.Report.{key_text};
ghost use Rattle.report.specs.ReportParts.{names_in, place_text};

use crate::phase::ProtocolReport;
use bits_ip::{Prefix, TextOut, append_prefix};
use export_core::Key;

/// Appends a net and the name of a route's source, each with a space behind it.
pub(crate) fn write_place<W: TextOut>(
    protocols: &[ProtocolReport],
    net: &Prefix,
    num: u32,
    out: &mut W,
) -> Result<(), W::Fault>
    ensures written { OnOk result
        (W.written out.new ≡ W.written out.old ++ place_text (names_in protocols.now) net.now num) }
    ensures kept { Kept W.follows out.old out.new }
{
    append_prefix(net, out)?;
    out.put(b" ")?;
    out.put(name_at(protocols, num))?;
    out.put(b" ")
}

/// Appends a channel's key: the net, and for a pipe the name of the source; each with a space
/// behind it.
pub(crate) fn write_key<W: TextOut>(
    protocols: &[ProtocolReport],
    pipe: bool,
    key: &Key,
    out: &mut W,
) -> Result<(), W::Fault>
    ensures written { OnOk result
        (W.written out.new ≡ W.written out.old ++ key_text (names_in protocols.now) pipe key.now) }
    ensures kept { Kept W.follows out.old out.new }
{
    if pipe {
        return write_place(protocols, &key.net, key.num, out);
    }
    append_prefix(&key.net, out)?;
    out.put(b" ")
}

/// The name of the protocol of this number, and nothing where there is none.
fn name_at(protocols: &[ProtocolReport], num: u32) -> &[u8]
    ensures { result.now ≡ name_of (names_in protocols.now) num }
{
    match protocols.get(num as usize) {
        Some(protocol) => protocol.name.as_slice(),
        None => b"",
    }
}
