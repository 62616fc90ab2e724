ghost use Rattle.std.specs.Prelude.{◌≡◌, ◌++◌, ◌∷◌, codes, decimal, OnOk, OnErr};
ghost use Rattle.std.specs.List.{flat_map};
ghost use Rattle.bits_ip.specs.Text.{addr_text};
ghost use Rattle.attrs.specs.Text.{attrs_text, community_text, dest_text, kind_text, list_text, optional_text, origin_text, peer_text};
ghost use Rattle.bits_ip.specs.Out.{Kept};
ghost use Rattle.attrs.specs.Gather.{gathered, Gathers};

use crate::gather::Gather;
use crate::{Attrs, Clist, Kind, Origin, Path};
use bits_ip::{Addr, OutOfMemory, TextOut, append_addr, write_number};
use std::alloc::Global;

/// Appends the attributes as one line without its end: the fields in their order, without what is
/// absent or empty.
pub fn attr_text(alloc: Global, attrs: &Attrs, out: &mut Vec<u8>) -> Result<(), OutOfMemory>
    ensures written { OnOk result (out.new.items ≡ out.old.items ++ attrs_text attrs.now) }
    ensures refused { OnErr result (out.new.items ≡ out.old.items) }
{
    let mut text = Vec::new(alloc);
    append_attrs(attrs, &mut text)?;
    out.extend_from_slice(&text)?;
    Ok(())
}

/// Appends the attributes, as `attr_text` does. On refusal a part of them may stand.
pub fn append_attrs<W: TextOut>(attrs: &Attrs, out: &mut W) -> Result<(), W::Fault>
    ensures written { OnOk result (W.written out.new ≡ W.written out.old ++ attrs_text attrs.now) }
    ensures kept { Kept W.follows out.old out.new }
{
    let mut text = Gather::new(out);
    let sent = send_line(attrs, &mut text);
    // No effect at run time: from this use the proof reads what the place holds.
    let _ = &*text.out;
    sent
}

/// The fields in their order, sent on together.
fn send_line<W: TextOut>(attrs: &Attrs, text: &mut Gather<'_, W>) -> Result<(), W::Fault>
    ensures written { OnOk result (W.written text.new.out.now
        ≡ gathered W.written text.old ++ attrs_text attrs.now) }
    ensures kept { Kept (Gathers W.follows) text.old text.new }
{
    write_head(attrs, text)?;
    write_neighbour(attrs, text)?;
    write_way(attrs, text)?;
    write_metrics(attrs, text)?;
    write_communities(&attrs.coms, text)?;
    text.send()
}

/// The fields that each route has: the preference, the kind and what is done with packets.
fn write_head<W: TextOut>(attrs: &Attrs, out: &mut W) -> Result<(), W::Fault>
    ensures written { OnOk result
        (W.written out.new ≡ W.written out.old ++ codes "pref " ++ decimal attrs.now.pref
        ++ 32 ∷ kind_text attrs.now.kind ++ 32 ∷ dest_text attrs.now.dest) }
    ensures kept { Kept W.follows out.old out.new }
{
    out.put(b"pref ")?;
    write_number(attrs.pref, out)?;
    out.put(b" ")?;
    out.put(attrs.kind.word().as_bytes())?;
    out.put(b" ")?;
    out.put(attrs.dest.word().as_bytes())
}

/// Where packets go, and from whom the route was learned.
fn write_neighbour<W: TextOut>(attrs: &Attrs, out: &mut W) -> Result<(), W::Fault>
    ensures written { OnOk result (W.written out.new ≡ W.written out.old
        ++ optional_text (codes " gw ") addr_text attrs.now.gw
        ++ optional_text (codes " from ") addr_text attrs.now.sender
        ++ peer_text attrs.now.kind attrs.now.peer_id attrs.now.ebgp) }
    ensures kept { Kept W.follows out.old out.new }
{
    write_optional_addr(" gw ", attrs.gw, out)?;
    write_optional_addr(" from ", attrs.sender, out)?;
    write_peer(attrs, out)
}

/// The path that the route came by, with its origin and its next hop.
fn write_way<W: TextOut>(attrs: &Attrs, out: &mut W) -> Result<(), W::Fault>
    ensures written { OnOk result (W.written out.new ≡ W.written out.old
        ++ list_text (codes " path") decimal attrs.now.path
        ++ optional_text (codes " origin ") origin_text attrs.now.origin
        ++ optional_text (codes " nh ") addr_text attrs.now.next_hop) }
    ensures kept { Kept W.follows out.old out.new }
{
    write_path(&attrs.path, out)?;
    write_optional_origin(attrs.origin, out)?;
    write_optional_addr(" nh ", attrs.next_hop, out)
}

/// The numbers by which routes are compared.
fn write_metrics<W: TextOut>(attrs: &Attrs, out: &mut W) -> Result<(), W::Fault>
    ensures written { OnOk result (W.written out.new ≡ W.written out.old
        ++ optional_text (codes " med ") decimal attrs.now.med
        ++ optional_text (codes " lp ") decimal attrs.now.lp
        ++ optional_text (codes " igp ") decimal attrs.now.igp) }
    ensures kept { Kept W.follows out.old out.new }
{
    write_optional_number(" med ", attrs.med, out)?;
    write_optional_number(" lp ", attrs.lp, out)?;
    write_optional_number(" igp ", attrs.igp, out)
}

/// Appends a label and a number in decimal, where there is a number. On refusal a part of it may
/// stand.
pub fn write_optional_number<W: TextOut>(
    label: &str,
    number: Option<u32>,
    out: &mut W,
) -> Result<(), W::Fault>
    ensures written { OnOk result (W.written out.new ≡ W.written out.old
        ++ optional_text label.now decimal number) }
    ensures kept { Kept W.follows out.old out.new }
{
    let Some(number) = number else {
        return Ok(());
    };
    out.put(label.as_bytes())?;
    write_number(number, out)
}

fn write_optional_addr<W: TextOut>(
    label: &str,
    addr: Option<Addr>,
    out: &mut W,
) -> Result<(), W::Fault>
    ensures written { OnOk result (W.written out.new ≡ W.written out.old
        ++ optional_text label.now addr_text addr) }
    ensures kept { Kept W.follows out.old out.new }
{
    let Some(addr) = addr else {
        return Ok(());
    };
    out.put(label.as_bytes())?;
    append_addr(&addr, out)
}

fn write_optional_origin<W: TextOut>(origin: Option<Origin>, out: &mut W) -> Result<(), W::Fault>
    ensures written { OnOk result (W.written out.new ≡ W.written out.old
        ++ optional_text (codes " origin ") origin_text origin) }
    ensures kept { Kept W.follows out.old out.new }
{
    let Some(origin) = origin else {
        return Ok(());
    };
    out.put(b" origin ")?;
    out.put(origin.word().as_bytes())
}

/// What only routes of BGP have: the neighbour's router id, and whether it is in another autonomous
/// system.
fn write_peer<W: TextOut>(attrs: &Attrs, out: &mut W) -> Result<(), W::Fault>
    ensures written { OnOk result (W.written out.new ≡ W.written out.old
        ++ peer_text attrs.now.kind attrs.now.peer_id attrs.now.ebgp) }
    ensures kept { Kept W.follows out.old out.new }
{
    if attrs.kind == Kind::Static {
        return Ok(());
    }
    out.put(b" id ")?;
    append_addr(&Addr::V4(attrs.peer_id), out)?;
    out.put(if attrs.ebgp { b" ebgp" } else { b" ibgp" })
}

fn write_path<W: TextOut>(path: &Path, out: &mut W) -> Result<(), W::Fault>
    ensures written { OnOk result (W.written out.new ≡ W.written out.old
        ++ list_text (codes " path") decimal path.now) }
    ensures kept { Kept W.follows out.old out.new }
{
    if path.is_empty() {
        return Ok(());
    }
    out.put(b" path")?;
    write_spaced_numbers(path.as_slice(), out)
}

/// Appends each number in decimal, with a space before it. On refusal a part of it may stand.
pub fn write_spaced_numbers<W: TextOut>(numbers: &[u32], out: &mut W) -> Result<(), W::Fault>
    ensures written { OnOk result (W.written out.new ≡ W.written out.old
        ++ flat_map (λ number. 32 ∷ decimal number) numbers.now) }
    ensures kept { Kept W.follows out.old out.new }
{
    for number in numbers {
        out.put(b" ")?;
        write_number(*number, out)?;
    }
    Ok(())
}

/// Appends ` com` and each community, where there are some. On refusal a part of it may stand.
pub fn write_communities<W: TextOut>(communities: &Clist, out: &mut W) -> Result<(), W::Fault>
    ensures written { OnOk result (W.written out.new ≡ W.written out.old
        ++ list_text (codes " com") community_text communities.now) }
    ensures kept { Kept W.follows out.old out.new }
{
    if communities.is_empty() {
        return Ok(());
    }
    out.put(b" com")?;
    write_spaced_pairs(communities.as_slice(), out)
}

/// Appends each community as `SYSTEM:VALUE` in decimal, with a space before it (RFC 1997). On
/// refusal a part of it may stand.
pub fn write_spaced_pairs<W: TextOut>(pairs: &[(u16, u16)], out: &mut W) -> Result<(), W::Fault>
    ensures written { OnOk result (W.written out.new ≡ W.written out.old
        ++ flat_map (λ pair. 32 ∷ community_text pair) pairs.now) }
    ensures kept { Kept W.follows out.old out.new }
{
    for (system, value) in pairs {
        out.put(b" ")?;
        write_number(*system, out)?;
        out.put(b":")?;
        write_number(*value, out)?;
    }
    Ok(())
}
