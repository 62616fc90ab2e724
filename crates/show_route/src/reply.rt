//! The text of a reply.
ghost use Rattle.std.specs.Prelude.{◌≡◌, ◌++◌, ◌∷◌, List, ℕ, [], if◌then◌else◌, true, false, codes, decimal, map, OnOk, IfOk};
ghost use Rattle.bits_ip.specs.Text.{addr_text, net_text};
ghost use Rattle.attrs.specs.Text.{dest_text, optional_text};
ghost use Rattle.text.specs.Names.{name_of};
ghost use Rattle.show_route.specs.Reply.{as_text, last_as_text, origin_letter, reply_head, shown_route};

use attrs::{Attrs, Kind, Origin, Route};
use bits_ip::{Addr, OutOfMemory, Prefix, append_addr, append_prefix, write_number};
use std::alloc::Global;

/// The beginning of a reply.
pub(crate) fn begin(alloc: Global, table: &[u8]) -> Result<Vec<u8>, OutOfMemory>
    ensures { IfOk result (λ text. text.items ≡ reply_head table.now) }
{
    let mut out = Vec::new(alloc);
    out.extend_from_slice(b"Table ")?;
    out.extend_from_slice(table)?;
    out.extend_from_slice(b":\n")?;
    Ok(out)
}

pub(crate) fn write_route(
    names: &[&[u8]],
    net: &Prefix,
    is_best: bool,
    route: &Route,
    out: &mut Vec<u8>,
) -> Result<(), OutOfMemory>
    ensures { OnOk result
        (out.new.items ≡ out.old.items
        ++ shown_route (map (λ name. name.now) names.now) net.now is_best route.now) }
{
    write_source(names, net, route, out)?;
    write_rank(is_best, &route.attrs, out)?;
    write_gateway(route.attrs.gw, out)
}

/// The net, what is done with its packets, and the protocol.
fn write_source(
    names: &[&[u8]],
    net: &Prefix,
    route: &Route,
    out: &mut Vec<u8>,
) -> Result<(), OutOfMemory>
    ensures { OnOk result
        (out.new.items ≡ out.old.items
        ++ net_text net.now ++ 32 ∷ dest_text route.now.attrs.dest
        ++ codes " [" ++ name_of (map (λ name. name.now) names.now) route.now.src.num
        ++ codes "]") }
{
    append_prefix(net, out)?;
    out.push(b' ')?;
    out.extend_from_slice(route.attrs.dest.word().as_bytes())?;
    out.extend_from_slice(b" [")?;
    out.extend_from_slice(name_at(names, route.src.num))?;
    out.push(b']')?;
    Ok(())
}

fn name_at<'a>(names: &[&'a [u8]], num: u32) -> &'a [u8]
    ensures { result.now ≡ name_of (map (λ name. name.now) names.now) num }
{
    match names.get(num as usize) {
        Some(name) => name,
        None => b"",
    }
}

/// The star of the best route, the preference, and what only routes of BGP show.
fn write_rank(is_best: bool, attrs: &Attrs, out: &mut Vec<u8>) -> Result<(), OutOfMemory>
    ensures { OnOk result
        (out.new.items ≡ out.old.items
        ++ (if is_best then codes " *" else []) ++ codes " (" ++ decimal attrs.now.pref ++ codes ")"
        ++ as_text attrs.now.kind attrs.now.path attrs.now.origin ++ codes "\n") }
{
    out.extend_from_slice(if is_best { b" * (" } else { b" (" })?;
    write_number(attrs.pref, out)?;
    out.push(b')')?;
    write_as(attrs, out)?;
    out.push(b'\n')?;
    Ok(())
}

/// The last AS of the path, where it has one, and the origin's letter.
fn write_as(attrs: &Attrs, out: &mut Vec<u8>) -> Result<(), OutOfMemory>
    ensures { OnOk result
        (out.new.items ≡ out.old.items
        ++ as_text attrs.now.kind attrs.now.path attrs.now.origin) }
{
    if attrs.kind == Kind::Static {
        return Ok(());
    }
    out.extend_from_slice(b" [")?;
    write_last_as(attrs.path.as_slice(), out)?;
    out.extend_from_slice(origin_letter(attrs.origin).as_bytes())?;
    out.push(b']')?;
    Ok(())
}

fn write_last_as(path: &[u32], out: &mut Vec<u8>) -> Result<(), OutOfMemory>
    ensures { OnOk result (out.new.items ≡ out.old.items ++ last_as_text path.now) }
{
    let Some((last, _)) = path.split_last() else {
        return Ok(());
    };
    out.extend_from_slice(b"AS")?;
    write_number(*last, out)
}

fn write_gateway(gateway: Option<Addr>, out: &mut Vec<u8>) -> Result<(), OutOfMemory>
    ensures { OnOk result
        (out.new.items ≡ out.old.items
        ++ optional_text (codes "\tvia ") (λ gw. addr_text gw ++ codes "\n") gateway) }
{
    let Some(gateway) = gateway else {
        return Ok(());
    };
    out.extend_from_slice(b"\tvia ")?;
    append_addr(&gateway, out)?;
    out.push(b'\n')?;
    Ok(())
}

fn origin_letter(origin: Option<Origin>) -> &'static str
    ensures { result.now ≡ origin_letter origin }
{
    match origin {
        Some(Origin::Igp) => "i",
        Some(Origin::Egp) => "e",
        Some(Origin::Incomplete) => "?",
        None => "?",
    }
}
