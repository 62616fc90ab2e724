//! The routes of a file: `NET | NAME VALUE, NAME VALUE, ..`. What isn't said is: source 1, pref
//! 100, kind bgp, dest unicast, no path, no origin, no gateway, learned from another AS.
ghost use Rattle.std.specs.Prelude.{◌≡◌};
ghost use Rattle.bits_ip.specs.Address.{family_of};
ghost use Rattle.bits_ip.specs.declared.address.Family.TheVariants as Family;

use attrs::{Attrs, Change, Clist, Dest, Kind, Origin, Path, Route, Src};
use bits_ip::{Addr, Family, OutOfMemory, Prefix, parse_addr, parse_prefix};
use cases::Case;
use rib::Rib;
use std::alloc::Global;
use std::io;

/// The error of a case that isn't in the notation.
pub fn bad() -> io::Error {
    io::Error::from(io::ErrorKind::InvalidData)
}

fn number(text: &str) -> io::Result<u32> {
    text.parse::<u32>().map_err(|_| bad())
}

fn addr(text: &str) -> io::Result<Addr> {
    parse_addr(text.as_bytes()).ok_or(bad())
}

pub fn prefix(text: &str) -> io::Result<Prefix> {
    parse_prefix(text.as_bytes()).ok_or(bad())
}

fn dest(text: &str) -> io::Result<Dest> {
    match text {
        "unicast" => Ok(Dest::Unicast),
        "blackhole" => Ok(Dest::Blackhole),
        "unreachable" => Ok(Dest::Unreachable),
        "prohibit" => Ok(Dest::Prohibit),
        _ => Err(bad()),
    }
}

fn origin(text: &str) -> io::Result<Origin> {
    match text {
        "igp" => Ok(Origin::Igp),
        "egp" => Ok(Origin::Egp),
        "incomplete" => Ok(Origin::Incomplete),
        _ => Err(bad()),
    }
}

/// The path, whose last number comes first where it is put together.
fn path(attrs: &mut Attrs, text: &str) -> io::Result<()> {
    for word in text.rsplit(' ') {
        attrs.path.prepend(number(word)?).map_err(|_| bad())?;
    }
    Ok(())
}

fn communities(attrs: &mut Attrs, text: &str) -> io::Result<()> {
    let (first, second) = text.split_once(":").ok_or(bad())?;
    let first = first.parse::<u16>().map_err(|_| bad())?;
    let second = second.parse::<u16>().map_err(|_| bad())?;
    attrs.coms.add(first, second).map_err(|_| bad())
}

fn set(src: &mut Src, attrs: &mut Attrs, name: &str, value: &str) -> io::Result<()> {
    match name {
        "source" => src.num = number(value)?,
        "pref" => attrs.pref = number(value)?,
        "static" => {
            attrs.kind = Kind::Static;
            attrs.dest = dest(value)?;
        }
        "gw" => attrs.gw = Some(addr(value)?),
        "from" => attrs.sender = Some(addr(value)?),
        "id" => attrs.peer_id = number(value)?,
        "ibgp" => attrs.ebgp = false,
        "path" => path(attrs, value)?,
        "origin" => attrs.origin = Some(origin(value)?),
        "nh" => attrs.next_hop = Some(addr(value)?),
        "med" => attrs.med = Some(number(value)?),
        "lp" => attrs.lp = Some(number(value)?),
        "igp" => attrs.igp = Some(number(value)?),
        "com" => communities(attrs, value)?,
        _ => return Err(bad()),
    }
    Ok(())
}

fn plain(alloc: Global) -> Attrs {
    Attrs {
        pref: 100,
        kind: Kind::Bgp,
        dest: Dest::Unicast,
        gw: None,
        sender: None,
        peer_id: 0,
        ebgp: true,
        path: Path::new(alloc),
        origin: None,
        next_hop: None,
        med: None,
        lp: None,
        igp: None,
        coms: Clist::new(alloc),
    }
}

fn route(alloc: Global, text: &str) -> io::Result<Route> {
    let mut src = Src {
        num: 1,
        def_med: 0,
        def_lp: 100,
    };
    let mut attrs = plain(alloc);
    for option in text.split(", ") {
        let (name, value) = option.split_once(" ").ok_or(bad())?;
        set(&mut src, &mut attrs, name, value)?;
    }
    Route::make(alloc, src, attrs).map_err(|_| bad())
}

fn put(rib: &mut Rib, net: Prefix, route: Route) -> io::Result<()>
    requires { rib.old.family ≡ Family.V4 }
    ensures { rib.new.family ≡ Family.V4 }
{
    match net.family() {
        Family::V4 => change(rib, net, route).map_err(|_| bad()),
        Family::V6 => Err(bad()),
    }
}

fn change(rib: &mut Rib, net: Prefix, route: Route) -> Result<(), OutOfMemory>
    requires table { rib.old.family ≡ Family.V4 }
    requires net { family_of net.addr ≡ Family.V4 }
    ensures { rib.new.family ≡ Family.V4 }
{
    let change = Change {
        net,
        num: route.src.num,
        new: Some(route),
    };
    rib.reserve(&change)?;
    let _outcome = rib.change(change);
    Ok(())
}

/// Puts the routes of these lines in, one after the other.
fn put_all(alloc: Global, rib: &mut Rib, lines: &[Case]) -> io::Result<()>
    requires { rib.old.family ≡ Family.V4 }
    ensures { rib.new.family ≡ Family.V4 }
{
    for line in lines {
        let net = prefix(line.expected.as_str())?;
        let text = str::from_utf8(line.input.as_slice()).map_err(|_| bad())?;
        put(rib, net, route(alloc, text)?)?;
    }
    Ok(())
}

/// The table of the routes of these lines.
pub fn table(alloc: Global, lines: &[Case]) -> io::Result<Rib> {
    let mut rib = Rib::make(alloc, Family::V4);
    put_all(alloc, &mut rib, lines)?;
    Ok(rib)
}
