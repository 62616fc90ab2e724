//! Entries as cases write them: `NET NUMBER`, then ` new ROUTE` and ` best ROUTE` where they are.
//!
//! A route is `LABEL=VALUE ..`, in any order. What isn't said is 0, false, none or empty; the kind
//! is static and the destination unicast.
use crate::fields::{bad, communities, dest, kind, number, origin, path};
use attrs::{Attrs, Clist, Dest, JEntry, Kind, Path, Route, Src};
use bits_ip::{Addr, parse_addr, parse_prefix};
use std::alloc::Global;
use std::io;

/// What a label is of.
#[derive(Clone, Copy, Debug)]
enum Label {
    Source,
    DefMed,
    DefLp,
    Pref,
    Kind,
    Dest,
    Gw,
    From,
    Id,
    Ebgp,
    Path,
    Origin,
    NextHop,
    Med,
    Lp,
    Igp,
    Com,
}

fn label_of(word: &str) -> io::Result<Label> {
    const LABELS: [(&str, Label); 17] = [
        ("source", Label::Source),
        ("def_med", Label::DefMed),
        ("def_lp", Label::DefLp),
        ("pref", Label::Pref),
        ("kind", Label::Kind),
        ("dest", Label::Dest),
        ("gw", Label::Gw),
        ("from", Label::From),
        ("id", Label::Id),
        ("ebgp", Label::Ebgp),
        ("path", Label::Path),
        ("origin", Label::Origin),
        ("nh", Label::NextHop),
        ("med", Label::Med),
        ("lp", Label::Lp),
        ("igp", Label::Igp),
        ("com", Label::Com),
    ];
    for (text, label) in LABELS {
        if word == text {
            return Ok(label);
        }
    }
    Err(bad())
}

fn addr(text: &str) -> io::Result<Option<Addr>> {
    Ok(Some(parse_addr(text.as_bytes()).ok_or(bad())?))
}

fn set_source(src: &mut Src, label: Label, value: &str) -> io::Result<()> {
    match label {
        Label::Source => src.num = number(value)?,
        Label::DefMed => src.def_med = number(value)?,
        _ => src.def_lp = number(value)?,
    }
    Ok(())
}

fn set_addr(attrs: &mut Attrs, label: Label, value: &str) -> io::Result<()> {
    match label {
        Label::Gw => attrs.gw = addr(value)?,
        Label::From => attrs.sender = addr(value)?,
        _ => attrs.next_hop = addr(value)?,
    }
    Ok(())
}

fn set_number(attrs: &mut Attrs, label: Label, value: &str) -> io::Result<()> {
    let number = number(value)?;
    match label {
        Label::Pref => attrs.pref = number,
        Label::Id => attrs.peer_id = number,
        Label::Ebgp => attrs.ebgp = number == 1,
        Label::Med => attrs.med = Some(number),
        Label::Lp => attrs.lp = Some(number),
        _ => attrs.igp = Some(number),
    }
    Ok(())
}

fn set(alloc: Global, src: &mut Src, attrs: &mut Attrs, item: &str) -> io::Result<()> {
    let (word, value) = item.split_once('=').ok_or(bad())?;
    let label = label_of(word)?;
    match label {
        Label::Source | Label::DefMed | Label::DefLp => set_source(src, label, value)?,
        Label::Gw | Label::From | Label::NextHop => set_addr(attrs, label, value)?,
        Label::Kind => attrs.kind = kind(value)?,
        Label::Dest => attrs.dest = dest(value)?,
        Label::Path => attrs.path = path(alloc, value)?,
        Label::Origin => attrs.origin = Some(origin(value)?),
        Label::Com => attrs.coms = communities(alloc, value)?,
        _ => set_number(attrs, label, value)?,
    }
    Ok(())
}

fn unsaid(alloc: Global) -> Attrs {
    Attrs {
        pref: 0,
        kind: Kind::Static,
        dest: Dest::Unicast,
        gw: None,
        sender: None,
        peer_id: 0,
        ebgp: false,
        path: Path::new(alloc),
        origin: None,
        next_hop: None,
        med: None,
        lp: None,
        igp: None,
        coms: Clist::new(alloc),
    }
}

fn read_route(alloc: Global, text: &str) -> io::Result<Route> {
    let mut src = Src {
        num: 0,
        def_med: 0,
        def_lp: 0,
    };
    let mut attrs = unsaid(alloc);
    for item in text.split_whitespace() {
        set(alloc, &mut src, &mut attrs, item)?;
    }
    Route::make(alloc, src, attrs).map_err(|_| bad())
}

fn read_optional_route(alloc: Global, text: Option<&str>) -> io::Result<Option<Route>> {
    match text {
        Some(text) => Ok(Some(read_route(alloc, text)?)),
        None => Ok(None),
    }
}

/// What stands before a sign and, where it is there, behind it.
fn cut<'a>(text: &'a str, sign: &str) -> (&'a str, Option<&'a str>) {
    match text.split_once(sign) {
        Some((front, behind)) => (front, Some(behind)),
        None => (text, None),
    }
}

pub fn read_entry(alloc: Global, text: &str) -> io::Result<JEntry> {
    let (front, best) = cut(text, " best ");
    let (front, new) = cut(front, " new ");
    let (net, num) = front.split_once(' ').ok_or(bad())?;
    let net = parse_prefix(net.as_bytes()).ok_or(bad())?;
    let num = number(num)?;
    let new = read_optional_route(alloc, new)?;
    let best = read_optional_route(alloc, best)?;
    Ok(JEntry {
        net,
        num,
        new,
        best,
    })
}
