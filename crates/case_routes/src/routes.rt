//! Routes as a case writes them: `NET LABEL VALUE ..`, in any order behind the net.
//!
//! The labels are `pref`, `gw`, `from`, `path`, `origin`, `nh`, `med`, `lp`, `igp` and `com`, as
//! texts of attributes have them. What isn't said is as in the route of 203.0.113.0/24 that a
//! neighbour 192.0.2.1 in another autonomous system gives with the path 65001 65002. `static` makes
//! it a blackhole of a static protocol, with no attribute that isn't said behind that word.
use attrs::{Attrs, Clist, Dest, Kind, Origin, Path, Route, Src};
use bits_ip::{Addr, Prefix, parse_addr, parse_decimal, parse_prefix};
use std::alloc::Global;
use std::io;
use std::io::{Error, ErrorKind};
use text::next_word;

const NEIGHBOUR: Addr = Addr::V4(0xC000_0201);

/// The error of words that say no route.
fn bad() -> Error {
    Error::from(ErrorKind::InvalidData)
}

/// What the word behind a label is of.
#[derive(Clone, Copy, Debug, PartialEq, Eq)]
enum Label {
    Pref,
    Gw,
    From,
    Path,
    Origin,
    NextHop,
    Med,
    Lp,
    Igp,
    Com,
    Static,
}

/// What is said of a route so far.
#[derive(Drop)]
struct Said {
    label: Label,
    kind: Kind,
    pref: u32,
    gw: Option<Addr>,
    sender: Option<Addr>,
    path: Vec<u32>,
    origin: Option<Origin>,
    next_hop: Option<Addr>,
    med: Option<u32>,
    lp: Option<u32>,
    igp: Option<u32>,
    coms: Vec<(u16, u16)>,
}

fn label_of(word: &[u8]) -> Option<Label> {
    const LABELS: [(&[u8], Label); 11] = [
        (b"pref", Label::Pref),
        (b"gw", Label::Gw),
        (b"from", Label::From),
        (b"path", Label::Path),
        (b"origin", Label::Origin),
        (b"nh", Label::NextHop),
        (b"med", Label::Med),
        (b"lp", Label::Lp),
        (b"igp", Label::Igp),
        (b"com", Label::Com),
        (b"static", Label::Static),
    ];
    for (text, label) in LABELS {
        if word == text {
            return Some(label);
        }
    }
    None
}

fn learned(alloc: Global) -> io::Result<Said> {
    let path = [65001, 65002].as_slice().to_vec(alloc)?;
    Ok(Said {
        label: Label::Pref,
        kind: Kind::Bgp,
        pref: 100,
        gw: Some(NEIGHBOUR),
        sender: Some(NEIGHBOUR),
        path,
        origin: Some(Origin::Igp),
        next_hop: Some(NEIGHBOUR),
        med: None,
        lp: Some(100),
        igp: None,
        coms: Vec::new(alloc),
    })
}

fn be_static(said: &mut Said) {
    said.kind = Kind::Static;
    said.pref = 200;
    said.gw = None;
    said.sender = None;
    said.path.clear();
    said.origin = None;
    said.next_hop = None;
    said.lp = None;
}

fn begin(said: &mut Said, label: Label) {
    said.label = label;
    match label {
        Label::Path => said.path.clear(),
        Label::Static => be_static(said),
        _ => {}
    }
}

fn origin(word: &[u8]) -> io::Result<Origin> {
    match word.first() {
        Some(b'i') if word != b"incomplete".as_slice() => Ok(Origin::Igp),
        Some(b'i') => Ok(Origin::Incomplete),
        Some(b'e') => Ok(Origin::Egp),
        _ => Err(bad()),
    }
}

fn number(word: &[u8]) -> io::Result<u32> {
    parse_decimal(word).ok_or(bad())
}

fn part(word: &[u8]) -> io::Result<u16> {
    u16::try_from(number(word)?).map_err(|_| bad())
}

fn community(word: &[u8]) -> io::Result<(u16, u16)> {
    let colon = word.iter().position(|byte| *byte == b':').ok_or(bad())?;
    let (first, second) = word.split_at(colon);
    Ok((part(first)?, part(second.get(1..).ok_or(bad())?)?))
}

fn take_value(said: &mut Said, word: &[u8]) -> io::Result<()> {
    match said.label {
        Label::Pref => said.pref = number(word)?,
        Label::Gw => said.gw = parse_addr(word),
        Label::From => said.sender = parse_addr(word),
        Label::Path => said.path.push(number(word)?)?,
        Label::Origin => said.origin = Some(origin(word)?),
        Label::NextHop => said.next_hop = parse_addr(word),
        Label::Med => said.med = Some(number(word)?),
        Label::Lp => said.lp = Some(number(word)?),
        Label::Igp => said.igp = Some(number(word)?),
        Label::Com => said.coms.push(community(word)?)?,
        Label::Static => return Err(bad()),
    }
    Ok(())
}

fn take_word(said: &mut Said, word: &[u8]) -> io::Result<()> {
    match label_of(word) {
        Some(label) => begin(said, label),
        None => take_value(said, word)?,
    }
    Ok(())
}

fn take_words(said: &mut Said, words: &[u8]) -> io::Result<()> {
    let mut rest = words;
    while let Some((word, after)) = next_word(rest) {
        take_word(said, word)?;
        rest = after;
    }
    Ok(())
}

fn communities(alloc: Global, pairs: &[(u16, u16)]) -> io::Result<Clist> {
    let mut list = Clist::new(alloc);
    for (first, second) in pairs {
        list.add(*first, *second).map_err(|_| bad())?;
    }
    Ok(list)
}

fn attrs_of(alloc: Global, said: Said) -> io::Result<Attrs> {
    let is_bgp = said.kind == Kind::Bgp;
    let coms = communities(alloc, &said.coms)?;
    Ok(Attrs {
        pref: said.pref,
        kind: said.kind,
        dest: if is_bgp {
            Dest::Unicast
        } else {
            Dest::Blackhole
        },
        gw: said.gw,
        sender: said.sender,
        peer_id: if is_bgp { 0x0A00_0001 } else { 0 },
        ebgp: is_bgp,
        path: Path::try_from_vec(said.path).ok_or(bad())?,
        origin: said.origin,
        next_hop: said.next_hop,
        med: said.med,
        lp: said.lp,
        igp: said.igp,
        coms,
    })
}

fn net_of(words: &[u8]) -> io::Result<Prefix> {
    match next_word(words) {
        Some((word, _)) if label_of(word).is_none() => parse_prefix(word).ok_or(bad()),
        _ => parse_prefix(b"203.0.113.0/24").ok_or(bad()),
    }
}

/// The words behind the net, where one is said.
fn labelled(words: &[u8]) -> &[u8] {
    match next_word(words) {
        Some((word, rest)) if label_of(word).is_none() => rest,
        _ => words,
    }
}

/// The net and the route that these words say; its source is the protocol with the number 0.
pub fn read_route(alloc: Global, words: &[u8]) -> io::Result<(Prefix, Route)> {
    let net = net_of(words)?;
    let mut said = learned(alloc)?;
    take_words(&mut said, labelled(words))?;
    let src = Src {
        num: 0,
        def_med: 0,
        def_lp: 100,
    };
    let attrs = attrs_of(alloc, said)?;
    let route = Route::make(alloc, src, attrs).map_err(|_| bad())?;
    Ok((net, route))
}
