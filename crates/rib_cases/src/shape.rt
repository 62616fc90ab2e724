//! Routes as cases write them: what differs from one route of BGP.
use attrs::{Attrs, Clist, Dest, Kind, Origin, Path, Route, Src};
use bits_ip::{Addr, parse_addr};
use std::alloc::Global;
use std::io;

/// What the rules of selection read off a route. The path has so many numbers, all the same.
#[derive(Clone, Copy, Debug)]
struct Shape {
    src: Src,
    pref: u32,
    kind: Kind,
    lp: Option<u32>,
    path_len: u32,
    origin: Option<Origin>,
    med: Option<u32>,
    ebgp: bool,
    igp: Option<u32>,
    peer_id: u32,
    sender: Option<Addr>,
}

/// What stands where a case says nothing.
const PLAIN: Shape = Shape {
    src: Src {
        num: 1,
        def_med: 0,
        def_lp: 100,
    },
    pref: 100,
    kind: Kind::Bgp,
    lp: Some(100),
    path_len: 2,
    origin: Some(Origin::Egp),
    med: Some(10),
    ebgp: false,
    igp: Some(10),
    peer_id: 7,
    sender: Some(Addr::V4(9)),
};

/// The error of a case that isn't in the notation.
pub fn bad() -> io::Error {
    io::Error::from(io::ErrorKind::InvalidData)
}

fn number(text: &str) -> io::Result<u32> {
    text.parse::<u32>().map_err(|_| bad())
}

fn number_or_none(text: &str) -> io::Result<Option<u32>> {
    match text {
        "none" => Ok(None),
        _ => Ok(Some(number(text)?)),
    }
}

fn kind(text: &str) -> io::Result<Kind> {
    match text {
        "bgp" => Ok(Kind::Bgp),
        "static" => Ok(Kind::Static),
        _ => Err(bad()),
    }
}

fn origin(text: &str) -> io::Result<Option<Origin>> {
    match text {
        "igp" => Ok(Some(Origin::Igp)),
        "egp" => Ok(Some(Origin::Egp)),
        "incomplete" => Ok(Some(Origin::Incomplete)),
        "none" => Ok(None),
        _ => Err(bad()),
    }
}

fn sender(text: &str) -> io::Result<Option<Addr>> {
    match text {
        "none" => Ok(None),
        _ => Ok(Some(parse_addr(text.as_bytes()).ok_or(bad())?)),
    }
}

fn neighbour(text: &str) -> io::Result<bool> {
    match text {
        "external" => Ok(true),
        "internal" => Ok(false),
        _ => Err(bad()),
    }
}

fn set(shape: &mut Shape, name: &str, value: &str) -> io::Result<()> {
    match name {
        "source" => shape.src.num = number(value)?,
        "default-med" => shape.src.def_med = number(value)?,
        "default-lp" => shape.src.def_lp = number(value)?,
        "pref" => shape.pref = number(value)?,
        "kind" => shape.kind = kind(value)?,
        "lp" => shape.lp = number_or_none(value)?,
        "path" => shape.path_len = number(value)?,
        "origin" => shape.origin = origin(value)?,
        "med" => shape.med = number_or_none(value)?,
        "neighbour" => shape.ebgp = neighbour(value)?,
        "igp" => shape.igp = number_or_none(value)?,
        "id" => shape.peer_id = number(value)?,
        "from" => shape.sender = sender(value)?,
        _ => return Err(bad()),
    }
    Ok(())
}

/// The shape of `NAME VALUE, NAME VALUE, ..`.
fn read_shape(text: &str) -> io::Result<Shape> {
    let mut shape = PLAIN;
    for option in text.split(", ") {
        let (name, value) = option.split_once(" ").ok_or(bad())?;
        set(&mut shape, name, value)?;
    }
    Ok(shape)
}

fn path(alloc: Global, len: u32) -> io::Result<Path> {
    let mut path = Path::new(alloc);
    for _ in 0..len {
        path.prepend(65001).map_err(|_| bad())?;
    }
    Ok(path)
}

fn attrs(alloc: Global, shape: &Shape) -> io::Result<Attrs> {
    Ok(Attrs {
        pref: shape.pref,
        kind: shape.kind,
        dest: Dest::Unicast,
        gw: shape.sender,
        sender: shape.sender,
        peer_id: shape.peer_id,
        ebgp: shape.ebgp,
        path: path(alloc, shape.path_len)?,
        origin: shape.origin,
        next_hop: shape.sender,
        med: shape.med,
        lp: shape.lp,
        igp: shape.igp,
        coms: Clist::new(alloc),
    })
}

/// The route that a case writes so.
pub fn shaped(alloc: Global, text: &str) -> io::Result<Route> {
    let shape = read_shape(text)?;
    Route::make(alloc, shape.src, attrs(alloc, &shape)?).map_err(|_| bad())
}
