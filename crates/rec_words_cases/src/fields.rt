//! What stands behind a label of a route in a case.
use attrs::{Clist, Dest, Kind, Origin, Path};
use std::alloc::Global;
use std::io;

/// The error of a case that isn't in the notation.
pub fn bad() -> io::Error {
    io::Error::from(io::ErrorKind::InvalidData)
}

pub fn number(text: &str) -> io::Result<u32> {
    text.parse::<u32>().map_err(|_| bad())
}

pub fn kind(text: &str) -> io::Result<Kind> {
    for kind in [Kind::Static, Kind::Bgp] {
        if text == kind.word() {
            return Ok(kind);
        }
    }
    Err(bad())
}

pub fn dest(text: &str) -> io::Result<Dest> {
    for dest in [
        Dest::Unicast,
        Dest::Blackhole,
        Dest::Unreachable,
        Dest::Prohibit,
    ] {
        if text == dest.word() {
            return Ok(dest);
        }
    }
    Err(bad())
}

pub fn origin(text: &str) -> io::Result<Origin> {
    for origin in [Origin::Igp, Origin::Egp, Origin::Incomplete] {
        if text == origin.word() {
            return Ok(origin);
        }
    }
    Err(bad())
}

/// `N,N,..`
pub fn path(alloc: Global, text: &str) -> io::Result<Path> {
    let mut numbers = Vec::new(alloc);
    for item in text.split(',') {
        numbers.push(number(item)?)?;
    }
    Path::try_from_vec(numbers).ok_or(bad())
}

fn part(text: &str) -> io::Result<u16> {
    u16::try_from(number(text)?).map_err(|_| bad())
}

/// `N:N,N:N,..`
pub fn communities(alloc: Global, text: &str) -> io::Result<Clist> {
    let mut list = Clist::new(alloc);
    for item in text.split(',') {
        let (system, value) = item.split_once(':').ok_or(bad())?;
        list.add(part(system)?, part(value)?).map_err(|_| bad())?;
    }
    Ok(list)
}
