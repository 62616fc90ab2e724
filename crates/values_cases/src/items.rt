//! The items of sets and masks, as BIRD writes them.
use crate::notation::{bad, inside, number, range, sides};
use bits_ip::{Family, Prefix, parse_prefix};
use filt_sets::{Atom, IntItem, MaskItem, PairItem, PrefixItem};
use std::alloc::Global;
use std::io;

/// `RANGE, ..`
pub fn ints(alloc: Global, text: &str) -> io::Result<Vec<IntItem>> {
    let mut items = Vec::new(alloc);
    for item in text.split(", ") {
        if !item.is_empty() {
            items.push(range(item)?)?;
        }
    }
    Ok(items)
}

fn pair_item(text: &str) -> io::Result<PairItem> {
    let (a, b) = sides(inside(text, "(", ")").ok_or(bad())?, ",")?;
    Ok(PairItem {
        a: range(a)?,
        b: range(b)?,
    })
}

/// `(RANGE,RANGE), ..`
pub fn pairs(alloc: Global, text: &str) -> io::Result<Vec<PairItem>> {
    let mut items = Vec::new(alloc);
    for item in text.split(", ") {
        items.push(pair_item(item)?)?;
    }
    Ok(items)
}

pub fn net(text: &str) -> io::Result<Prefix> {
    parse_prefix(text.as_bytes()).ok_or(bad())
}

fn len(text: &str) -> io::Result<u8> {
    u8::try_from(number(text)?).map_err(|_| bad())
}

fn greatest(net: &Prefix) -> u8 {
    match net.family() {
        Family::V4 => 32,
        Family::V6 => 128,
    }
}

fn between(net: Prefix, lo: u8, hi: u8) -> PrefixItem {
    PrefixItem { net, lo, hi }
}

/// An item `a/l`, `a/l+`, `a/l-` or `a/l{lo,hi}`.
fn prefix_item(text: &str) -> io::Result<PrefixItem> {
    if let Some(front) = text.strip_suffix("+") {
        let net = net(front)?;
        return Ok(between(net, net.len(), greatest(&net)));
    }
    if let Some(front) = text.strip_suffix("-") {
        let net = net(front)?;
        return Ok(between(net, 0, net.len()));
    }
    if let Some(front) = text.strip_suffix("}") {
        let (front, lengths) = sides(front, "{")?;
        let (lo, hi) = sides(lengths, ",")?;
        return Ok(between(net(front)?, len(lo)?, len(hi)?));
    }
    let net = net(text)?;
    Ok(between(net, net.len(), net.len()))
}

/// `ITEM, ..`
pub fn prefixes(alloc: Global, text: &str) -> io::Result<Vec<PrefixItem>> {
    let mut items = Vec::new(alloc);
    for item in text.split(", ") {
        items.push(prefix_item(item)?)?;
    }
    Ok(items)
}

fn atom(text: &str) -> io::Result<Atom> {
    Ok(match text {
        "*" => Atom::Any,
        "?" => Atom::One,
        _ => {
            let IntItem { lo, hi } = range(text)?;
            Atom::Range(lo, hi)
        }
    })
}

fn mask_item(text: &str) -> io::Result<MaskItem> {
    Ok(match text.strip_suffix("+") {
        Some(front) => MaskItem {
            atom: atom(front)?,
            many: true,
        },
        None => MaskItem {
            atom: atom(text)?,
            many: false,
        },
    })
}

/// `ITEM ..`, where an item is a range, `?` or `*`, perhaps with `+`.
pub fn mask(alloc: Global, text: &str) -> io::Result<Vec<MaskItem>> {
    let mut items = Vec::new(alloc);
    for item in text.split_whitespace() {
        items.push(mask_item(item)?)?;
    }
    Ok(items)
}

/// The numbers of a path.
pub fn path(alloc: Global, text: &str) -> io::Result<Vec<u32>> {
    let mut path = Vec::new(alloc);
    for asn in text.split_whitespace() {
        path.push(number(asn)?)?;
    }
    Ok(path)
}
