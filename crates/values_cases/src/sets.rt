//! Sets and masks, in BIRD's notation: whether a set has an element, and whether a mask matches a
//! path. In each case a copy of the set is asked too, and the mask gives back its items.
use crate::items::{ints, mask, net, pairs, path, prefixes};
use crate::notation::{bad, inside, number, pair, sides};
use bits_ip::OutOfMemory;
use filt_sets::{IntSet, Mask, PairSet, PrefixSet};
use std::alloc::Global;
use std::io::{Error, ErrorKind};
use std::{io, str};

/// What the elements of a table's sets are.
#[derive(Clone, Copy, Debug)]
pub enum Table {
    /// `NUMBER ~ [ITEM, ..]`
    Ints,
    /// `(NUMBER,NUMBER) ~ [(RANGE,RANGE), ..]`
    Pairs,
    /// `NET ~ [ITEM, ..]`
    Prefixes,
    /// `(NUMBER ..) ~ [= ITEM .. =]`: the mask matches the path of these numbers.
    Masks,
}

fn memory(_: OutOfMemory) -> Error {
    Error::from(ErrorKind::OutOfMemory)
}

fn has_int(alloc: Global, element: &str, set: &str) -> io::Result<Option<bool>> {
    let items = ints(alloc, inside(set, "[", "]").ok_or(bad())?)?;
    let set = IntSet::make(items);
    let number = number(element)?;
    let has = set.has(number);
    Ok((set.copy(alloc).map_err(memory)?.has(number) == has).then_some(has))
}

fn has_pair(alloc: Global, element: &str, set: &str) -> io::Result<Option<bool>> {
    let items = pairs(alloc, inside(set, "[", "]").ok_or(bad())?)?;
    let set = PairSet::make(items);
    let (first, second) = pair(inside(element, "(", ")").ok_or(bad())?)?;
    let has = set.has(first, second);
    Ok((set.copy(alloc).map_err(memory)?.has(first, second) == has).then_some(has))
}

fn has_prefix(alloc: Global, element: &str, set: &str) -> io::Result<Option<bool>> {
    let items = prefixes(alloc, inside(set, "[", "]").ok_or(bad())?)?;
    let set = PrefixSet::make(items);
    let net = net(element)?;
    let has = set.has(&net);
    Ok((set.copy(alloc).map_err(memory)?.has(&net) == has).then_some(has))
}

fn has_path(alloc: Global, element: &str, set: &str) -> io::Result<Option<bool>> {
    let path = path(alloc, inside(element, "(", ")").ok_or(bad())?)?;
    let items = mask(alloc, inside(set, "[=", "=]").ok_or(bad())?)?;
    let mask = Mask::make(items.as_slice().to_vec(alloc)?);
    let same = mask.items() == items.as_slice();
    Ok(same.then_some(mask.matches(path.as_slice())))
}

/// `true` or `false`, or that a copy answers otherwise or the items aren't those that the mask was
/// made of.
pub fn answer(alloc: Global, table: Table, case: &[u8]) -> io::Result<String> {
    let text = str::from_utf8(case).map_err(|_| bad())?;
    let (element, set) = sides(text, " ~ ")?;
    let found = match table {
        Table::Ints => has_int(alloc, element, set)?,
        Table::Pairs => has_pair(alloc, element, set)?,
        Table::Prefixes => has_prefix(alloc, element, set)?,
        Table::Masks => has_path(alloc, element, set)?,
    };
    let answer = match found {
        Some(true) => "true",
        Some(false) => "false",
        None => "otherwise",
    };
    Ok(String::from_str(alloc, answer)?)
}
