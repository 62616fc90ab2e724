//! Entries made of their parts: here memory is taken.
ghost use Rattle.std.specs.Prelude.{◌≡◌, ◌≤◌, length, map, IfOk, IfSome, option_map};
ghost use Rattle.attrs.specs.Clist.{IsClist};
ghost use Rattle.rec_words.specs.Entries.{IsEntry, IsRoute};
ghost use Rattle.rec_words.specs.Reading.{AreAsTold, entry_in, numbers_in, pair_of, route_in};

use crate::parts::{EntryParts, Numbers, RouteParts};
use crate::word::{high_half, low_half, pair_of};
use attrs::{Attrs, Clist, JEntry, Path, Route};
use bits_ip::OutOfMemory;
use std::alloc::Global;

pub(crate) fn build_entry(alloc: Global, parts: &EntryParts) -> Result<JEntry, OutOfMemory>
    requires entry { IsEntry (entry_in parts.now) }
    requires told { AreAsTold parts.now }
    ensures { IfOk result (λ entry. entry ≡ entry_in parts.now) }
{
    let new = build_optional_route(alloc, parts.new.as_ref())?;
    let best = build_best(alloc, parts, new.as_ref())?;
    Ok(JEntry {
        net: parts.front.net,
        num: parts.front.num,
        new,
        best,
    })
}

/// The best route, which owns the attributes of the new one where that is the best.
fn build_best(
    alloc: Global,
    parts: &EntryParts,
    new: Option<&Route>,
) -> Result<Option<Route>, OutOfMemory>
    requires best { IfSome parts.now.best (λ best. IsRoute (route_in best)) }
    requires told { AreAsTold parts.now }
    requires new { option_map (λ new. new.now) new ≡ option_map route_in parts.now.new }
    ensures { IfOk result (λ route. route ≡ option_map route_in parts.now.best) }
{
    match new {
        Some(new) if parts.is_new_best => Ok(Some(new.copy()?)),
        _ => build_optional_route(alloc, parts.best.as_ref()),
    }
}

fn build_optional_route(
    alloc: Global,
    parts: Option<&RouteParts>,
) -> Result<Option<Route>, OutOfMemory>
    requires { IfSome parts (λ parts. IsRoute (route_in parts.now)) }
    ensures { IfOk result (λ route. route ≡ option_map (λ parts. route_in parts.now) parts.entry) }
{
    match parts {
        None => Ok(None),
        Some(parts) => Ok(Some(build_route(alloc, parts)?)),
    }
}

fn build_route(alloc: Global, parts: &RouteParts) -> Result<Route, OutOfMemory>
    requires { IsRoute (route_in parts.now) }
    ensures { IfOk result (λ route. route ≡ route_in parts.now) }
{
    let path = build_path(alloc, &parts.path)?;
    let coms = build_clist(alloc, &parts.coms)?;
    let attrs = Attrs {
        pref: parts.head.pref,
        kind: parts.head.shape.kind,
        dest: parts.head.shape.dest,
        gw: parts.ways.gw,
        sender: parts.ways.sender,
        peer_id: parts.head.peer_id,
        ebgp: parts.head.shape.ebgp,
        path,
        origin: parts.head.shape.origin,
        next_hop: parts.ways.next_hop,
        med: parts.head.med,
        lp: parts.head.lp,
        igp: parts.head.igp,
        coms,
    };
    Route::make(alloc, parts.head.src, attrs)
}

fn build_path(alloc: Global, numbers: &Numbers) -> Result<Path, OutOfMemory>
    requires { length (numbers_in numbers.now) ≤ 120 }
    ensures { IfOk result (λ path. path ≡ numbers_in numbers.now) }
{
    let mut path = Vec::new(alloc);
    for word in numbers.pairs {
        path.push(low_half(*word))?;
        path.push(high_half(*word))?;
    }
    if let Some(last) = numbers.last {
        path.push(last)?;
    }
    Ok(Path::from_vec(path))
}

fn build_clist(alloc: Global, numbers: &Numbers) -> Result<Clist, OutOfMemory>
    requires { IsClist (map pair_of (numbers_in numbers.now)) }
    ensures { IfOk result (λ coms. coms ≡ map pair_of (numbers_in numbers.now)) }
{
    let mut coms = Vec::new(alloc);
    for word in numbers.pairs {
        coms.push(pair_of(low_half(*word)))?;
        coms.push(pair_of(high_half(*word)))?;
    }
    if let Some(last) = numbers.last {
        coms.push(pair_of(last))?;
    }
    Ok(Clist::from_vec(coms))
}
