//! The keys that a chunk marks, each with its candidate.
ghost use Rattle.std.specs.Prelude.{◌≡◌, ◌==◌, ◌&&◌, Some, None, OnOk, IfOk, true, option_map, is_some, slice_get, if◌then◌else◌};
ghost use Rattle.bits_ip.specs.Prefix.{same_net};
ghost use Rattle.attrs.specs.Table.{route_of};
ghost use Rattle.export_core.specs.declared.log.Key.{Key};
ghost use Rattle.export_core.specs.Keys.{same_key};
ghost use Rattle.export_core.specs.Candidates.{AddsNone, among, best_in, candidate_of, end_bound, first_bound, told_first};
ghost use Rattle.export_core.specs.Marks.{at};

use crate::floors::Floor;
use crate::log::Key;
use crate::passing::ExportSpec;
use attrs::{Route, Row};
use bits_ip::{OutOfMemory, Prefix};
use std::alloc::Global;
use std::collections::BTreeMap;
use std::ops::Bound;

fn first_bound(first: Option<Prefix>) -> Bound<Key>
    ensures { result ≡ first_bound first }
{
    match first {
        None => Bound::Unbounded,
        Some(first) => Bound::Included(Key { net: first, num: 0 }),
    }
}

fn end_bound(end: Option<Prefix>) -> Bound<Key>
    ensures { result ≡ end_bound end }
{
    match end {
        None => Bound::Unbounded,
        Some(end) => Bound::Excluded(Key { net: end, num: 0 }),
    }
}

/// The ends of a range of nets.
pub(crate) fn bounds_of(range: &Floor) -> (Bound<Key>, Bound<Key>)
    ensures { result ≡ (first_bound range.now.from, end_bound range.now.upto) }
{
    (first_bound(range.from), end_bound(range.upto))
}

/// The route becomes its key's candidate, where the direction passes its source.
fn put_route(
    candidates: &mut BTreeMap<Key, Option<Route>>,
    spec: &ExportSpec,
    net: &Prefix,
    route: &Route,
) -> Result<(), OutOfMemory>
    ensures { OnOk result ((q : Key) → at q candidates.new.entries
        ≡ (if same_net q.net net.now
        && ((q.num == route.now.src.num) && among route.now.src.num spec.now.sources)
        then Some (Some route.now)
        else at q candidates.old.entries)) }
{
    if spec.passes(route.src.num) {
        let key = Key {
            net: *net,
            num: route.src.num,
        };
        candidates.insert(key, Some(route.copy()?))?;
    }
    Ok(())
}

/// The same for each of a net's routes.
fn put_routes(
    candidates: &mut BTreeMap<Key, Option<Route>>,
    spec: &ExportSpec,
    net: &Prefix,
    routes: &[Route],
) -> Result<(), OutOfMemory>
    ensures { OnOk result ((q : Key) → at q candidates.new.entries
        ≡ (if same_net q.net net.now
        then told_first
        (if among q.num spec.now.sources then route_of q.num routes.now else None)
        (at q candidates.old.entries)
        else at q candidates.old.entries)) }
{
    let mut left = routes.len();
    while left > 0 {
        left -= 1;
        put_route(candidates, spec, net, &routes[left])?;
    }
    Ok(())
}

/// The best route becomes its net's candidate.
fn put_best(
    candidates: &mut BTreeMap<Key, Option<Route>>,
    net: &Prefix,
    routes: &[Route],
) -> Result<(), OutOfMemory>
    ensures { OnOk result ((q : Key) → at q candidates.new.entries
        ≡ (if same_net q.net net.now
        then told_first
        (if q.num == 0 then slice_get routes.now 0 else None)
        (at q candidates.old.entries)
        else at q candidates.old.entries)) }
{
    if let Some(best) = routes.first() {
        let best = best.copy()?;
        candidates.insert(Key { net: *net, num: 0 }, Some(best))?;
    }
    Ok(())
}

/// A row's candidates.
fn put_row(
    candidates: &mut BTreeMap<Key, Option<Route>>,
    spec: &ExportSpec,
    row: &Row,
) -> Result<(), OutOfMemory>
    ensures { OnOk result ((q : Key) → at q candidates.new.entries
        ≡ (if same_net q.net row.now.net
        then told_first
        (candidate_of spec.now q.num row.now.routes)
        (at q candidates.old.entries)
        else at q candidates.old.entries)) }
{
    if spec.every {
        put_routes(candidates, spec, &row.net, row.routes.as_slice())
    } else {
        put_best(candidates, &row.net, row.routes.as_slice())
    }
}

/// The candidates of the rows.
pub(crate) fn best_routes(
    alloc: Global,
    spec: &ExportSpec,
    rows: &[Row],
) -> Result<BTreeMap<Key, Option<Route>>, OutOfMemory>
    ensures { IfOk result (λ m. (q : Key)
        → at q m.entries ≡ option_map (λ r. Some r) (best_in spec.now q rows.now)) }
{
    let mut candidates = BTreeMap::new(alloc);
    let mut left = rows.len();
    while left > 0 {
        left -= 1;
        put_row(&mut candidates, spec, &rows[left])?;
    }
    Ok(candidates)
}

/// Adds the key, where it is asked for, with no candidate where it is not there.
pub(crate) fn add_none(
    candidates: &mut BTreeMap<Key, Option<Route>>,
    key: &Key,
    asked: bool,
) -> Result<(), OutOfMemory>
    ensures { OnOk result (AddsNone (λ q. asked && same_key key.now q)
        candidates.old.entries candidates.new.entries) }
{
    if asked && !candidates.contains_key(key) {
        candidates.insert(*key, None)?;
    }
    Ok(())
}
