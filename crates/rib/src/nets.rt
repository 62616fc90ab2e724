ghost use Rattle.std.specs.Prelude.{◌≡◌, ◌≢◌, ◌↔◌, ◌≤◌, ◌<◌, ◌+◌, ◌++◌, ◌^◌, [], false, IfNone, IfOk, IfSome, IsSome, IsSomeAnd, IsTrue, OnOk, OnErr, length, not, ◌==◌, option_copied, slice_index_or, take};
ghost use Rattle.std.specs.BTreeMap.{is_at};
ghost use Rattle.std.specs.List.{count_by};
ghost use Rattle.std.specs.Map.{values_of};
ghost use Rattle.attrs.specs.declared.route.Row.{Row};
ghost use Rattle.bits_ip.specs.Address.{family_of};
ghost use Rattle.bits_ip.specs.Prefix.{Net, net_cmp};
ghost use Rattle.attrs.specs.Select.{covers, rows_from, selected};
ghost use Rattle.attrs.specs.declared.route.Select.TheVariants.{For, Within};
ghost use Rattle.attrs.specs.Table.{AreRows, route_in, route_of, routes_of};
ghost use Rattle.rib.specs.Rib.{best_of, first_of};
ghost use Rattle.rib.specs.Outcome.{IfChanged};
ghost use Rattle.rib.specs.Entries.{AreKeys, AreNets, ArePrefixes, HasRoom, HasRoomAt, IsEmptyAt, count_of, entry_at, row_of, routes_at, rows_of};
ghost use Rattle.rib.specs.Picks.{IsLongest, first_bound, picked_row};
ghost use Rattle.rib.specs.Steps.{AreRoutes, Changes, Replaces};

use crate::lent::LentRow;
use crate::picks::{covers, front, last_within};
use crate::rib::Outcome;
use crate::routes::{change_routes, copy_routes};
use attrs::{Change, Route, Row, Select, Seq};
use bits_ip::{OutOfMemory, Prefix};
use std::alloc::Global;
use std::collections::BTreeMap;
use std::marker::Model;
use std::ops::Bound;

/// Nets with their routes in selection order. A net may be there without routes.
#[derive(Debug, Drop)]
pub(crate) struct Nets {
    map: BTreeMap<Prefix, Vec<Route>>,
}

impl Model for Nets {
    ghost use Rattle.rib.specs.Entries.{Entries};

    ghost Value = { Entries };

    ghost view = { λ nets. nets.map.entries };
}

impl Nets {
    pub(crate) fn new(alloc: Global) -> Nets
        ensures { result ≡ [] }
    {
        Nets {
            map: BTreeMap::new(alloc),
        }
    }

    /// The routes of a net.
    pub(crate) fn routes(&self, net: &Prefix) -> &[Route]
        requires { AreKeys self.now }
        ensures { result.now ≡ routes_of net.now (rows_of self.now) }
    {
        match self.map.get(net) {
            Some(routes) => routes.as_slice(),
            None => &[],
        }
    }

    /// Whether the net is there without routes.
    fn is_empty_at(&self, net: &Prefix) -> bool
        ensures { IsTrue result ↔ IsEmptyAt net.now self.now }
    {
        match self.map.get(net) {
            Some(routes) => routes.is_empty(),
            None => false,
        }
    }

    /// Puts a net there, which has no routes yet, with room for one.
    fn add(&mut self, alloc: Global, net: Prefix) -> Result<(), OutOfMemory>
        requires { IsSome (entry_at net self.old) → ⊥ }
        ensures made { OnOk result (HasRoomAt net self.new) }
        ensures routes { (q : Net) → routes_at q self.new ≡ routes_at q self.old }
        ensures others { (q : Net) → is_at (net_cmp net) q ≡ false
            → entry_at q self.new ≡ entry_at q self.old }
        ensures refused { OnErr result (self.new ≡ self.old) }
        ensures room { (q : Net) → HasRoomAt q self.old → HasRoomAt q self.new }
        ensures count { count_of self.new ≡ count_of self.old }
        ensures keys { AreKeys self.old → AreKeys self.new }
    {
        let routes = Vec::with_capacity(alloc, 1)?;
        self.map.insert(net, routes)?;
        Ok(())
    }

    /// Makes room for one more route of the net, where it is there.
    fn grow(&mut self, net: &Prefix) -> Option<Result<(), OutOfMemory>>
        ensures made { IfSome result (λ grown. OnOk grown (HasRoomAt net.now self.new)) }
        ensures room { HasRoomAt net.now self.old → HasRoomAt net.now self.new }
        ensures routes { (q : Net) → routes_at q self.new ≡ routes_at q self.old }
        ensures there { IfSome result (λ _. IsSome (entry_at net.now self.old)
            × IsSome (entry_at net.now self.new)) }
        ensures absent { IfNone result ((IsSome (entry_at net.now self.old) → ⊥)
            × (self.new ≡ self.old)) }
        ensures others { (q : Net) → is_at (net_cmp net.now) q ≡ false
            → entry_at q self.new ≡ entry_at q self.old }
        ensures count { count_of self.new ≡ count_of self.old }
        ensures keys { AreKeys self.new }
    {
        match self.map.get_mut(net) {
            Some(routes) => Some(grow_routes(routes)),
            None => None,
        }
    }

    /// Takes the net out, where it has no routes.
    pub(crate) fn drop_empty(&mut self, net: &Prefix)
        requires { AreKeys self.old }
        ensures gone { IsEmptyAt net.now self.new → ⊥ }
        ensures routes { (q : Net) → routes_at q self.new ≡ routes_at q self.old }
        ensures others { (q : Net) → is_at (net_cmp net.now) q ≡ false
            → entry_at q self.new ≡ entry_at q self.old }
        ensures count { count_of self.new ≡ count_of self.old }
        ensures keys { AreKeys self.new }
    {
        let is_empty = self.is_empty_at(net);
        self.drop_if(net, is_empty);
    }

    /// Takes the net out, where it has no routes, which the caller has seen.
    fn drop_if(&mut self, net: &Prefix, is_empty: bool)
        requires empty { IsTrue is_empty ↔ IsEmptyAt net.now self.old }
        requires keys { AreKeys self.old }
        ensures gone { IsEmptyAt net.now self.new → ⊥ }
        ensures routes { (q : Net) → routes_at q self.new ≡ routes_at q self.old }
        ensures others { (q : Net) → is_at (net_cmp net.now) q ≡ false
            → entry_at q self.new ≡ entry_at q self.old }
        ensures count { count_of self.new ≡ count_of self.old }
        ensures keys { AreKeys self.new }
    {
        if is_empty {
            self.take_out(net);
        }
    }

    /// Takes out a net that has no routes.
    fn take_out(&mut self, net: &Prefix)
        requires empty { IsEmptyAt net.now self.old }
        requires keys { AreKeys self.old }
        ensures gone { IsEmptyAt net.now self.new → ⊥ }
        ensures routes { (q : Net) → routes_at q self.new ≡ routes_at q self.old }
        ensures others { (q : Net) → is_at (net_cmp net.now) q ≡ false
            → entry_at q self.new ≡ entry_at q self.old }
        ensures count { count_of self.new ≡ count_of self.old }
        ensures keys { AreKeys self.new }
    {
        self.map.remove(net);
    }

    /// Changes the route of a source of a net, for which there is room, and counts it. It may be
    /// the net's last: then the net has none now, which the second part tells.
    fn change_at(
        &mut self,
        total: &mut u64,
        net: Prefix,
        num: u32,
        new: Option<Route>,
    ) -> (Outcome, bool)
        requires room { HasRoomAt net self.old }
        requires are { AreRoutes (routes_at net self.old) }
        requires within { length (routes_at net self.old) ≤ total.old }
        requires counts { total.old + 1 < 2 ^ 64 }
        requires source { IfSome new (λ route. route.src.num ≡ num) }
        ensures routes { Replaces num new (routes_at net self.old) (routes_at net self.new) }
        ensures others { (q : Net) → is_at (net_cmp net) q ≡ false
            → entry_at q self.new ≡ entry_at q self.old }
        ensures total { total.new + count_of self.old ≡ total.old + count_of self.new }
        ensures empty { IsTrue result.1 ↔ IsEmptyAt net self.new }
        ensures keys { AreKeys self.new }
        ensures same { (result.0 ≡ Outcome.Same) ↔ (route_of num (routes_at net self.old) ≡ new) }
        ensures moved { IfChanged result.0
            (λ moved. IsTrue moved
            ↔ (first_of (routes_at net self.new) ≢ first_of (routes_at net self.old))) }
    {
        match self.map.get_mut(&net) {
            Some(routes) => change_counted(routes, total, num, new),
            None => unreachable!(),
        }
    }

    /// Makes a change, in the memory that is there for it. A net that has no routes then goes.
    pub(crate) fn change(&mut self, total: &mut u64, change: Change) -> Outcome
        requires nets { AreNets (family_of change.net.addr) self.old total.old }
        requires room { HasRoomAt change.net self.old }
        requires counts { total.old + 1 < 2 ^ 64 }
        requires source { IfSome change.new (λ route. route.src.num ≡ change.num) }
        ensures nets { AreNets (family_of change.net.addr) self.new total.new }
        ensures empty { (q : Net) → IsEmptyAt q self.new → IsEmptyAt q self.old × (change.net ≢ q) }
        ensures changes { Changes change (rows_of self.old) (rows_of self.new) }
        ensures same { (result ≡ Outcome.Same)
            ↔ (route_in (rows_of self.old) change.net change.num ≡ change.new) }
        ensures moved { IfChanged result
            (λ moved. IsTrue moved
            ↔ (best_of change.net (rows_of self.new) ≢ best_of change.net (rows_of self.old))) }
    {
        let Change { net, num, new } = change;
        let _addr = net.addr();
        let (outcome, is_empty) = self.change_at(total, net, num, new);
        self.drop_if(&net, is_empty);
        outcome
    }

    /// Makes room for one more route of the net, which is put there without routes where it isn't.
    pub(crate) fn make_room(&mut self, alloc: Global, net: &Prefix) -> Result<(), OutOfMemory>
        requires { AreKeys self.old }
        ensures made { OnOk result (HasRoomAt net.now self.new) }
        ensures room { (q : Net) → HasRoomAt q self.old → HasRoomAt q self.new }
        ensures routes { (q : Net) → routes_at q self.new ≡ routes_at q self.old }
        ensures empty { (q : Net) → IsEmptyAt q self.new → net.now ≢ q → IsEmptyAt q self.old }
        ensures refused { OnErr result ((q : Net) → IsEmptyAt q self.new → IsEmptyAt q self.old) }
        ensures count { count_of self.new ≡ count_of self.old }
        ensures keys { AreKeys self.new }
    {
        match self.grow(net) {
            Some(grown) => grown,
            None => self.add(alloc, *net),
        }
    }

    /// Takes out the net for which there was room, where it has no routes and isn't the kept one.
    pub(crate) fn drop_room(&mut self, room: Option<(Prefix, u32)>, kept: &Prefix)
        requires { AreKeys self.old }
        ensures kept { HasRoomAt kept.now self.old → HasRoomAt kept.now self.new }
        ensures routes { (q : Net) → routes_at q self.new ≡ routes_at q self.old }
        ensures empty { (q : Net) → IsEmptyAt q self.new
            → IsEmptyAt q self.old × (IsSomeAnd room (λ key. key.0 ≡ q) → kept.now ≡ q) }
        ensures count { count_of self.new ≡ count_of self.old }
        ensures keys { AreKeys self.new }
    {
        if let Some((net, _)) = room {
            if net.cmp(kept).is_ne() {
                self.drop_empty(&net);
            }
        }
    }

    /// The longest net with routes that covers the prefix, by a look-up for each length from the
    /// prefix's own down.
    fn longest_cover(&self, asked: &Prefix) -> Option<Prefix>
        requires { AreKeys self.now }
        ensures { IsLongest asked.now (rows_of self.now) result }
    {
        let _addr = asked.addr();
        for gone in 0..asked.len() + 1 {
            let net = front(asked, asked.len() - gone);
            if !self.routes(&net).is_empty() {
                return Some(net);
            }
        }
        None
    }

    /// The row of a net, where it has routes.
    fn lend_one(&self, alloc: Global, net: &Prefix) -> Result<Vec<LentRow<'_>>, OutOfMemory>
        requires { AreKeys self.now }
        ensures { IfOk result
            (λ rows. rows.items ≡ row_of net.now (routes_of net.now (rows_of self.now))) }
    {
        let mut rows = Vec::new(alloc);
        push_lent(*net, self.routes(net), &mut rows)?;
        Ok(rows)
    }

    /// The row of the longest net that covers the prefix.
    fn lend_longest(&self, alloc: Global, asked: &Prefix) -> Result<Vec<LentRow<'_>>, OutOfMemory>
        requires keys { AreKeys self.now }
        requires prefixes { ArePrefixes self.now }
        requires rows { AreRows (rows_of self.now) }
        ensures { IfOk result (λ rows. rows.items ≡ selected (For asked.now) (rows_of self.now)) }
    {
        match self.longest_cover(asked) {
            Some(net) => self.lend_one(alloc, &net),
            None => Ok(Vec::new(alloc)),
        }
    }

    /// The rows of the nets that the prefix covers. They stand from the prefix itself to the
    /// longest prefix of its last address.
    fn lend_within(&self, alloc: Global, asked: &Prefix) -> Result<Vec<LentRow<'_>>, OutOfMemory>
        requires keys { AreKeys self.now }
        requires prefixes { ArePrefixes self.now }
        requires rows { AreRows (rows_of self.now) }
        ensures { IfOk result (λ rows. rows.items
            ≡ selected (Within asked.now) (rows_of self.now)) }
    {
        let _addr = asked.addr();
        let mut rows = Vec::new(alloc);
        let last = last_within(asked);
        for (net, routes) in self
            .map
            .range((Bound::Included(*asked), Bound::Included(last)))
        {
            push_covered(asked, net, routes.as_slice(), &mut rows)?;
        }
        Ok(rows)
    }

    fn lend_all(&self, alloc: Global) -> Result<Vec<LentRow<'_>>, OutOfMemory>
        ensures { IfOk result (λ rows. rows.items ≡ rows_of self.now) }
    {
        let mut rows = Vec::new(alloc);
        for (net, routes) in &self.map {
            push_lent(*net, routes.as_slice(), &mut rows)?;
        }
        Ok(rows)
    }

    /// Copies of the rows that are asked for.
    pub(crate) fn copy(&self, alloc: Global, pick: &Select) -> Result<Vec<Row>, OutOfMemory>
        requires keys { AreKeys self.now }
        requires prefixes { ArePrefixes self.now }
        requires rows { AreRows (rows_of self.now) }
        ensures { IfOk result (λ rows. rows.items ≡ selected pick.now (rows_of self.now)) }
    {
        let rows = self.lend(alloc, pick)?;
        copy_rows(alloc, rows.as_slice())
    }

    /// The rows that are asked for.
    pub(crate) fn lend(&self, alloc: Global, pick: &Select) -> Result<Vec<LentRow<'_>>, OutOfMemory>
        requires keys { AreKeys self.now }
        requires prefixes { ArePrefixes self.now }
        requires rows { AreRows (rows_of self.now) }
        ensures { IfOk result (λ rows. rows.items ≡ selected pick.now (rows_of self.now)) }
    {
        match pick {
            Select::All => self.lend_all(alloc),
            Select::Exact(net) => self.lend_one(alloc, net),
            Select::For(asked) => self.lend_longest(alloc, asked),
            Select::Within(asked) => self.lend_within(alloc, asked),
        }
    }

    /// Copies of the first rows from a net on, itself included; at most so many.
    pub(crate) fn copy_next(
        &self,
        alloc: Global,
        from: Option<&Prefix>,
        max: usize,
    ) -> Result<Vec<Row>, OutOfMemory>
        ensures { IfOk result (λ rows. rows.items
            ≡ take max (rows_from (option_copied from.entry) (rows_of self.now))) }
    {
        let mut rows = Vec::new(alloc);
        for (net, routes) in self.map.range((first_bound(from), Bound::Unbounded)) {
            if rows.len() >= max {
                break;
            }
            copy_row(alloc, net, routes.as_slice(), &mut rows)?;
        }
        Ok(rows)
    }

    fn count_filled(&self) -> usize
        ensures { result ≡ count_by (λ v. not (length v.items == 0)) (values_of self.now) }
    {
        self.map
            .values()
            .filter(|routes| !routes.as_slice().is_empty())
            .count()
    }

    /// How many nets have routes.
    pub(crate) fn len(&self) -> usize
        ensures { result ≡ length (rows_of self.now) }
    {
        self.count_filled()
    }

    /// The net at this place among those with routes, and its routes.
    pub(crate) fn row(&self, place: usize) -> (&Prefix, &[Route])
        requires { place < length (rows_of self.now) }
        ensures { (default : Row) → slice_index_or (rows_of self.now) place default
            ≡ record { net = result.0.now; routes = result.1.now } }
    {
        let mut left = place;
        for (net, routes) in &self.map {
            let found = routes.as_slice();
            if !found.is_empty() {
                if left == 0 {
                    return (net, found);
                }
                left -= 1;
            }
        }
        unreachable!()
    }

    /// All rows, with the routes moved out.
    pub(crate) fn into_rows(self, alloc: Global) -> Result<Vec<Row>, OutOfMemory>
        ensures { IfOk result (λ rows. rows.items ≡ rows_of self) }
    {
        let Nets { map } = self;
        let mut rows = Vec::with_capacity(alloc, map.len())?;
        for (net, routes) in map {
            push_row(net, routes, &mut rows)?;
        }
        Ok(rows)
    }
}

fn first_bound(from: Option<&Prefix>) -> Bound<Prefix>
    ensures { result ≡ first_bound (option_copied from.entry) }
{
    match from {
        Some(net) => Bound::Included(*net),
        None => Bound::Unbounded,
    }
}

/// Changes the route of a source, and counts it. The second part tells whether no route is left.
fn change_counted(
    routes: &mut Vec<Route>,
    total: &mut u64,
    num: u32,
    new: Option<Route>,
) -> (Outcome, bool)
    requires room { HasRoom routes.old }
    requires are { AreRoutes routes.old.items }
    requires within { length routes.old.items ≤ total.old }
    requires counts { total.old + 1 < 2 ^ 64 }
    requires source { IfSome new (λ route. route.src.num ≡ num) }
    ensures routes { Replaces num new routes.old.items routes.new.items }
    ensures total { total.new + length routes.old.items ≡ total.old + length routes.new.items }
    ensures empty { IsTrue result.1 ↔ (routes.new.items ≡ []) }
    ensures same { (result.0 ≡ Outcome.Same) ↔ (route_of num routes.old.items ≡ new) }
    ensures moved { IfChanged result.0
        (λ moved. IsTrue moved ↔ (first_of routes.new.items ≢ first_of routes.old.items)) }
{
    *total -= routes.len() as u64;
    let outcome = change_routes(routes, num, new);
    *total += routes.len() as u64;
    (outcome, routes.is_empty())
}

/// Makes room for one more route.
fn grow_routes(routes: &mut Vec<Route>) -> Result<(), OutOfMemory>
    ensures made { OnOk result (HasRoom routes.new) }
    ensures room { HasRoom routes.old → HasRoom routes.new }
    ensures same { routes.new.items ≡ routes.old.items }
{
    routes.reserve_exact(1)?;
    Ok(())
}

/// Puts a copy of the row behind the others, where the net has routes.
fn copy_row(
    alloc: Global,
    net: &Prefix,
    routes: &[Route],
    rows: &mut Vec<Row>,
) -> Result<(), OutOfMemory>
    ensures { OnOk result (rows.new.items ≡ rows.old.items ++ row_of net.now routes.now) }
{
    let copies = copy_routes(alloc, routes)?;
    push_row(*net, copies, rows)
}

/// Copies of rows.
fn copy_rows(alloc: Global, lent: &[LentRow]) -> Result<Vec<Row>, OutOfMemory>
    ensures { IfOk result (λ rows. rows.items ≡ lent.now) }
{
    let mut rows = Vec::with_capacity(alloc, lent.len())?;
    for row in lent {
        let routes = Seq::from_vec(copy_routes(alloc, row.routes)?);
        rows.push(Row {
            net: row.net,
            routes,
        })?;
    }
    Ok(rows)
}

/// Puts the row behind the others, where the net has routes and is covered.
fn push_covered<'a>(
    asked: &Prefix,
    net: &Prefix,
    routes: &'a [Route],
    rows: &mut Vec<LentRow<'a>>,
) -> Result<(), OutOfMemory>
    ensures { OnOk result (rows.new.items
        ≡ rows.old.items ++ picked_row (covers asked.now net.now) net.now routes.now) }
{
    if covers(asked, net) {
        push_lent(*net, routes, rows)?;
    }
    Ok(())
}

/// Puts the row behind the others, where the net has routes.
fn push_lent<'a>(
    net: Prefix,
    routes: &'a [Route],
    rows: &mut Vec<LentRow<'a>>,
) -> Result<(), OutOfMemory>
    ensures { OnOk result (rows.new.items ≡ rows.old.items ++ row_of net routes.now) }
{
    if !routes.is_empty() {
        rows.push(LentRow { net, routes })?;
    }
    Ok(())
}

/// Puts the row behind the others, where the net has routes.
fn push_row(net: Prefix, routes: Vec<Route>, rows: &mut Vec<Row>) -> Result<(), OutOfMemory>
    ensures { OnOk result (rows.new.items ≡ rows.old.items ++ row_of net routes.items) }
{
    if !routes.is_empty() {
        rows.push(Row {
            net,
            routes: Seq::from_vec(routes),
        })?;
    }
    Ok(())
}
