ghost use Rattle.std.specs.Prelude.{◌≡◌, ◌≢◌, ◌↔◌, ◌==◌, None, Ok, Some, IfOk, IfSome, IsTrue, find, not, option_copied, position};
ghost use Rattle.std.specs.Vec.{vec_capacity};
ghost use Rattle.attrs.specs.Selection.{before};
ghost use Rattle.attrs.specs.Table.{route_of};
ghost use Rattle.rib.specs.Rib.{first_of};
ghost use Rattle.rib.specs.Outcome.{IfChanged, IfChanges};
ghost use Rattle.rib.specs.Entries.{HasRoom};
ghost use Rattle.rib.specs.Picks.{better_of, routes_with};
ghost use Rattle.rib.specs.Steps.{AreRoutes, Replaces, without, placed, leads, goes_first};

use crate::before;
use crate::rib::{Outcome, Prospect};
use attrs::Route;
use bits_ip::OutOfMemory;
use std::alloc::Global;

/// The route of a source.
fn find_route(routes: &[Route], num: u32) -> Option<&Route>
    ensures { option_copied result ≡ route_of num routes.now }
{
    routes.iter().find(|route| route.src.num == num)
}

/// The best of the other sources' routes.
fn best_beside(routes: &[Route], num: u32) -> Option<&Route>
    ensures { option_copied result ≡ find (λ r. not (r.src.num == num)) routes.now }
{
    routes.iter().find(|route| route.src.num != num)
}

/// The preferred of two routes of different sources, of which each may be missing.
fn better_of<'a>(route: Option<&'a Route>, other: Option<&'a Route>) -> Option<&'a Route>
    ensures { option_copied result
        ≡ better_of (option_copied route.entry) (option_copied other.entry) }
{
    match (route, other) {
        (Some(new), Some(kept)) => { if before(new, kept) { route } else { other } }
        (Some(_), None) => route,
        _ => other,
    }
}

/// The best of a net's routes, were this the route of the source, or were there none of it.
fn best_with<'a>(routes: &'a [Route], num: u32, new: Option<&'a Route>) -> Option<&'a Route>
    requires { AreRoutes routes.now }
    ensures { option_copied result
        ≡ first_of (routes_with num (option_copied new.entry) routes.now) }
{
    better_of(new, best_beside(routes, num))
}

/// A copy of the route, where there is one.
pub(crate) fn copy_option(route: Option<&Route>) -> Result<Option<Route>, OutOfMemory>
    ensures { IfOk result (λ copy. copy ≡ option_copied route.entry) }
{
    match route {
        Some(route) => Ok(Some(route.copy()?)),
        None => Ok(None),
    }
}

/// Copies of the routes.
pub(crate) fn copy_routes(alloc: Global, routes: &[Route]) -> Result<Vec<Route>, OutOfMemory>
    ensures { IfOk result (λ copies. copies.items ≡ routes.now) }
{
    let mut copies = Vec::with_capacity(alloc, routes.len())?;
    for route in routes {
        copies.push(route.copy()?)?;
    }
    Ok(copies)
}

/// Whether both are the same route, or neither is there.
fn same_routes(a: Option<&Route>, b: Option<&Route>) -> bool
    ensures { IsTrue result ↔ (option_copied a.entry ≡ option_copied b.entry) }
{
    match (a, b) {
        (Some(a), Some(b)) => a.is_same(b),
        (None, None) => true,
        _ => false,
    }
}

/// What a net's routes would do, were this the route of the source, or were there none of it.
pub(crate) fn prospect_of(
    routes: &[Route],
    num: u32,
    new: Option<&Route>,
) -> Result<Prospect, OutOfMemory>
    requires { AreRoutes routes.now }
    ensures same { (result ≡ Ok Prospect.Same)
        ↔ (route_of num routes.now ≡ option_copied new.entry) }
    ensures best { IfOk result (IfChanges
        (λ best. best ≡ first_of (routes_with num (option_copied new.entry) routes.now))) }
{
    if same_routes(find_route(routes, num), new) {
        return Ok(Prospect::Same);
    }
    let best = copy_option(best_with(routes, num, new))?;
    Ok(Prospect::Changes { best })
}

fn place_of(routes: &[Route], num: u32) -> Option<usize>
    ensures { result ≡ position (λ r. r.src.num == num) routes.now }
{
    routes.iter().position(|route| route.src.num == num)
}

/// Takes the source's route out, and tells whether it was the best.
fn take_out(routes: &mut Vec<Route>, num: u32) -> bool
    ensures routes { routes.new.items ≡ without num routes.old.items }
    ensures capacity { vec_capacity routes.new ≡ vec_capacity routes.old }
    ensures best { result ≡ leads num routes.old.items }
{
    let place = place_of(routes, num);
    if let Some(place) = place {
        let _taken = routes.remove(place);
    }
    place == Some(0)
}

/// The place of the first route that this one is before.
fn place_for(routes: &[Route], route: &Route) -> Option<usize>
    ensures { result ≡ position (before route.now) routes.now }
{
    routes.iter().position(|kept| before(route, kept))
}

/// Puts a route in, and tells whether it is the best now.
fn put_in(routes: &mut Vec<Route>, route: Route) -> bool
    requires { HasRoom routes.old }
    ensures routes { routes.new.items ≡ placed route routes.old.items }
    ensures best { result ≡ goes_first route routes.old.items }
{
    let place = place_for(routes, &route).unwrap_or(routes.len());
    routes.insert(place, route).unwrap();
    place == 0
}

/// Puts a route in the place of its source's, and tells whether the best is another one now.
fn announce(routes: &mut Vec<Route>, route: Route) -> bool
    requires room { HasRoom routes.old }
    requires are { AreRoutes routes.old.items }
    requires real { route_of route.src.num routes.old.items ≢ Some route }
    ensures routes { Replaces route.src.num (Some route) routes.old.items routes.new.items }
    ensures moved { IsTrue result ↔ (first_of routes.new.items ≢ first_of routes.old.items) }
{
    let led = take_out(routes, route.src.num);
    let leads = put_in(routes, route);
    led | leads
}

/// Takes the source's route away, and tells whether the best is another one now.
fn withdraw(routes: &mut Vec<Route>, num: u32) -> bool
    requires { AreRoutes routes.old.items }
    ensures routes { Replaces num None routes.old.items routes.new.items }
    ensures moved { IsTrue result ↔ (first_of routes.new.items ≢ first_of routes.old.items) }
{
    take_out(routes, num)
}

/// Puts a net's route of a source in the place of the one that stands there, or takes it away.
pub(crate) fn change_routes(routes: &mut Vec<Route>, num: u32, new: Option<Route>) -> Outcome
    requires room { HasRoom routes.old }
    requires are { AreRoutes routes.old.items }
    requires source { IfSome new (λ route. route.src.num ≡ num) }
    ensures routes { Replaces num new routes.old.items routes.new.items }
    ensures same { (result ≡ Outcome.Same) ↔ (route_of num routes.old.items ≡ new) }
    ensures moved { IfChanged result
        (λ moved. IsTrue moved ↔ (first_of routes.new.items ≢ first_of routes.old.items)) }
{
    if same_routes(find_route(routes, num), new.as_ref()) {
        return Outcome::Same;
    }
    let moved = match new {
        Some(route) => announce(routes, route),
        None => withdraw(routes, num),
    };
    Outcome::Changed { moved }
}
