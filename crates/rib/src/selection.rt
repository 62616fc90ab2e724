ghost use Rattle.std.specs.Prelude.{◌≡◌, unwrap_or};
ghost use Rattle.std.specs.Ordering.{nat_cmp};
ghost use Rattle.attrs.specs.Selection.{address_rank, before, exit_discriminator, if_bgp, internal_distance, kind_rank, learned_from, local_preference, neighbour, neighbour_rank, origin, origin_rank, path_length, router_id};
ghost use Rattle.rib.specs.Order.{announcement_rules, compare_by, family_rank, neighbour_rules, number_in, protocol_rules};

use attrs::{Kind, Origin, Route};
use bits_ip::Addr;
use std::cmp::Ordering;

/// Whether a is preferred to b, a route of another source to the same net (BIRD User's Guide,
/// "Routing tables", and "BGP", "Route selection rules"; RFC 4271, section 9.1.2.2). The multi-exit
/// discriminators of different neighbours are compared too, as `med metric on` says. Where no rule
/// of theirs tells the two apart, the lower number of the source does.
pub fn before(a: &Route, b: &Route) -> bool
    ensures { result ≡ before a.now b.now }
{
    by_protocol(a, b)
        .then(by_announcement(a, b))
        .then(by_neighbour(a, b))
        .then(a.src.num.cmp(&b.src.num))
        .is_lt()
}

/// By preference, and static before BGP.
fn by_protocol(a: &Route, b: &Route) -> Ordering
    ensures { result ≡ compare_by protocol_rules a.now b.now }
{
    let preference = b.attrs.pref.cmp(&a.attrs.pref);
    preference.then(kind_rank(a.attrs.kind).cmp(&kind_rank(b.attrs.kind)))
}

/// By what the neighbour announced of the route. Routes of static protocols are equal in it.
fn by_announcement(a: &Route, b: &Route) -> Ordering
    ensures { result ≡ compare_by announcement_rules a.now b.now }
{
    local_preference(b)
        .cmp(&local_preference(a))
        .then(path_length(a).cmp(&path_length(b)))
        .then(origin(a).cmp(&origin(b)))
        .then(exit_discriminator(a).cmp(&exit_discriminator(b)))
}

/// By the neighbour. Routes of static protocols are equal in it.
fn by_neighbour(a: &Route, b: &Route) -> Ordering
    ensures { result ≡ compare_by neighbour_rules a.now b.now }
{
    learned_from(a)
        .cmp(&learned_from(b))
        .then(internal_distance(a).cmp(&internal_distance(b)))
        .then(router_id(a).cmp(&router_id(b)))
        .then(compare_addresses(neighbour(a), neighbour(b)))
}

fn kind_rank(kind: Kind) -> u32
    ensures { result ≡ kind_rank kind }
{
    match kind {
        Kind::Static => 0,
        Kind::Bgp => 1,
    }
}

/// The number where the route is one of BGP.
fn if_bgp(kind: Kind, number: u32) -> u32
    ensures { result ≡ if_bgp kind number }
{
    match kind {
        Kind::Static => 0,
        Kind::Bgp => number,
    }
}

fn local_preference(route: &Route) -> u32
    ensures { result ≡ local_preference route.now }
{
    if_bgp(route.attrs.kind, route.attrs.lp.unwrap_or(route.src.def_lp))
}

fn path_length(route: &Route) -> u32
    ensures { result ≡ path_length route.now }
{
    if_bgp(route.attrs.kind, route.attrs.path.as_slice().len() as u32)
}

fn origin_rank(origin: Option<Origin>) -> u32
    ensures { result ≡ origin_rank origin }
{
    match origin {
        Some(Origin::Igp) => 0,
        Some(Origin::Egp) => 1,
        Some(Origin::Incomplete) => 2,
        None => 2,
    }
}

fn origin(route: &Route) -> u32
    ensures { result ≡ origin route.now }
{
    if_bgp(route.attrs.kind, origin_rank(route.attrs.origin))
}

fn exit_discriminator(route: &Route) -> u32
    ensures { result ≡ exit_discriminator route.now }
{
    if_bgp(
        route.attrs.kind,
        route.attrs.med.unwrap_or(route.src.def_med),
    )
}

fn neighbour_rank(ebgp: bool) -> u32
    ensures { result ≡ neighbour_rank ebgp }
{
    if ebgp { 0 } else { 1 }
}

fn learned_from(route: &Route) -> u32
    ensures { result ≡ learned_from route.now }
{
    if_bgp(route.attrs.kind, neighbour_rank(route.attrs.ebgp))
}

fn internal_distance(route: &Route) -> u32
    ensures { result ≡ internal_distance route.now }
{
    if_bgp(route.attrs.kind, route.attrs.igp.unwrap_or(0))
}

fn router_id(route: &Route) -> u32
    ensures { result ≡ router_id route.now }
{
    if_bgp(route.attrs.kind, route.attrs.peer_id)
}

/// The neighbour's address, where the route is one of BGP.
fn neighbour(route: &Route) -> Option<Addr>
    ensures { address_rank result ≡ neighbour route.now }
{
    match route.attrs.kind {
        Kind::Static => None,
        Kind::Bgp => route.attrs.sender,
    }
}

/// None before the addresses of IPv4, and these before those of IPv6.
fn compare_addresses(a: Option<Addr>, b: Option<Addr>) -> Ordering
    ensures { result ≡ nat_cmp (address_rank a) (address_rank b) }
{
    let family = family_rank(a).cmp(&family_rank(b));
    family.then(number_of(a).cmp(&number_of(b)))
}

fn family_rank(addr: Option<Addr>) -> u8
    ensures { result ≡ family_rank addr }
{
    match addr {
        None => 0,
        Some(Addr::V4(_)) => 1,
        Some(Addr::V6(_)) => 2,
    }
}

fn number_of(addr: Option<Addr>) -> u128
    ensures { result ≡ number_in addr }
{
    match addr {
        None => 0,
        Some(Addr::V4(number)) => u128::from(number),
        Some(Addr::V6(number)) => number,
    }
}
