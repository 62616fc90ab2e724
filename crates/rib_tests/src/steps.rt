ghost use Rattle.std.specs.Prelude.{◌≡◌, IfOk, IfSome};
ghost use Rattle.bits_ip.specs.Address.{family_of};

use attrs::{Attrs, Change, Clist, Dest, Kind, Path, Route, Src};
use bits_ip::{Addr, Family, NotPrefix, OutOfMemory, Prefix};
use rib::{Outcome, Rib};
use std::alloc::Global;

/// A change of a table of IPv4 nets: the net's address and length, a source, and the preference of
/// its route, or none where the route is withdrawn.
#[derive(Clone, Copy, Debug, PartialEq, Eq)]
pub struct Step {
    pub number: u32,
    pub len: u8,
    pub num: u32,
    pub pref: Option<u32>,
}

/// An IPv4 net.
pub fn net(number: u32, len: u8) -> Result<Prefix, NotPrefix>
    ensures { IfOk result (λ net. family_of net.addr ≡ Family.V4) }
{
    Prefix::make(Addr::V4(number), len)
}

/// A static route of a source.
pub fn route(alloc: Global, num: u32, pref: u32) -> Result<Route, OutOfMemory>
    ensures { IfOk result (λ route. route.src.num ≡ num) }
{
    let attrs = Attrs {
        pref,
        kind: Kind::Static,
        dest: Dest::Unicast,
        gw: None,
        sender: None,
        peer_id: 0,
        ebgp: false,
        path: Path::new(alloc),
        origin: None,
        next_hop: None,
        med: None,
        lp: None,
        igp: None,
        coms: Clist::new(alloc),
    };
    let src = Src {
        num,
        def_med: 0,
        def_lp: 100,
    };
    Route::make(alloc, src, attrs)
}

/// The change that puts a static route of a source to a net.
pub fn change_of(alloc: Global, net: Prefix, num: u32, pref: u32) -> Result<Change, OutOfMemory> {
    let new = Some(route(alloc, num, pref)?);
    Ok(Change { net, num, new })
}

/// A static route of a source, where it has a preference.
pub fn new_route(alloc: Global, num: u32, pref: Option<u32>) -> Option<Route>
    ensures { IfSome result (λ route. route.src.num ≡ num) }
{
    match pref {
        Some(pref) => route(alloc, num, pref).ok(),
        None => None,
    }
}

fn take(alloc: Global, table: &mut Rib, step: &Step) -> Option<Outcome>
    requires { table.old.family ≡ Family.V4 }
    ensures { table.new.family ≡ Family.V4 }
{
    let net = net(step.number, step.len).ok()?;
    let new = new_route(alloc, step.num, step.pref);
    let change = Change {
        net,
        num: step.num,
        new,
    };
    table.reserve(&change).ok()?;
    Some(table.change(change))
}

/// Makes these changes of a table of IPv4 nets, and tells what each of them answered.
pub fn play(alloc: Global, table: &mut Rib, steps: &[Step]) -> Option<Vec<Outcome>>
    requires { table.old.family ≡ Family.V4 }
    ensures { table.new.family ≡ Family.V4 }
{
    let mut outcomes = Vec::new(alloc);
    for step in steps {
        outcomes.push(take(alloc, table, step)?).ok()?;
    }
    Some(outcomes)
}
