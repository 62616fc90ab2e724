ghost use Rattle.std.specs.Prelude.{◌≡◌, IfOk};

use crate::net;
use attrs::{Attrs, Change, Clist, Dest, Kind, Origin, Path, Route, Src};
use bits_ip::{Addr, Family};
use rib::Rib;
use std::alloc::Global;
use std::test::Fail;

/// What tells the routes of BGP apart that the tests put in.
#[derive(Clone, Copy, Debug)]
pub struct Shape {
    pub num: u32,
    pub med: Option<u32>,
    pub peer_id: u32,
    pub sender: Addr,
}

/// A route in whose place the tests put others.
pub const PLAIN: Shape = Shape {
    num: 1,
    med: Some(10),
    peer_id: 7,
    sender: Addr::V4(9),
};

/// A route of this shape, which has a path of one number.
fn shaped(alloc: Global, shape: &Shape) -> Result<Route, Fail>
    ensures { IfOk result (λ route. route.src.num ≡ shape.now.num) }
{
    let mut path = Path::new(alloc);
    path.prepend(65001)?;
    let attrs = Attrs {
        pref: 100,
        kind: Kind::Bgp,
        dest: Dest::Unicast,
        gw: Some(shape.sender),
        sender: Some(shape.sender),
        peer_id: shape.peer_id,
        ebgp: true,
        path,
        origin: Some(Origin::Igp),
        next_hop: Some(shape.sender),
        med: shape.med,
        lp: Some(100),
        igp: None,
        coms: Clist::new(alloc),
    };
    let src = Src {
        num: shape.num,
        def_med: 0,
        def_lp: 100,
    };
    Ok(Route::make(alloc, src, attrs)?)
}

/// Puts a route of this shape into a table of IPv4 nets, at 10.0.0.0/8.
fn put(alloc: Global, table: &mut Rib, shape: &Shape) -> Result<(), Fail>
    requires { table.old.family ≡ Family.V4 }
    ensures { table.new.family ≡ Family.V4 }
{
    let route = shaped(alloc, shape)?;
    let change = Change {
        net: net(0x0A00_0000, 8)?,
        num: shape.num,
        new: Some(route),
    };
    table.reserve(&change)?;
    let _ = table.change(change);
    Ok(())
}

/// Puts routes of these shapes in, one after the other.
pub fn put_all(alloc: Global, table: &mut Rib, shapes: &[Shape]) -> Result<(), Fail>
    requires { table.old.family ≡ Family.V4 }
    ensures { table.new.family ≡ Family.V4 }
{
    for shape in shapes {
        put(alloc, table, shape)?;
    }
    Ok(())
}
