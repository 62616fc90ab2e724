ghost use Rattle.std.specs.Prelude.{◌≤◌, length};

use attrs::{Attrs, Clist, Dest, Kind, Origin, Path, Route, Src};
use bits_ip::Addr;
use std::alloc::Global;
use std::test::Fail;

const NEIGHBOUR: Addr = Addr::V4(0xC000_0201);

pub fn path(alloc: Global, numbers: &[u32]) -> Result<Path, Fail>
    requires { length numbers.now ≤ 120 }
{
    Ok(Path::from_vec(numbers.to_vec(alloc)?))
}

/// As a neighbour in another autonomous system gives it.
pub fn learned(alloc: Global) -> Result<Attrs, Fail> {
    Ok(Attrs {
        pref: 100,
        kind: Kind::Bgp,
        dest: Dest::Unicast,
        gw: Some(NEIGHBOUR),
        sender: Some(NEIGHBOUR),
        peer_id: 0x0A00_0001,
        ebgp: true,
        path: path(alloc, &[65001, 65002])?,
        origin: Some(Origin::Igp),
        next_hop: Some(NEIGHBOUR),
        med: None,
        lp: Some(100),
        igp: None,
        coms: Clist::new(alloc),
    })
}

/// As it is configured.
pub fn configured(alloc: Global) -> Attrs {
    Attrs {
        pref: 200,
        kind: Kind::Static,
        dest: Dest::Blackhole,
        gw: None,
        sender: None,
        peer_id: 0,
        ebgp: false,
        path: Path::new(alloc),
        origin: None,
        next_hop: None,
        med: None,
        lp: None,
        igp: None,
        coms: Clist::new(alloc),
    }
}

pub fn route(alloc: Global, num: u32, attrs: Attrs) -> Result<Route, Fail> {
    let src = Src {
        num,
        def_med: 0,
        def_lp: 100,
    };
    Ok(Route::make(alloc, src, attrs)?)
}
