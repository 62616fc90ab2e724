//! The changes that the tests enter.
ghost use Rattle.std.specs.Prelude.{◌≡◌, ◌<◌, ◌^◌, IfOk, IfSome};
ghost use Rattle.bits_ip.specs.Address.{family_of};
ghost use Rattle.table_shared_tests.specs.Changes.{IsOfSource};

use attrs::{Attrs, Change, Clist, Dest, Kind, Origin, Path, Route, Src};
use bits_ip::{Addr, Family, NotPrefix, OutOfMemory, Prefix};
use std::alloc::Global;

/// The net 10.0.0.0/8 and those behind it of the same length.
pub fn net(place: u8) -> Result<Prefix, NotPrefix>
    ensures { IfOk result (λ net. family_of net.addr ≡ Family.V4) }
{
    Prefix::make(Addr::V4(u32::from(place) * 0x0100_0000), 8)
}

/// The nets 0.0.0.0/24, 0.0.1.0/24 and so on.
pub fn numbered_net(index: u32) -> Result<Prefix, NotPrefix>
    requires { index < 2 ^ 24 }
    ensures { IfOk result (λ net. family_of net.addr ≡ Family.V4) }
{
    Prefix::make(Addr::V4(index * 256), 24)
}

/// A black hole by a static protocol.
fn route(alloc: Global, num: u32, pref: u32) -> Result<Route, OutOfMemory>
    ensures { IfOk result (λ route. route.src.num ≡ num) }
{
    let attrs = Attrs {
        pref,
        kind: Kind::Static,
        dest: Dest::Blackhole,
        gw: None,
        sender: None,
        peer_id: 0,
        ebgp: false,
        path: Path::new(alloc),
        origin: None,
        next_hop: None,
        med: None,
        lp: None,
        igp: None,
        coms: Clist::new(alloc),
    };
    let src = Src {
        num,
        def_med: 0,
        def_lp: 0,
    };
    Route::make(alloc, src, attrs)
}

/// The change that puts a source's route of this preference to a net.
pub fn change_of(alloc: Global, net: &Prefix, num: u32, pref: u32) -> Result<Change, OutOfMemory>
    requires { family_of net.now.addr ≡ Family.V4 }
    ensures { IfOk result (IsOfSource num) }
{
    let new = Some(route(alloc, num, pref)?);
    Ok(Change {
        net: *net,
        num,
        new,
    })
}

/// A path of four numbers.
fn four_numbers(alloc: Global, first: u32) -> Result<Path, OutOfMemory> {
    let mut path = Path::new(alloc);
    for number in [first, 65001, 65002, 65003] {
        if path.prepend(number).is_err() {
            return Err(OutOfMemory);
        }
    }
    Ok(path)
}

/// A route of a BGP neighbour.
fn learnt(alloc: Global, num: u32, med: u32) -> Result<Route, OutOfMemory>
    ensures { IfOk result (λ route. route.src.num ≡ num) }
{
    let peer = Some(Addr::V4(0xc000_0201));
    let attrs = Attrs {
        pref: 100,
        kind: Kind::Bgp,
        dest: Dest::Unicast,
        gw: peer,
        sender: peer,
        peer_id: 0x0a00_0001,
        ebgp: true,
        path: four_numbers(alloc, med)?,
        origin: Some(Origin::Igp),
        next_hop: peer,
        med: Some(med),
        lp: Some(100),
        igp: None,
        coms: Clist::new(alloc),
    };
    let src = Src {
        num,
        def_med: 0,
        def_lp: 100,
    };
    Route::make(alloc, src, attrs)
}

/// The change that puts a source's route by BGP, with this discriminator, to a net.
pub fn learnt_change(alloc: Global, net: &Prefix, num: u32, med: u32) -> Result<Change, OutOfMemory>
    requires { family_of net.now.addr ≡ Family.V4 }
    ensures { IfOk result (IsOfSource num) }
{
    let new = Some(learnt(alloc, num, med)?);
    Ok(Change {
        net: *net,
        num,
        new,
    })
}
