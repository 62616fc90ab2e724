//! Routes, of which the tests put theirs together, and a filter that accepts all.
ghost use Rattle.std.specs.Prelude.{◌≡◌, IfOk};
ghost use Rattle.bits_ip.specs.Address.{family_of};
ghost use Rattle.bits_ip.specs.declared.address.Family.TheVariants.{V4};

use attrs::{Attrs, Clist, Dest, Judge, Kind, Path, Route, Seq, Src, Verdict};
use bits_ip::{Addr, NotPrefix, OutOfMemory, Prefix};
use std::alloc::Global;

/// A filter that accepts all.
#[derive(Clone, Copy, Debug, Drop)]
pub struct All;

impl Judge for All {
    ghost use Rattle.attrs.specs.declared.judge.Verdict.TheVariants.{Accept};

    ghost verdict = { λ _ _ route. Accept route.attrs };

    fn judge(&self, _net: &Prefix, route: &Route) -> Result<Verdict, OutOfMemory> {
        Ok(Verdict::Accept(route.attrs.share()?))
    }
}

/// 203.0.113.0/24.
pub fn net() -> Result<Prefix, NotPrefix>
    ensures { IfOk result (λ net. family_of net.addr ≡ V4) }
{
    Prefix::make(Addr::V4(0xCB00_7100), 24)
}

/// As a static route has it.
pub fn configured(alloc: Global) -> Attrs {
    Attrs {
        pref: 200,
        kind: Kind::Static,
        dest: Dest::Unreachable,
        gw: None,
        sender: None,
        peer_id: 0,
        ebgp: false,
        path: Path::new(alloc),
        origin: None,
        next_hop: None,
        med: None,
        lp: None,
        igp: None,
        coms: Clist::new(alloc),
    }
}

/// The route of a protocol.
pub fn route(alloc: Global, num: u32) -> Result<Route, OutOfMemory> {
    let src = Src {
        num,
        def_med: 0,
        def_lp: 0,
    };
    Route::make(alloc, src, configured(alloc))
}

pub fn one<T: Drop>(alloc: Global, item: T) -> Result<Seq<T>, OutOfMemory> {
    let mut items = Seq::new(alloc);
    items.push(item)?;
    Ok(items)
}
