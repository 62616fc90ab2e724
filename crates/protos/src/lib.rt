//! Protocols, as their imports see them: a neighbour of BGP and a list of static routes.
//!
//! `static_spec` and `bgp_spec` make the `ImportSpec` of a protocol of what its configuration says;
//! the values that hold where it says nothing stand here as constants. Contracts say each field.
#![tactic(auto)]

ghost use Rattle.std.specs.Prelude.{◌≡◌};
ghost use Rattle.protos.specs.Protocols.{bgp_spec, static_spec};

use attrs::{Kind, Seq, Src};
use bits_ip::Addr;
use import_core::{Fixed, ImportSpec, Limit};
use std::alloc::Global;

/// What counts as the MED of a route without one (BIRD User's Guide, BGP, `default bgp_med`).
pub const DEFAULT_MED: u32 = 0;

/// The local preference of a route that is given none, and of each route of an external neighbour
/// (BIRD User's Guide, BGP, `default bgp_local_pref`).
pub const DEFAULT_LOCAL_PREFERENCE: u32 = 100;

/// The preference of BGP's routes (BIRD User's Guide, channel options, `preference`).
pub const BGP_PREFERENCE: u32 = 100;

/// The preference of static routes (BIRD User's Guide, channel options, `preference`).
pub const STATIC_PREFERENCE: u32 = 200;

/// A static protocol with these routes, each of another net.
///
/// `src` has the protocol's number. The routes have this preference, no neighbour and none of BGP's
/// attributes (BIRD User's Guide, "Static").
pub fn static_spec(src: Src, pref: u32, limit: Option<Limit>, routes: Vec<Fixed>) -> ImportSpec
    ensures { result ≡ static_spec src pref limit routes.items }
{
    ImportSpec {
        src,
        kind: Kind::Static,
        sender: None,
        ebgp: false,
        pref,
        limit,
        fixed: Seq::from_vec(routes),
    }
}

/// A protocol of BGP with a neighbour of this address.
///
/// `src` has the protocol's number and what counts where a MED or a local preference is missing.
/// `ebgp` says that the neighbour is in another autonomous system (BIRD User's Guide, "BGP").
pub fn bgp_spec(
    alloc: Global,
    src: Src,
    sender: Addr,
    ebgp: bool,
    pref: u32,
    limit: Option<Limit>,
) -> ImportSpec
    ensures { result ≡ bgp_spec src sender ebgp pref limit }
{
    ImportSpec {
        src,
        kind: Kind::Bgp,
        sender: Some(sender),
        ebgp,
        pref,
        limit,
        fixed: Seq::new(alloc),
    }
}
