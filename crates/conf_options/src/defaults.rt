// What counts where an option isn't written.

ghost use Rattle.std.specs.Prelude.{◌≡◌};
ghost use Rattle.conf_options.specs.Defaults as of;

use crate::bgp::Neighbor;
use bits_ip::Addr;
use conf_ast::configurations::{Action, Limit, Switch};

/// The preference of static routes.
pub const STATIC_PREFERENCE: u32 = 200;

/// The preference of BGP's routes.
pub const BGP_PREFERENCE: u32 = 100;

/// The MED of a route without one.
pub const DEFAULT_MED: u32 = 0;

/// The local preference of a route without one.
pub const DEFAULT_LOCAL_PREF: u32 = 100;

/// Without a limit nothing is limited.
pub fn limit_or(written: Option<Limit>) -> Limit
    ensures { result ≡ of.limit_or written }
{
    written.unwrap_or(Limit::Off)
}

/// Without an action the protocol is disabled.
pub fn action_or(written: Option<Action>) -> Action
    ensures { result ≡ of.action_or written }
{
    written.unwrap_or(Action::Disable)
}

pub fn is_on(switch: Switch) -> bool
    ensures { result ≡ of.is_on switch }
{
    match switch {
        Switch::On => true,
        Switch::Yes => true,
        Switch::Off => false,
        Switch::No => false,
    }
}

/// Communities are interpreted where nothing is said.
pub fn interprets(written: Option<Switch>) -> bool
    ensures { result ≡ of.interprets written }
{
    match written {
        None => true,
        Some(switch) => is_on(switch),
    }
}

/// The neighbour's address; any one where there is none, as in nothing that is accepted.
pub fn address_or(written: Option<Neighbor>) -> Addr
    ensures { result ≡ of.address_or written }
{
    match written {
        None => Addr::V4(0),
        Some(neighbor) => neighbor.address,
    }
}
