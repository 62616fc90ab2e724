//! Static protocols.

ghost use Rattle.std.specs.Prelude.{◌≡◌, ◌++◌, ◌∷◌, [], IfOk, MatchOption, OnOk, List, map};
ghost use Rattle.conf_ast.specs.Configurations.{FamilyChannel, channel_of, instance_of, static_setting_of};
ghost use Rattle.conf_rules.specs.Protocols.{static_channels, static_routes};
ghost use Rattle.conf_names.specs.Seen.{known_of};
ghost use Rattle.conf_check.specs.Checked as of;
ghost use Rattle.conf_check.specs.Checked.{IsStatic};
ghost use Rattle.conf_check.specs.Seen.{HasOne, Means};

use crate::channel::channel;
use crate::checked::{StaticDef, StaticRoute};
use attrs::{Dest, Seq};
use bits_ip::{Addr, OutOfMemory};
use conf_ast::configurations::{Channel, Protocol, Route, RouteTarget, StaticOption};
use conf_names::Declared;
use conf_options::STATIC_PREFERENCE;
use std::alloc::Global;

fn channel_in(option: &StaticOption) -> Option<&Channel>
    ensures { MatchOption result (static_channels (static_setting_of option.now ∷ []) ≡ [])
        (λ c. static_channels (static_setting_of option.now ∷ []) ≡ channel_of c.now ∷ []) }
{
    match option {
        StaticOption::Channel(channel) => Some(channel),
        StaticOption::Route(_) => None,
    }
}

fn first_channel(options: &[StaticOption]) -> Option<&Channel>
    ensures { MatchOption result (static_channels (map static_setting_of options.now) ≡ [])
        (λ c. (more : List FamilyChannel) × (static_channels (map static_setting_of options.now)
        ≡ channel_of c.now ∷ more)) }
{
    for option in options {
        if let Some(channel) = channel_in(option) {
            return Some(channel);
        }
    }
    None
}

/// The protocol's channel.
fn only_channel(options: &[StaticOption]) -> &Channel
    requires { HasOne (static_channels (map static_setting_of options.now)) }
    ensures { static_channels (map static_setting_of options.now) ≡ channel_of result.now ∷ [] }
{
    match first_channel(options) {
        Some(channel) => channel,
        None => unreachable!(),
    }
}

fn dest_of(target: RouteTarget) -> Dest
    ensures { result ≡ of.dest_of target }
{
    match target {
        RouteTarget::Via(_) => Dest::Unicast,
        RouteTarget::Blackhole => Dest::Blackhole,
        RouteTarget::Unreachable => Dest::Unreachable,
        RouteTarget::Prohibit => Dest::Prohibit,
    }
}

fn gateway_of(target: RouteTarget) -> Option<Addr>
    ensures { result ≡ of.gateway_of target }
{
    match target {
        RouteTarget::Via(gateway) => Some(gateway.addr),
        RouteTarget::Blackhole => None,
        RouteTarget::Unreachable => None,
        RouteTarget::Prohibit => None,
    }
}

fn route_of(route: Route) -> StaticRoute
    ensures { result ≡ of.route_of route }
{
    StaticRoute {
        net: route.net,
        dest: dest_of(route.target),
        gateway: gateway_of(route.target),
    }
}

fn push_route(option: &StaticOption, out: &mut Vec<StaticRoute>) -> Result<(), OutOfMemory>
    ensures { OnOk result (out.new.items ≡ out.old.items
        ++ map of.route_of (static_routes (static_setting_of option.now ∷ []))) }
{
    match option {
        StaticOption::Channel(_) => Ok(()),
        StaticOption::Route(route) => {
            out.push(route_of(*route))?;
            Ok(())
        }
    }
}

fn routes(alloc: Global, options: &[StaticOption]) -> Result<Vec<StaticRoute>, OutOfMemory>
    ensures { IfOk result (λ v. v.items
        ≡ map of.route_of (static_routes (map static_setting_of options.now))) }
{
    let mut all = Vec::new(alloc);
    for option in options {
        push_route(option, &mut all)?;
    }
    Ok(all)
}

pub(crate) fn static_protocol(
    alloc: Global,
    text: &[u8],
    declared: &Declared,
    protocol: &Protocol<StaticOption>,
) -> Result<StaticDef, OutOfMemory>
    requires { HasOne (static_channels (instance_of static_setting_of protocol.now).settings) }
    ensures { IfOk result (λ def. IsStatic (known_of text.now declared.now)
        (Means text.now declared.now.scope) (instance_of static_setting_of protocol.now) def) }
{
    let options = protocol.options.as_slice();
    let channel = channel(
        alloc,
        text,
        declared,
        STATIC_PREFERENCE,
        only_channel(options),
    )?;
    let routes = routes(alloc, options)?;
    Ok(StaticDef {
        channel,
        routes: Seq::from_vec(routes),
    })
}
