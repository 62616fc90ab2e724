// What is refused in static protocols.

ghost use Rattle.std.specs.Prelude.{◌≡◌, ◌∷◌, [], ◌||◌, map, false, None, Option, OnOk};
ghost use Rattle.std.specs.List.{list_any};
ghost use Rattle.bits_ip.specs.Address.{family_of};
ghost use Rattle.bits_ip.specs.Prefix.{Net, same_net};
ghost use Rattle.conf_ast.specs.declared.kind.ConfKind.TheVariants as kinds;
ghost use Rattle.conf_ast.specs.Configurations.{instance_of, static_setting_of};
ghost use Rattle.conf_rules.specs.Channels.{one_channel};
ghost use Rattle.conf_rules.specs.Protocols as of;
ghost use Rattle.conf_names.specs.Refusals.{first_in, refused_if};
ghost use Rattle.conf_names.specs.Seen.{known_of};
ghost use Rattle.conf_rules.specs.Walks.{behind, family_in, has_channel, seen_behind};

use crate::channels::{channel, same_family, second_channel};
use bits_ip::{Addr, Family, OutOfMemory, Prefix};
use conf_ast::ConfKind;
use conf_ast::configurations::{Protocol, Route, RouteTarget, StaticOption};
use conf_names::declared::Declared;
use conf_names::names::{STATIC_STEM, declaring, place_of};
use conf_names::refusal::{Refusal, note_if};
use indexmap::IndexSet;
use std::alloc::Global;

// ---- channels

fn setting(
    alloc: Global,
    text: &[u8],
    declared: &Declared,
    option: &StaticOption,
    first: &mut Option<Refusal>,
) -> Result<(), OutOfMemory>
    ensures { OnOk result (first.new
        ≡ first_in first.old (of.static_setting (known_of text.now declared.now)
        (static_setting_of option.now))) }
{
    match option {
        StaticOption::Channel(part) => channel(alloc, text, declared, part, first),
        StaticOption::Route(_) => Ok(()),
    }
}

fn settings(
    alloc: Global,
    text: &[u8],
    declared: &Declared,
    options: &[StaticOption],
    first: &mut Option<Refusal>,
) -> Result<(), OutOfMemory>
    ensures { OnOk result (first.new
        ≡ first_in first.old (of.static_settings (known_of text.now declared.now)
        (map static_setting_of options.now))) }
{
    for option in options {
        setting(alloc, text, declared, option, first)?;
    }
    Ok(())
}

/// Whether there is a channel so far.
fn next_channel(option: &StaticOption, has_one: bool, first: &mut Option<Refusal>) -> bool
    ensures has { result
        ≡ (has_one || has_channel (of.static_channels (static_setting_of option.now ∷ []))) }
    ensures first { first.new
        ≡ first_in first.old (behind has_one (of.static_channels
        (static_setting_of option.now ∷ []))) }
{
    match option {
        StaticOption::Channel(part) => second_channel(has_one, part, first),
        StaticOption::Route(_) => has_one,
    }
}

/// Each channel behind the first is refused. Whether there is one.
fn second_channels(options: &[StaticOption], first: &mut Option<Refusal>) -> bool
    ensures has { result
        ≡ has_channel (of.static_channels (map static_setting_of options.now)) }
    ensures first { first.new
        ≡ first_in first.old (behind false (of.static_channels
        (map static_setting_of options.now))) }
{
    let mut has_one = false;
    for option in options {
        has_one = next_channel(option, has_one, first);
    }
    has_one
}

/// A protocol has one channel.
fn want_channel(at: usize, options: &[StaticOption], first: &mut Option<Refusal>)
    ensures { first.new
        ≡ first_in first.old (one_channel at (of.static_channels
        (map static_setting_of options.now))) }
{
    let has_one = second_channels(options, first);
    note_if(first, !has_one, at, ConfKind::Unsupported);
}

// ---- families

fn family_of_option(option: &StaticOption) -> Option<Family>
    ensures { result ≡ family_in (of.static_channels (static_setting_of option.now ∷ [])) }
{
    match option {
        StaticOption::Channel(part) => Some(part.family),
        StaticOption::Route(_) => None,
    }
}

/// The family of the first channel.
fn first_family(options: &[StaticOption]) -> Option<Family>
    ensures { result ≡ family_in (of.static_channels (map static_setting_of options.now)) }
{
    for option in options {
        if let Some(family) = family_of_option(option) {
            return Some(family);
        }
    }
    None
}

fn addr_family(addr: Addr) -> Family
    ensures { result ≡ family_of addr }
{
    match addr {
        Addr::V4(_) => Family::V4,
        Addr::V6(_) => Family::V6,
    }
}

fn family_of_target(family: Family, target: RouteTarget, first: &mut Option<Refusal>)
    ensures { first.new ≡ first_in first.old (of.family_of_target family target) }
{
    match target {
        RouteTarget::Via(gateway) => {
            let is_same = same_family(family, addr_family(gateway.addr));
            note_if(first, !is_same, gateway.at, ConfKind::Nettype);
        }
        RouteTarget::Blackhole => (),
        RouteTarget::Unreachable => (),
        RouteTarget::Prohibit => (),
    }
}

/// A route's net and its gateway are of the channel's family.
fn family_of_route(family: Family, route: &Route, first: &mut Option<Refusal>)
    ensures { first.new ≡ first_in first.old (of.family_of_route family route.now) }
{
    let is_same = same_family(family, route.net.family());
    note_if(first, !is_same, route.at, ConfKind::Nettype);
    family_of_target(family, route.target, first);
}

fn family_of_setting(family: Family, option: &StaticOption, first: &mut Option<Refusal>)
    ensures { first.new
        ≡ first_in first.old (of.families_of_routes family (of.static_routes
        (static_setting_of option.now ∷ []))) }
{
    match option {
        StaticOption::Channel(_) => (),
        StaticOption::Route(route) => family_of_route(family, route, first),
    }
}

fn families_of_routes(family: Family, options: &[StaticOption], first: &mut Option<Refusal>)
    ensures { first.new
        ≡ first_in first.old (of.families_of_routes family (of.static_routes
        (map static_setting_of options.now))) }
{
    for option in options {
        family_of_setting(family, option, first);
    }
}

/// The first channel is the one that counts.
fn nettypes(options: &[StaticOption], first: &mut Option<Refusal>)
    ensures { first.new
        ≡ first_in first.old (of.nettypes (of.static_channels (map static_setting_of options.now))
        (of.static_routes (map static_setting_of options.now))) }
{
    match first_family(options) {
        None => (),
        Some(family) => families_of_routes(family, options, first),
    }
}

// ---- nets

/// A net that was seen before is refused at this place. It is seen from now on.
fn see(
    seen: &mut IndexSet<Prefix>,
    net: Prefix,
    at: usize,
    first: &mut Option<Refusal>,
) -> Result<(), OutOfMemory>
    ensures seen { OnOk result ((other : Net) → list_any (same_net other) seen.new.keys
        ≡ (same_net other net || list_any (same_net other) seen.old.keys)) }
    ensures first { OnOk result (first.new
        ≡ first_in first.old (refused_if (list_any (same_net net) seen.old.keys) at
        kinds.DuplicateStatic)) }
{
    let (_, is_new) = seen.insert_full(net)?;
    note_if(first, !is_new, at, ConfKind::DuplicateStatic);
    Ok(())
}

fn next_net(
    seen: &mut IndexSet<Prefix>,
    option: &StaticOption,
    first: &mut Option<Refusal>,
) -> Result<(), OutOfMemory>
    ensures seen { OnOk result ((other : Net) → list_any (same_net other) seen.new.keys
        ≡ list_any (same_net other) (seen_behind seen.old.keys (of.static_routes
        (static_setting_of option.now ∷ [])))) }
    ensures first { OnOk result (first.new
        ≡ first_in first.old (of.repeated seen.old.keys (of.static_routes
        (static_setting_of option.now ∷ [])))) }
{
    match option {
        StaticOption::Channel(_) => Ok(()),
        StaticOption::Route(route) => see(seen, route.net, route.at, first),
    }
}

/// Routes of a net that has one before.
fn repeated(
    alloc: Global,
    options: &[StaticOption],
    first: &mut Option<Refusal>,
) -> Result<(), OutOfMemory>
    ensures { OnOk result (first.new
        ≡ first_in first.old (of.repeated [] (of.static_routes
        (map static_setting_of options.now)))) }
{
    let mut seen = IndexSet::new(alloc);
    for option in options {
        next_net(&mut seen, option, first)?;
    }
    Ok(())
}

// ---- the protocol

pub(crate) fn static_protocol(
    alloc: Global,
    text: &[u8],
    declared: &Declared,
    protocol: &Protocol<StaticOption>,
    first: &mut Option<Refusal>,
) -> Result<(), OutOfMemory>
    ensures { OnOk result (first.new
        ≡ first_in first.old (of.static (known_of text.now declared.now)
        (instance_of static_setting_of protocol.now))) }
{
    let options = protocol.options.as_slice();
    declaring(
        alloc,
        text,
        declared,
        STATIC_STEM,
        protocol.at,
        protocol.name,
        first,
    )?;
    settings(alloc, text, declared, options, first)?;
    want_channel(place_of(protocol.at, protocol.name), options, first);
    nettypes(options, first);
    repeated(alloc, options, first)
}
