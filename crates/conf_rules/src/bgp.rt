// What is refused in BGP protocols.

ghost use Rattle.std.specs.Prelude.{◌≡◌, ◌∷◌, [], ◌||◌, map, false, None, OnOk};
ghost use Rattle.std.specs.List.{list_any};
ghost use Rattle.conf_ast.specs.Configurations.{bgp_setting_of, instance_of};
ghost use Rattle.conf_rules.specs.Channels as channels;
ghost use Rattle.conf_rules.specs.Channels.{one_channel};
ghost use Rattle.conf_rules.specs.Protocols as of;
ghost use Rattle.conf_names.specs.Refusals.{first_in};
ghost use Rattle.conf_names.specs.Seen.{known_of};
ghost use Rattle.conf_rules.specs.Walks.{behind, has_channel};

use crate::channels::{channel, lacks_policy, second_channel};
use bits_ip::OutOfMemory;
use conf_ast::ConfKind;
use conf_ast::configurations::{BgpOption, Protocol, Switch, Transport};
use conf_ast::filters::Num;
use conf_names::declared::Declared;
use conf_names::names::{BGP_STEM, declaring, place_of};
use conf_names::refusal::{Refusal, note_if};
use conf_names::values::{number, number_of};
use conf_options::{BgpOptions, is_on};
use std::alloc::Global;

// ---- what is written

fn optional_number(
    text: &[u8],
    declared: &Declared,
    found: Option<Num>,
    first: &mut Option<Refusal>,
)
    ensures { first.new
        ≡ first_in first.old (of.optional_number (known_of text.now declared.now) found) }
{
    match found {
        None => (),
        Some(found) => number(text, declared, found, first),
    }
}

/// The transport has no effect, but its numbers are numbers.
fn transport(text: &[u8], declared: &Declared, option: Transport, first: &mut Option<Refusal>)
    ensures { first.new
        ≡ first_in first.old (of.transport (known_of text.now declared.now) option) }
{
    match option {
        Transport::Description(_) => (),
        Transport::Password(_) => (),
        Transport::SourceAddress { .. } => (),
        Transport::HoldTime(time) => number(text, declared, time, first),
        Transport::KeepaliveTime(time) => number(text, declared, time, first),
        Transport::ConnectRetryTime(time) => number(text, declared, time, first),
        Transport::Multihop(hops) => optional_number(text, declared, hops, first),
        Transport::Direct => (),
        Transport::Passive(_) => (),
    }
}

fn setting(
    alloc: Global,
    text: &[u8],
    declared: &Declared,
    option: &BgpOption,
    first: &mut Option<Refusal>,
) -> Result<(), OutOfMemory>
    ensures { OnOk result (first.new
        ≡ first_in first.old (of.bgp_setting (known_of text.now declared.now)
        (bgp_setting_of option.now))) }
{
    match option {
        BgpOption::Channel(part) => return channel(alloc, text, declared, part, first),
        BgpOption::Local { number: own, .. } => number(text, declared, *own, first),
        BgpOption::Neighbor { number: other, .. } => number(text, declared, *other, first),
        BgpOption::MedMetric(_) => (),
        BgpOption::InterpretCommunities(_) => (),
        BgpOption::DefaultMed { value, .. } => number(text, declared, *value, first),
        BgpOption::DefaultLocalPref { value, .. } => number(text, declared, *value, first),
        BgpOption::Transport(option) => transport(text, declared, *option, first),
    }
    Ok(())
}

fn settings(
    alloc: Global,
    text: &[u8],
    declared: &Declared,
    options: &[BgpOption],
    first: &mut Option<Refusal>,
) -> Result<(), OutOfMemory>
    ensures { OnOk result (first.new
        ≡ first_in first.old (of.bgp_settings (known_of text.now declared.now)
        (map bgp_setting_of options.now))) }
{
    for option in options {
        setting(alloc, text, declared, option, first)?;
    }
    Ok(())
}

// ---- channels

/// Whether there is a channel so far.
fn next_channel(option: &BgpOption, has_one: bool, first: &mut Option<Refusal>) -> bool
    ensures has { result
        ≡ (has_one || has_channel (of.bgp_channels (bgp_setting_of option.now ∷ []))) }
    ensures first { first.new
        ≡ first_in first.old (behind has_one (of.bgp_channels (bgp_setting_of option.now ∷ []))) }
{
    match option {
        BgpOption::Channel(part) => second_channel(has_one, part, first),
        BgpOption::Local { .. } => has_one,
        BgpOption::Neighbor { .. } => has_one,
        BgpOption::MedMetric(_) => has_one,
        BgpOption::InterpretCommunities(_) => has_one,
        BgpOption::DefaultMed { .. } => has_one,
        BgpOption::DefaultLocalPref { .. } => has_one,
        BgpOption::Transport(_) => has_one,
    }
}

/// Each channel behind the first is refused. Whether there is one.
fn second_channels(options: &[BgpOption], first: &mut Option<Refusal>) -> bool
    ensures has { result ≡ has_channel (of.bgp_channels (map bgp_setting_of options.now)) }
    ensures first { first.new
        ≡ first_in first.old (behind false (of.bgp_channels (map bgp_setting_of options.now))) }
{
    let mut has_one = false;
    for option in options {
        has_one = next_channel(option, has_one, first);
    }
    has_one
}

/// A protocol has one channel.
fn want_channel(at: usize, options: &[BgpOption], first: &mut Option<Refusal>)
    ensures { first.new
        ≡ first_in first.old (one_channel at (of.bgp_channels (map bgp_setting_of options.now))) }
{
    let has_one = second_channels(options, first);
    note_if(first, !has_one, at, ConfKind::Unsupported);
}

/// A channel that lacks a policy.
fn is_lacking(option: &BgpOption) -> bool
    ensures { result
        ≡ list_any channels.lacks_policy (of.bgp_channels (bgp_setting_of option.now ∷ [])) }
{
    match option {
        BgpOption::Channel(part) => lacks_policy(part),
        BgpOption::Local { .. } => false,
        BgpOption::Neighbor { .. } => false,
        BgpOption::MedMetric(_) => false,
        BgpOption::InterpretCommunities(_) => false,
        BgpOption::DefaultMed { .. } => false,
        BgpOption::DefaultLocalPref { .. } => false,
        BgpOption::Transport(_) => false,
    }
}

fn any_lacks_policy(options: &[BgpOption]) -> bool
    ensures { result
        ≡ list_any channels.lacks_policy (of.bgp_channels (map bgp_setting_of options.now)) }
{
    options.iter().any(|option| is_lacking(option))
}

// ---- sessions

pub fn as_number(text: &[u8], declared: &Declared, number: Option<Num>) -> Option<u32>
    ensures { result ≡ of.as_number (known_of text.now declared.now) number }
{
    match number {
        None => None,
        Some(number) => number_of(text, declared, number),
    }
}

/// The neighbour is in another autonomous system. Where a number isn't known it can't be told.
fn is_external(local: Option<u32>, remote: Option<u32>) -> bool
    ensures { result ≡ of.is_external local remote }
{
    match local {
        None => false,
        Some(local) => match remote {
            None => false,
            Some(remote) => local != remote,
        },
    }
}

/// A protocol has both numbers of autonomous systems.
fn want_number(at: usize, number: Option<Num>, first: &mut Option<Refusal>)
    ensures { first.new ≡ first_in first.old (of.lacks at number) }
{
    note_if(first, number.is_none(), at, ConfKind::Unsupported);
}

/// An external session says for each channel what passes both ways.
fn policies(at: usize, external: bool, options: &[BgpOption], first: &mut Option<Refusal>)
    ensures { first.new
        ≡ first_in first.old (of.policies at external (of.bgp_channels
        (map bgp_setting_of options.now))) }
{
    let lacks = any_lacks_policy(options);
    note_if(first, external & lacks, at, ConfKind::PolicyMissing);
}

/// MEDs of all neighbours are compared, and the configuration has to say so.
fn med_metric(at: usize, switch: Option<Switch>, first: &mut Option<Refusal>)
    ensures { first.new ≡ first_in first.old (of.med_metric at switch) }
{
    match switch {
        None => note_if(first, true, at, ConfKind::MedRule),
        Some(switch) => note_if(first, !is_on(switch), at, ConfKind::Unsupported),
    }
}

/// What is refused of the options that count.
fn session(
    text: &[u8],
    declared: &Declared,
    at: usize,
    options: &[BgpOption],
    first: &mut Option<Refusal>,
)
    ensures { first.new
        ≡ first_in first.old (of.session (known_of text.now declared.now) at
        (map bgp_setting_of options.now)) }
{
    let found = BgpOptions::of(options);
    let neighbor = found.remote();
    want_number(at, found.local, first);
    want_number(at, neighbor, first);
    let remote = as_number(text, declared, neighbor);
    let external = is_external(as_number(text, declared, found.local), remote);
    policies(at, external, options, first);
    med_metric(at, found.med_metric, first);
}

pub(crate) fn bgp(
    alloc: Global,
    text: &[u8],
    declared: &Declared,
    protocol: &Protocol<BgpOption>,
    first: &mut Option<Refusal>,
) -> Result<(), OutOfMemory>
    ensures { OnOk result (first.new
        ≡ first_in first.old (of.bgp (known_of text.now declared.now)
        (instance_of bgp_setting_of protocol.now))) }
{
    let options = protocol.options.as_slice();
    let at = place_of(protocol.at, protocol.name);
    declaring(
        alloc,
        text,
        declared,
        BGP_STEM,
        protocol.at,
        protocol.name,
        first,
    )?;
    settings(alloc, text, declared, options, first)?;
    want_channel(at, options, first);
    session(text, declared, at, options, first);
    Ok(())
}
