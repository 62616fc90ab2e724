//! BGP protocols.

ghost use Rattle.std.specs.Prelude.{◌≡◌, ◌∷◌, [], IfOk, List, MatchOption, map};
ghost use Rattle.conf_ast.specs.Configurations.{FamilyChannel, bgp_setting_of, channel_of, instance_of};
ghost use Rattle.conf_rules.specs.Protocols as rules;
ghost use Rattle.conf_rules.specs.Protocols.{bgp_channels};
ghost use Rattle.conf_names.specs.Seen.{known_of};
ghost use Rattle.conf_check.specs.Checked as of;
ghost use Rattle.conf_check.specs.Checked.{IsBgp};
ghost use Rattle.conf_check.specs.Seen.{HasOne, Means};

use crate::channel::{channel, number_or};
use crate::checked::BgpDef;
use bits_ip::OutOfMemory;
use conf_ast::configurations::{BgpOption, Channel, Protocol};
use conf_ast::filters::Num;
use conf_names::Declared;
use conf_options::{
    BGP_PREFERENCE, BgpOptions, DEFAULT_LOCAL_PREF, DEFAULT_MED, address_or, interprets,
};
use conf_rules::as_number;
use std::alloc::Global;

fn channel_in(option: &BgpOption) -> Option<&Channel>
    ensures { MatchOption result (bgp_channels (bgp_setting_of option.now ∷ []) ≡ [])
        (λ c. bgp_channels (bgp_setting_of option.now ∷ []) ≡ channel_of c.now ∷ []) }
{
    match option {
        BgpOption::Channel(channel) => Some(channel),
        BgpOption::Local { .. } => None,
        BgpOption::Neighbor { .. } => None,
        BgpOption::MedMetric(_) => None,
        BgpOption::InterpretCommunities(_) => None,
        BgpOption::DefaultMed { .. } => None,
        BgpOption::DefaultLocalPref { .. } => None,
        BgpOption::Transport(_) => None,
    }
}

fn first_channel(options: &[BgpOption]) -> Option<&Channel>
    ensures { MatchOption result (bgp_channels (map bgp_setting_of options.now) ≡ [])
        (λ c. (more : List FamilyChannel) × (bgp_channels (map bgp_setting_of options.now)
        ≡ channel_of c.now ∷ more)) }
{
    for option in options {
        if let Some(channel) = channel_in(option) {
            return Some(channel);
        }
    }
    None
}

/// The protocol's channel.
fn only_channel(options: &[BgpOption]) -> &Channel
    requires { HasOne (bgp_channels (map bgp_setting_of options.now)) }
    ensures { bgp_channels (map bgp_setting_of options.now) ≡ channel_of result.now ∷ [] }
{
    match first_channel(options) {
        Some(channel) => channel,
        None => unreachable!(),
    }
}

// ---- options

/// The number of an autonomous system, which is known where nothing is refused.
fn known_as(text: &[u8], declared: &Declared, number: Option<Num>) -> u32
    ensures { result
        ≡ of.or_zero (rules.as_number (known_of text.now declared.now) number) }
{
    as_number(text, declared, number).unwrap_or(0)
}

// ---- protocols

pub(crate) fn bgp(
    alloc: Global,
    text: &[u8],
    declared: &Declared,
    protocol: &Protocol<BgpOption>,
) -> Result<BgpDef, OutOfMemory>
    requires { HasOne (bgp_channels (instance_of bgp_setting_of protocol.now).settings) }
    ensures { IfOk result (λ def. IsBgp (known_of text.now declared.now)
        (Means text.now declared.now.scope) (instance_of bgp_setting_of protocol.now) def) }
{
    let options = protocol.options.as_slice();
    let channel = channel(alloc, text, declared, BGP_PREFERENCE, only_channel(options))?;
    let found = BgpOptions::of(options);
    let local = known_as(text, declared, found.local);
    let remote = known_as(text, declared, found.remote());
    let default_med = number_or(text, declared, DEFAULT_MED, found.default_med);
    let default_local_pref = number_or(
        text,
        declared,
        DEFAULT_LOCAL_PREF,
        found.default_local_pref,
    );
    Ok(BgpDef {
        local,
        neighbor: address_or(found.neighbor),
        remote,
        interpret_communities: interprets(found.interpret_communities),
        default_med,
        default_local_pref,
        channel,
    })
}
