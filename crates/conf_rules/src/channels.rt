// What is refused in channels and their policies.

ghost use Rattle.std.specs.Prelude.{◌≡◌, ◌∷◌, ◌++◌, [], ◌||◌, is_none, map, true, None, OnOk};
ghost use Rattle.conf_ast.specs.Configurations.{channel_of, channel_setting_of, passing_of};
ghost use Rattle.conf_options.specs.Options.{channel_options};
ghost use Rattle.conf_rules.specs.Channels as of;
ghost use Rattle.conf_names.specs.Refusals.{first_in};
ghost use Rattle.conf_names.specs.Seen.{known_of};
ghost use Rattle.conf_rules.specs.Walks.{behind};

use crate::filters::{block, condition};
use bits_ip::{Family, OutOfMemory};
use conf_ast::configurations::{Channel, ChannelOption, Limit, Policy};
use conf_ast::{ConfKind, Name};
use conf_names::declared::{Declared, filter, table, table_of};
use conf_names::refusal::{Refusal, note_if};
use conf_names::values::number;
use conf_options::ChannelOptions;
use std::alloc::Global;

// ---- policies

/// A policy that is a filter of its own is refused at its first word where it is too heavy.
pub(crate) fn passing(
    alloc: Global,
    text: &[u8],
    declared: &Declared,
    policy: &Policy,
    first: &mut Option<Refusal>,
) -> Result<(), OutOfMemory>
    ensures { OnOk result (first.new
        ≡ first_in first.old (of.passing (known_of text.now declared.now)
        (passing_of policy.now))) }
{
    match policy {
        Policy::All => Ok(()),
        Policy::None => Ok(()),
        Policy::Filter { name, .. } => {
            filter(text, declared, *name, first);
            Ok(())
        }
        Policy::Block { at, block: body } => block(alloc, text, declared, *at, body, first),
        Policy::Where { at, condition: e } => {
            condition(text, declared, *at, e, first);
            Ok(())
        }
    }
}

// ---- channels

fn limit(text: &[u8], declared: &Declared, limit: Limit, first: &mut Option<Refusal>)
    ensures { first.new ≡ first_in first.old (of.limit (known_of text.now declared.now) limit) }
{
    match limit {
        Limit::Off => (),
        Limit::Count { count, .. } => number(text, declared, count, first),
    }
}

/// Names, types, weights and numbers are checked in all that is written.
fn setting(
    alloc: Global,
    text: &[u8],
    declared: &Declared,
    option: &ChannelOption,
    first: &mut Option<Refusal>,
) -> Result<(), OutOfMemory>
    ensures { OnOk result (first.new
        ≡ first_in first.old (of.setting (known_of text.now declared.now)
        (channel_setting_of option.now))) }
{
    match option {
        ChannelOption::Table(name) => {
            table(text, declared, *name, first);
            Ok(())
        }
        ChannelOption::Import(policy) => passing(alloc, text, declared, policy, first),
        ChannelOption::Export(policy) => passing(alloc, text, declared, policy, first),
        ChannelOption::Preference { value, .. } => {
            number(text, declared, *value, first);
            Ok(())
        }
        ChannelOption::ImportLimit(count) => {
            limit(text, declared, *count, first);
            Ok(())
        }
        ChannelOption::NextHop(_) => Ok(()),
    }
}

fn settings(
    alloc: Global,
    text: &[u8],
    declared: &Declared,
    options: &[ChannelOption],
    first: &mut Option<Refusal>,
) -> Result<(), OutOfMemory>
    ensures { OnOk result (first.new
        ≡ first_in first.old (of.settings (known_of text.now declared.now)
        (map channel_setting_of options.now))) }
{
    for option in options {
        setting(alloc, text, declared, option, first)?;
    }
    Ok(())
}

pub(crate) fn same_family(family: Family, other: Family) -> bool
    ensures { result ≡ of.same_family family other }
{
    match family {
        Family::V4 => match other {
            Family::V4 => true,
            Family::V6 => false,
        },
        Family::V6 => match other {
            Family::V4 => false,
            Family::V6 => true,
        },
    }
}

/// Whether there is a family, which is another one.
pub(crate) fn is_other_family(family: Family, other: Option<Family>) -> bool
    ensures { result ≡ of.is_other_family family other }
{
    match other {
        None => false,
        Some(other) => !same_family(family, other),
    }
}

/// The table that counts is of the channel's family.
fn family_of_table(
    text: &[u8],
    declared: &Declared,
    family: Family,
    name: Option<Name>,
    first: &mut Option<Refusal>,
)
    ensures { first.new
        ≡ first_in first.old (of.family_of_table (known_of text.now declared.now) family name) }
{
    match name {
        None => (),
        Some(name) => {
            let is_other = is_other_family(family, table_of(text, declared, name));
            note_if(first, is_other, name.at, ConfKind::Nettype);
        }
    }
}

/// What stands in the braces of a channel of that family.
fn within(
    alloc: Global,
    text: &[u8],
    declared: &Declared,
    family: Family,
    options: &[ChannelOption],
    first: &mut Option<Refusal>,
) -> Result<(), OutOfMemory>
    ensures { OnOk result (first.new
        ≡ first_in first.old (of.settings (known_of text.now declared.now)
        (map channel_setting_of options.now)
        ++ of.family_of_table (known_of text.now declared.now) family
        (channel_options (map channel_setting_of options.now)).table)) }
{
    settings(alloc, text, declared, options, first)?;
    let found = ChannelOptions::of(options);
    family_of_table(text, declared, family, found.table, first);
    Ok(())
}

pub(crate) fn channel(
    alloc: Global,
    text: &[u8],
    declared: &Declared,
    channel: &Channel,
    first: &mut Option<Refusal>,
) -> Result<(), OutOfMemory>
    ensures { OnOk result (first.new
        ≡ first_in first.old (of.channel (known_of text.now declared.now)
        (channel_of channel.now))) }
{
    match &channel.options {
        None => Ok(()),
        Some(options) => within(alloc, text, declared, channel.family, options, first),
    }
}

// ---- how many channels

/// A channel behind another one is refused at its family's word. There is one from now on.
pub(crate) fn second_channel(has_one: bool, channel: &Channel, first: &mut Option<Refusal>) -> bool
    ensures has { result ≡ true }
    ensures first { first.new
        ≡ first_in first.old (behind has_one (channel_of channel.now ∷ [])) }
{
    note_if(first, has_one, channel.at, ConfKind::Unsupported);
    true
}

// ---- policies that are missing

fn lacks_either(options: &[ChannelOption]) -> bool
    ensures { result
        ≡ (is_none (channel_options (map channel_setting_of options.now)).import
        || is_none (channel_options (map channel_setting_of options.now)).export) }
{
    let found = ChannelOptions::of(options);
    found.import.is_none() | found.export.is_none()
}

/// A channel that says nothing of its imports or of its exports.
pub(crate) fn lacks_policy(channel: &Channel) -> bool
    ensures { result ≡ of.lacks_policy (channel_of channel.now) }
{
    match &channel.options {
        None => true,
        Some(options) => lacks_either(options),
    }
}
