//! Channels.

ghost use Rattle.std.specs.Prelude.{◌≡◌, [], IfOk, map};
ghost use Rattle.conf_ast.specs.Configurations.{channel_of, channel_setting_of};
ghost use Rattle.conf_rules.specs.Channels.{settings_of};
ghost use Rattle.conf_names.specs.Known as rules;
ghost use Rattle.conf_rules.specs.Statements as statements;
ghost use Rattle.conf_names.specs.Seen.{known_of};
ghost use Rattle.conf_check.specs.Checked as of;
ghost use Rattle.conf_check.specs.Checked.{IsChannel};
ghost use Rattle.conf_check.specs.Seen.{Means};

use crate::checked::{ChannelDef, ImportLimit};
use crate::policy::{export_policy, import_policy};
use bits_ip::{Family, OutOfMemory};
use conf_ast::Name;
use conf_ast::configurations::{Channel, ChannelOption, Limit};
use conf_ast::filters::Num;
use conf_names::{Declared, number_of, table_number};
use conf_options::{ChannelOptions, action_or, limit_or};
use std::alloc::Global;

/// What stands between the braces; nothing where there are none.
fn options_of(channel: &Channel) -> &[ChannelOption]
    ensures { map channel_setting_of result.now ≡ settings_of (channel_of channel.now) }
{
    match &channel.options {
        None => &[],
        Some(options) => options.as_slice(),
    }
}

// ---- numbers

/// The number, which is known where nothing is refused.
fn known_number(text: &[u8], declared: &Declared, number: Num) -> u32
    ensures { result ≡ of.or_zero (rules.number_of (known_of text.now declared.now) number) }
{
    number_of(text, declared, number).unwrap_or(0)
}

/// A number that is written, else that one.
pub(crate) fn number_or(text: &[u8], declared: &Declared, default: u32, written: Option<Num>) -> u32
    ensures { result ≡ of.number_or (known_of text.now declared.now) default written }
{
    match written {
        None => default,
        Some(number) => known_number(text, declared, number),
    }
}

// ---- limits

fn limit_of(text: &[u8], declared: &Declared, limit: Limit) -> Option<ImportLimit>
    ensures { result ≡ of.limit_of (known_of text.now declared.now) limit }
{
    match limit {
        Limit::Off => None,
        Limit::Count { count, action } => Some(ImportLimit {
            count: known_number(text, declared, count),
            action: action_or(action),
        }),
    }
}

// ---- tables

/// The name of the table that is always there.
pub(crate) fn master(family: Family) -> &'static [u8]
    ensures { result.now ≡ statements.master family }
{
    match family {
        Family::V4 => b"master4",
        Family::V6 => b"master6",
    }
}

fn table_of(text: &[u8], declared: &Declared, family: Family, name: Option<Name>) -> usize
    ensures { result ≡ rules.table_number (known_of text.now declared.now)
        (of.table_name text.now family name) }
{
    match name {
        None => table_number(declared, master(family)),
        Some(name) => table_number(declared, name.bytes(text)),
    }
}

// ---- channels

/// A channel of a protocol whose routes have that preference.
pub(crate) fn channel(
    alloc: Global,
    text: &[u8],
    declared: &Declared,
    preference: u32,
    channel: &Channel,
) -> Result<ChannelDef, OutOfMemory>
    ensures { IfOk result (λ def. IsChannel (known_of text.now declared.now)
        (Means text.now declared.now.scope) preference (channel_of channel.now) def) }
{
    let found = ChannelOptions::of(options_of(channel));
    let import = import_policy(alloc, text, declared, found.import)?;
    let export = export_policy(alloc, text, declared, found.export)?;
    Ok(ChannelDef {
        family: channel.family,
        table: table_of(text, declared, channel.family, found.table),
        import,
        export,
        preference: number_or(text, declared, preference, found.preference),
        limit: limit_of(text, declared, limit_or(found.limit)),
    })
}
