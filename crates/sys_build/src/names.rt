//! What scripts can name of a configuration.
ghost use Rattle.std.specs.Prelude.{◌≡◌, ◌<◌, ◌^◌, ◌++◌, ℕ, List, Some, IfOk, OnOk, length, map, slice_get};
ghost use Rattle.std.specs.List.{All};
ghost use Rattle.conf_check.specs.declared.checked.ProtocolDef.{ProtocolDef};
ghost use Rattle.script_lines.specs.Kinds.{AreFew};
ghost use Rattle.script_lines.specs.Script.{HasTables};
ghost use Rattle.filt_meaning.specs.declared.scope.Scope.{Scope};
ghost use Rattle.filt_meaning.specs.declared.tree.TFilter.{TFilter};
ghost use Rattle.sys_build.specs.Names.{all_channels, channels_of, held_table, kind_of, named_of, named_protocol, named_table, pipe_channels, table_of};
ghost use Rattle.conf_system.specs.Seen.{body_seen, protocol_seen, system_of};

use attrs::Seq;
use bits_ip::OutOfMemory;
use conf_check::{ProtocolBody, ProtocolDef};
use conf_system::System;
use script_lines::{Name, NameList, Named, NamedProtocol, NamedTable, ProtocolKind};
use std::alloc::Global;

/// What scripts can name of a configuration, and whether they may schedule.
///
/// `OutOfMemory` comes where memory is refused.
pub fn named(alloc: Global, system: &System, schedule: bool) -> Result<Named, OutOfMemory>
    requires few { AreFew (named_of (system_of system.now) schedule) }
    requires tables { HasTables (named_of (system_of system.now) schedule) }
    ensures { IfOk result (λ named. named ≡ named_of (system_of system.now) schedule) }
{
    let protocols = protocols(alloc, &system.checked.protocols)?;
    let channels = channels(alloc, &system.checked.protocols)?;
    let tables = tables(alloc, system)?;
    let filters = filters(alloc, system)?;
    let listed = NameList::make(alloc, filters)?;
    Ok(Named {
        protocols: Seq::from_vec(protocols),
        channels: Seq::from_vec(channels),
        tables: Seq::from_vec(tables),
        filters: listed,
        schedule,
    })
}

/// The protocols in their order.
fn protocols(alloc: Global, defs: &[ProtocolDef]) -> Result<Vec<NamedProtocol>, OutOfMemory>
    requires { All (λ (def : ProtocolDef). held_table def.body < 2 ^ 32) defs.now }
    ensures { (scope : Scope) (filters : List TFilter) (names : List (List ℕ))
        → IfOk result (λ named. named.items
        ≡ map named_protocol (map (protocol_seen scope filters names) defs.now)) }
{
    let mut named = Vec::new(alloc);
    for def in defs {
        named.push(protocol(alloc, def)?)?;
    }
    Ok(named)
}

fn protocol(alloc: Global, def: &ProtocolDef) -> Result<NamedProtocol, OutOfMemory>
    requires { held_table def.now.body < 2 ^ 32 }
    ensures { (scope : Scope) (filters : List TFilter) (names : List (List ℕ))
        → IfOk result (λ named. named
        ≡ named_protocol (protocol_seen scope filters names def.now)) }
{
    Ok(NamedProtocol {
        name: Name::new(alloc, def.name.as_slice())?,
        kind: kind_of(&def.body),
        table: table_of(&def.body),
    })
}

/// The number of the table of the protocol's channel, of a pipe that of the primary table.
fn table_of(body: &ProtocolBody) -> u32
    requires { held_table body.now < 2 ^ 32 }
    ensures { (scope : Scope) (filters : List TFilter) (names : List (List ℕ))
        → result ≡ table_of (body_seen scope filters names body.now) }
{
    match body {
        ProtocolBody::Static(p) => p.channel.table as u32,
        ProtocolBody::Bgp(p) => p.channel.table as u32,
        ProtocolBody::Pipe(p) => p.table as u32,
    }
}

fn kind_of(body: &ProtocolBody) -> ProtocolKind
    ensures { (scope : Scope) (filters : List TFilter) (names : List (List ℕ))
        → result ≡ kind_of (body_seen scope filters names body.now) }
{
    match body {
        ProtocolBody::Static(p) => ProtocolKind::Static(p.channel.family),
        ProtocolBody::Bgp(p) => ProtocolKind::Bgp(p.channel.family),
        ProtocolBody::Pipe(_) => ProtocolKind::Pipe,
    }
}

/// The names of the channels in the order of their protocols.
fn channels(alloc: Global, defs: &[ProtocolDef]) -> Result<Vec<Name>, OutOfMemory>
    ensures { (scope : Scope) (filters : List TFilter) (names : List (List ℕ))
        → IfOk result (λ channels. channels.items
        ≡ all_channels (map (protocol_seen scope filters names) defs.now)) }
{
    let mut channels = Vec::new(alloc);
    for def in defs {
        push_channels(alloc, def.name.as_slice(), &def.body, &mut channels)?;
    }
    Ok(channels)
}

/// Puts the names of a protocol's channels behind the others.
fn push_channels(
    alloc: Global,
    name: &[u8],
    body: &ProtocolBody,
    channels: &mut Vec<Name>,
) -> Result<(), OutOfMemory>
    ensures { (scope : Scope) (filters : List TFilter) (names : List (List ℕ))
        → OnOk result (channels.new.items ≡ channels.old.items
        ++ channels_of name.now (body_seen scope filters names body.now)) }
{
    match body {
        ProtocolBody::Static(_) => Ok(()),
        ProtocolBody::Bgp(_) => Ok(channels.push(Name::new(alloc, name)?)?),
        ProtocolBody::Pipe(_) => push_pipe(alloc, name, channels),
    }
}

/// Puts the names of a pipe's two channels behind the others.
fn push_pipe(alloc: Global, name: &[u8], channels: &mut Vec<Name>) -> Result<(), OutOfMemory>
    ensures { OnOk result
        (channels.new.items ≡ channels.old.items ++ pipe_channels name.now) }
{
    channels.push(joined(alloc, name, b".export")?)?;
    channels.push(joined(alloc, name, b".import")?)?;
    Ok(())
}

/// A name, and behind it another word.
fn joined(alloc: Global, name: &[u8], word: &[u8]) -> Result<Name, OutOfMemory>
    ensures { IfOk result (λ joined. joined ≡ name.now ++ word.now) }
{
    let mut bytes = Vec::from_slice(alloc, name)?;
    bytes.extend_from_slice(word)?;
    Name::new(alloc, &bytes)
}

/// The tables in their order.
fn tables(alloc: Global, system: &System) -> Result<Vec<NamedTable>, OutOfMemory>
    ensures { IfOk result
        (λ tables. tables.items ≡ map named_table (system_of system.now).tables) }
{
    let mut tables = Vec::new(alloc);
    for number in 0..system.checked.declared.tables.len() {
        tables.push(table(alloc, system, number)?)?;
    }
    Ok(tables)
}

/// The table of this number.
fn table(alloc: Global, system: &System, number: usize) -> Result<NamedTable, OutOfMemory>
    requires { number < length (system_of system.now).tables }
    ensures { IfOk result (λ table. slice_get (system_of system.now).tables number
        ≡ Some (table.name, table.family)) }
{
    match system.checked.declared.tables.get_index(number) {
        Some((name, family)) => Ok(NamedTable {
            name: Name::new(alloc, name)?,
            family: *family,
        }),
        None => unreachable!(),
    }
}

/// The names of the filters in their order.
fn filters(alloc: Global, system: &System) -> Result<Vec<Name>, OutOfMemory>
    ensures { IfOk result (λ filters. filters.items
        ≡ map (λ filter. filter.0) (system_of system.now).filters) }
{
    let mut filters = Vec::new(alloc);
    for number in 0..system.filter_count() {
        let name = Name::new(alloc, system.filter_name(number))?;
        filters.push(name)?;
    }
    Ok(filters)
}
