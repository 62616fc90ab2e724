//! What a configuration comes to.
use crate::configurations::family_word;
use bits_ip::{Addr, write_addr};
use conf_check::{ChannelDef, ImportLimit, PolicyDef, ProtocolBody, ProtocolDef};
use conf_system::{System, read_system};
use std::alloc::Global;
use std::fmt::Write;
use std::{io, str};

/// The greatest number of bytes of a file.
const LIMIT: usize = 1 << 24;

fn name_text(name: &[u8]) -> &str {
    str::from_utf8(name).unwrap_or("?")
}

fn policy_text(policy: &PolicyDef) -> &'static str {
    match policy {
        PolicyDef::All => "all",
        PolicyDef::None => "none",
        PolicyDef::Filter(_) => "filter",
        PolicyDef::Own(_) => "own",
    }
}

fn address_text(alloc: Global, addr: &Addr) -> io::Result<String> {
    let mut bytes = Vec::new(alloc);
    if write_addr(alloc, addr, &mut bytes).is_err() {
        return Ok(String::from_str(alloc, "out of memory")?);
    }
    Ok(String::from_str(alloc, name_text(&bytes))?)
}

/// How many nets are accepted at most, or `-`.
fn limit_text(alloc: Global, limit: Option<ImportLimit>) -> io::Result<String> {
    let mut text = String::new(alloc);
    match limit {
        Some(limit) => {
            let count = limit.count;
            text.push_str(format!(in alloc; "{count}")?.as_str())?;
        }
        None => text.push_str("-")?,
    }
    Ok(text)
}

/// The family, the table's number, the preference, the limit and the sorts of the policies.
fn channel_text(alloc: Global, channel: &ChannelDef) -> io::Result<String> {
    let family = family_word(channel.family);
    let (table, preference) = (channel.table, channel.preference);
    let import = policy_text(&channel.import);
    let export = policy_text(&channel.export);
    let limit = limit_text(alloc, channel.limit)?;
    Ok(format!(in alloc; "{family} {table} {preference} {limit} {import} {export}")?)
}

fn protocol_text(alloc: Global, protocol: &ProtocolDef) -> io::Result<String> {
    let name = name_text(protocol.name.as_slice());
    match &protocol.body {
        ProtocolBody::Static(def) => {
            let channel = channel_text(alloc, &def.channel)?;
            let routes = def.routes.len();
            Ok(format!(in alloc; " {name} static {channel} {routes};")?)
        }
        ProtocolBody::Bgp(def) => {
            let channel = channel_text(alloc, &def.channel)?;
            let neighbor = address_text(alloc, &def.neighbor)?;
            let (local, remote) = (def.local, def.remote);
            Ok(format!(in alloc; " {name} bgp {local} {neighbor} {remote} {channel};")?)
        }
        ProtocolBody::Pipe(def) => {
            let (table, peer) = (def.table, def.peer);
            let import = policy_text(&def.import);
            let export = policy_text(&def.export);
            Ok(format!(in alloc; " {name} pipe {table} {peer} {import} {export};")?)
        }
    }
}

/// The names of the tables, and what the protocols are.
fn system_text(alloc: Global, system: &System) -> io::Result<String> {
    let mut text = String::new(alloc);
    for (name, family) in system.checked.declared.tables.iter() {
        let name = name_text(name);
        let family = family_word(*family);
        text.push_str(format!(in alloc; "{name} {family};")?.as_str())?;
    }
    for protocol in &system.checked.protocols {
        text.push_str(protocol_text(alloc, protocol)?.as_str())?;
    }
    Ok(text)
}

/// What a text comes to, or where it is refused.
pub fn answer(alloc: Global, text: &[u8]) -> io::Result<String> {
    if text.len() > LIMIT {
        return Ok(String::from_str(alloc, "too long")?);
    }
    match read_system(alloc, text) {
        Ok(system) => system_text(alloc, &system),
        Err(fault) => Ok(format!(in alloc; "{fault}")?),
    }
}
