//! What an accepted configuration comes to, in one line: how many tables (master4 and master6 among
//! them), filters and protocols it has, and the last eight of its protocols, behind `; ` each:
//!
//!     NAME static CHANNEL {, NET TARGET}
//!     NAME bgp CHANNEL as NUMBER neighbor ADDRESS as NUMBER med NUMBER lp NUMBER
//!         communities (on | off)
//!     NAME pipe TABLE TABLE import POLICY export POLICY
//!
//! CHANNEL is `FAMILY TABLE import POLICY export POLICY pref NUMBER limit COUNT ACTION`, or `limit
//! off`. A POLICY is `all`, `none`, `filter` and its number, or `own`.
use bits_ip::{Family, OutOfMemory, append_addr, append_prefix, write_number};
use conf_ast::configurations::Action;
use conf_check::{
    BgpDef, ChannelDef, Checked, ImportLimit, PipeDef, PolicyDef, ProtocolBody, ProtocolDef,
    StaticDef, StaticRoute,
};

/// How many protocols are shown.
const SHOWN: usize = 8;

fn write_labelled(label: &[u8], number: u32, out: &mut Vec<u8>) -> Result<(), OutOfMemory> {
    out.extend_from_slice(label)?;
    write_number(number, out)
}

fn write_count(label: &[u8], count: usize, out: &mut Vec<u8>) -> Result<(), OutOfMemory> {
    out.extend_from_slice(label)?;
    write_number(count, out)
}

/// The name of the table of a number, behind a blank.
fn write_table(checked: &Checked, number: usize, out: &mut Vec<u8>) -> Result<(), OutOfMemory> {
    out.push(b' ')?;
    match checked.declared.tables.get_index(number) {
        Some((name, _)) => out.extend_from_slice(name)?,
        None => out.extend_from_slice(b"no table")?,
    }
    Ok(())
}

fn write_policy(policy: &PolicyDef, out: &mut Vec<u8>) -> Result<(), OutOfMemory> {
    match policy {
        PolicyDef::All => out.extend_from_slice(b"all")?,
        PolicyDef::None => out.extend_from_slice(b"none")?,
        PolicyDef::Filter(number) => write_count(b"filter ", *number, out)?,
        PolicyDef::Own(_) => out.extend_from_slice(b"own")?,
    }
    Ok(())
}

fn write_policies(
    import: &PolicyDef,
    export: &PolicyDef,
    out: &mut Vec<u8>,
) -> Result<(), OutOfMemory> {
    out.extend_from_slice(b" import ")?;
    write_policy(import, out)?;
    out.extend_from_slice(b" export ")?;
    write_policy(export, out)
}

fn action_word(action: Action) -> &'static [u8] {
    match action {
        Action::Warn => b" warn",
        Action::Block => b" block",
        Action::Disable => b" disable",
    }
}

fn write_limit(limit: Option<ImportLimit>, out: &mut Vec<u8>) -> Result<(), OutOfMemory> {
    match limit {
        None => out.extend_from_slice(b" limit off")?,
        Some(limit) => {
            write_labelled(b" limit ", limit.count, out)?;
            out.extend_from_slice(action_word(limit.action))?;
        }
    }
    Ok(())
}

pub fn family_word(family: Family) -> &'static str {
    match family {
        Family::V4 => "ipv4",
        Family::V6 => "ipv6",
    }
}

fn write_channel(
    checked: &Checked,
    channel: &ChannelDef,
    out: &mut Vec<u8>,
) -> Result<(), OutOfMemory> {
    out.extend_from_slice(family_word(channel.family).as_bytes())?;
    write_table(checked, channel.table, out)?;
    write_policies(&channel.import, &channel.export, out)?;
    write_labelled(b" pref ", channel.preference, out)?;
    write_limit(channel.limit, out)
}

/// `via` and the gateway, or the word by which a route without one is dropped.
fn write_target(route: &StaticRoute, out: &mut Vec<u8>) -> Result<(), OutOfMemory> {
    match route.gateway {
        Some(gateway) => {
            out.extend_from_slice(b" via ")?;
            append_addr(&gateway, out)?;
        }
        None => {
            out.push(b' ')?;
            out.extend_from_slice(route.dest.word().as_bytes())?;
        }
    }
    Ok(())
}

fn write_route(route: &StaticRoute, out: &mut Vec<u8>) -> Result<(), OutOfMemory> {
    out.extend_from_slice(b", ")?;
    append_prefix(&route.net, out)?;
    write_target(route, out)
}

fn write_static(
    checked: &Checked,
    protocol: &StaticDef,
    out: &mut Vec<u8>,
) -> Result<(), OutOfMemory> {
    out.extend_from_slice(b" static ")?;
    write_channel(checked, &protocol.channel, out)?;
    for route in protocol.routes.as_slice() {
        write_route(route, out)?;
    }
    Ok(())
}

fn write_neighbor(protocol: &BgpDef, out: &mut Vec<u8>) -> Result<(), OutOfMemory> {
    write_labelled(b" as ", protocol.local, out)?;
    out.extend_from_slice(b" neighbor ")?;
    append_addr(&protocol.neighbor, out)?;
    write_labelled(b" as ", protocol.remote, out)
}

fn communities_word(are_interpreted: bool) -> &'static [u8] {
    match are_interpreted {
        true => b" communities on",
        false => b" communities off",
    }
}

fn write_bgp(checked: &Checked, protocol: &BgpDef, out: &mut Vec<u8>) -> Result<(), OutOfMemory> {
    out.extend_from_slice(b" bgp ")?;
    write_channel(checked, &protocol.channel, out)?;
    write_neighbor(protocol, out)?;
    write_labelled(b" med ", protocol.default_med, out)?;
    write_labelled(b" lp ", protocol.default_local_pref, out)?;
    out.extend_from_slice(communities_word(protocol.interpret_communities))?;
    Ok(())
}

fn write_pipe(checked: &Checked, protocol: &PipeDef, out: &mut Vec<u8>) -> Result<(), OutOfMemory> {
    out.extend_from_slice(b" pipe")?;
    write_table(checked, protocol.table, out)?;
    write_table(checked, protocol.peer, out)?;
    write_policies(&protocol.import, &protocol.export, out)
}

fn write_protocol(
    checked: &Checked,
    protocol: &ProtocolDef,
    out: &mut Vec<u8>,
) -> Result<(), OutOfMemory> {
    out.extend_from_slice(b"; ")?;
    out.extend_from_slice(protocol.name.as_slice())?;
    match &protocol.body {
        ProtocolBody::Static(body) => write_static(checked, body, out),
        ProtocolBody::Bgp(body) => write_bgp(checked, body, out),
        ProtocolBody::Pipe(body) => write_pipe(checked, body, out),
    }
}

fn write_counts(checked: &Checked, out: &mut Vec<u8>) -> Result<(), OutOfMemory> {
    write_count(b"accepted tables ", checked.declared.tables.len(), out)?;
    write_count(b" filters ", checked.filters.len(), out)?;
    write_count(b" protocols ", checked.protocols.len(), out)
}

/// Appends what an accepted configuration comes to.
pub fn write_checked(checked: &Checked, out: &mut Vec<u8>) -> Result<(), OutOfMemory> {
    write_counts(checked, out)?;
    let passed_over = checked.protocols.len().saturating_sub(SHOWN);
    for protocol in checked.protocols.get(passed_over..).unwrap_or(&[]) {
        write_protocol(checked, protocol, out)?;
    }
    Ok(())
}
