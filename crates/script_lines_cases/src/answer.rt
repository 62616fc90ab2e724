use crate::names::named;
use attrs::{Select, write_communities, write_optional_number, write_spaced_numbers};
use bits_ip::{Addr, OutOfMemory, Prefix, write_addr, write_number, write_prefix};
use import_core::{Given, Op};
use script_lines::{Condition, Line, Script, ScriptFault, ScriptKind, read_script};
use show_route::Query;
use std::alloc::Global;
use std::io;
use std::io::{Error, ErrorKind};

/// What a script says that may schedule or may not, or why it isn't read.
///
/// Phases are separated by ` / `, lines by `; `, and an empty phase is `-`. An operation is written
/// with its actor's number, its line's and its protocol's: `0@2 p3 del 10.0.0.0/8`; a query with
/// its actor's number, its own and its table's, and what else is asked: `0@ q1 t2 in 10.0.0.0/8 of
/// p3`. Behind ` by ` are those who speak, and behind ` where ` the conditions, each with its
/// line's number, between brackets.
pub fn answer(alloc: Global, text: &[u8], schedule: bool) -> io::Result<String> {
    if text.len() >= 1_000_000 {
        return Err(Error::from(ErrorKind::InvalidInput));
    }
    let Ok(named) = named(alloc, schedule) else {
        return Err(Error::from(ErrorKind::OutOfMemory));
    };
    if named.protocols.len() > 256 || named.channels.len() > 512 {
        return Err(Error::from(ErrorKind::InvalidInput));
    }
    if named.tables.len() > 64 || named.filters.len() > 64 {
        return Err(Error::from(ErrorKind::InvalidInput));
    }
    match read_script(alloc, text, &named) {
        Ok(script) => written(alloc, &script),
        Err(
            ScriptFault::Refused {
                line,
                kind,
                conditions,
            },
        ) => refused(alloc, line, kind, conditions.as_slice()),
        Err(ScriptFault::Memory) => Err(Error::from(ErrorKind::OutOfMemory)),
    }
}

fn refused(
    alloc: Global,
    line: u32,
    kind: ScriptKind,
    conditions: &[Condition],
) -> io::Result<String> {
    let mut out = Vec::from_slice(alloc, format!(in alloc; "{line} {kind}")?.as_bytes())?;
    let written = write_conditions(conditions, &mut out);
    written.map_err(|_| Error::from(ErrorKind::OutOfMemory))?;
    String::from_utf8(out).map_err(|_| Error::from(ErrorKind::InvalidData))
}

fn written(alloc: Global, script: &Script) -> io::Result<String> {
    let mut out = Vec::new(alloc);
    let written = write_script(alloc, script, &mut out);
    written.map_err(|_| Error::from(ErrorKind::OutOfMemory))?;
    String::from_utf8(out).map_err(|_| Error::from(ErrorKind::InvalidData))
}

fn write_script(alloc: Global, script: &Script, out: &mut Vec<u8>) -> Result<(), OutOfMemory> {
    for phase in &script.phases {
        if !out.is_empty() {
            out.extend_from_slice(b" / ")?;
        }
        write_phase(alloc, phase.as_slice(), script.queries.as_slice(), out)?;
    }
    let mut sign = b" by ".as_slice();
    for actor in &script.actors {
        out.extend_from_slice(sign)?;
        out.extend_from_slice(actor.as_slice())?;
        sign = b",".as_slice();
    }
    write_conditions(script.conditions.as_slice(), out)
}

fn write_conditions(conditions: &[Condition], out: &mut Vec<u8>) -> Result<(), OutOfMemory> {
    for condition in conditions {
        out.extend_from_slice(b" where ")?;
        write_number(condition.line, out)?;
        out.extend_from_slice(b"[")?;
        out.extend_from_slice(condition.text.as_slice())?;
        out.extend_from_slice(b"]")?;
    }
    Ok(())
}

fn write_phase(
    alloc: Global,
    lines: &[Line],
    queries: &[Query],
    out: &mut Vec<u8>,
) -> Result<(), OutOfMemory> {
    if lines.is_empty() {
        out.extend_from_slice(b"-")?;
    }
    let mut sign = b"".as_slice();
    for line in lines {
        out.extend_from_slice(sign)?;
        write_line(alloc, line, queries, out)?;
        sign = b"; ".as_slice();
    }
    Ok(())
}

fn write_line(
    alloc: Global,
    line: &Line,
    queries: &[Query],
    out: &mut Vec<u8>,
) -> Result<(), OutOfMemory> {
    match line {
        Line::Take { channel, count } => write_two(b"take ", *channel, b" ", *count, out),
        Line::Push { channel, count } => write_two(b"push ", *channel, b" ", *count, out),
        Line::Apply {
            actor,
            line,
            protocol,
            op,
        } => {
            write_two(b"", *actor, b"@", *line, out)?;
            out.extend_from_slice(b" p")?;
            write_number(*protocol, out)?;
            write_op(alloc, op, out)
        }
        Line::Show { actor, query } => {
            write_two(b"", *actor, b"@ q", *query, out)?;
            match queries.get(*query as usize) {
                Some(asked) => write_query(alloc, asked, out),
                None => Ok(()),
            }
        }
    }
}

fn write_query(alloc: Global, query: &Query, out: &mut Vec<u8>) -> Result<(), OutOfMemory> {
    write_labelled(b" t", Some(query.table), out)?;
    write_pick(alloc, &query.pick, out)?;
    write_labelled(b" filter ", query.choice, out)?;
    write_labelled(b" of p", query.source, out)?;
    write_labelled(b" export p", query.export, out)?;
    write_flag(b" primary", query.primary, out)?;
    write_flag(b" all", query.all, out)?;
    write_flag(b" count", query.count, out)
}

fn write_labelled(label: &[u8], number: Option<u32>, out: &mut Vec<u8>) -> Result<(), OutOfMemory> {
    match number {
        Some(number) => {
            out.extend_from_slice(label)?;
            write_number(number, out)
        }
        None => Ok(()),
    }
}

fn write_flag(label: &[u8], set: bool, out: &mut Vec<u8>) -> Result<(), OutOfMemory> {
    if set {
        out.extend_from_slice(label)?;
    }
    Ok(())
}

fn write_pick(alloc: Global, pick: &Select, out: &mut Vec<u8>) -> Result<(), OutOfMemory> {
    match pick {
        Select::All => Ok(()),
        Select::Exact(net) => write_net(alloc, b" ", net, out),
        Select::For(net) => write_net(alloc, b" for ", net, out),
        Select::Within(net) => write_net(alloc, b" in ", net, out),
    }
}

fn write_net(
    alloc: Global,
    label: &[u8],
    net: &Prefix,
    out: &mut Vec<u8>,
) -> Result<(), OutOfMemory> {
    out.extend_from_slice(label)?;
    write_prefix(alloc, net, out)
}

fn write_two(
    label: &[u8],
    first: u32,
    sign: &[u8],
    second: u32,
    out: &mut Vec<u8>,
) -> Result<(), OutOfMemory> {
    out.extend_from_slice(label)?;
    write_number(first, out)?;
    out.extend_from_slice(sign)?;
    write_number(second, out)
}

fn write_op(alloc: Global, op: &Op, out: &mut Vec<u8>) -> Result<(), OutOfMemory> {
    match op {
        Op::Start => out.extend_from_slice(b" start")?,
        Op::SessionUp(id) => {
            out.extend_from_slice(b" open ")?;
            write_addr(alloc, &Addr::V4(*id), out)?;
        }
        Op::Add(net, given) => write_add(alloc, net, given, out)?,
        Op::Del(net) => {
            out.extend_from_slice(b" del ")?;
            write_prefix(alloc, net, out)?;
        }
        Op::SessionDown => out.extend_from_slice(b" close")?,
        Op::Disable => out.extend_from_slice(b" disable")?,
        Op::Enable => out.extend_from_slice(b" enable")?,
        Op::ReloadIn => out.extend_from_slice(b" reload in")?,
        Op::ReloadOut => out.extend_from_slice(b" reload out")?,
        Op::Reload => out.extend_from_slice(b" reload")?,
    }
    Ok(())
}

fn write_add(
    alloc: Global,
    net: &Prefix,
    given: &Given,
    out: &mut Vec<u8>,
) -> Result<(), OutOfMemory> {
    out.extend_from_slice(b" add ")?;
    write_prefix(alloc, net, out)?;
    out.extend_from_slice(b" via ")?;
    write_addr(alloc, &given.gw, out)?;
    out.extend_from_slice(b" path")?;
    write_spaced_numbers(given.path.as_slice(), out)?;
    out.extend_from_slice(b" origin ")?;
    out.extend_from_slice(given.origin.word().as_bytes())?;
    write_optional_number(" med ", given.med, out)?;
    write_optional_number(" lp ", given.lp, out)?;
    write_optional_number(" igp ", given.igp, out)?;
    write_communities(&given.coms, out)
}
