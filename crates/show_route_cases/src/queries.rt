//! The queries of a file: options with commas between them, and `-` for none.
use crate::judges::Least;
use crate::routes::{bad, prefix};
use attrs::{Select, Seq};
use bits_ip::{Addr, Family, Prefix, parse_addr};
use export_core::{ExportSpec, Through};
use rib::Rib;
use show_route::{Query, answer_table};
use std::alloc::Global;
use std::io;

/// The protocols by their numbers.
const NAMES: [&[u8]; 4] = [b"agg", b"p1", b"p2", b"ib"];

/// A query, with the filter and the channel that it names.
#[derive(Drop)]
struct Asked {
    query: Query,
    choice: Option<Least>,
    export: Option<Through<Least>>,
}

fn protocol(name: &str) -> io::Result<u32> {
    match name {
        "agg" => Ok(0),
        "p1" => Ok(1),
        "p2" => Ok(2),
        "ib" => Ok(3),
        _ => Err(bad()),
    }
}

/// The filters: `all`; `high`, from preference 150 on; `marked`, which gives preference 7; `none`.
fn filter(alloc: Global, name: &str) -> io::Result<Least> {
    let (least, given) = match name {
        "all" => (0, None),
        "high" => (150, None),
        "marked" => (0, Some(7)),
        "none" => (u32::MAX, None),
        _ => return Err(bad()),
    };
    Ok(Least {
        alloc,
        least,
        given,
    })
}

/// The channels: p1 sends all, p2 gives preference 7, ib is of the own autonomous system.
fn channel(alloc: Global, name: &str) -> io::Result<Through<Least>> {
    let judge = filter(alloc, if name == "p2" { "marked" } else { "all" })?;
    let spec = ExportSpec {
        family: Family::V4,
        own: protocol(name)?,
        to_ebgp: name != "ib",
        interpret: true,
        every: false,
        sources: Seq::from_vec(Vec::new(alloc)),
    };
    Ok(Through::make(spec, judge))
}

/// A prefix, or an address as the prefix of its length.
fn asked_for(text: &str) -> io::Result<Prefix> {
    match parse_addr(text.as_bytes()) {
        Some(addr) => whole(addr),
        None => prefix(text),
    }
}

fn whole(addr: Addr) -> io::Result<Prefix> {
    Prefix::make(addr, 32).map_err(|_| bad())
}

fn set(alloc: Global, asked: &mut Asked, name: &str, value: &str) -> io::Result<()> {
    match name {
        "net" => asked.query.pick = Select::Exact(prefix(value)?),
        "for" => asked.query.pick = Select::For(asked_for(value)?),
        "in" => asked.query.pick = Select::Within(prefix(value)?),
        "protocol" => asked.query.source = Some(protocol(value)?),
        "filter" => {
            asked.choice = Some(filter(alloc, value)?);
            asked.query.choice = Some(0);
        }
        "export" => {
            asked.export = Some(channel(alloc, value)?);
            asked.query.export = Some(protocol(value)?);
        }
        "primary" => asked.query.primary = true,
        "all" => asked.query.all = true,
        "count" => asked.query.count = true,
        "-" => {}
        _ => return Err(bad()),
    }
    Ok(())
}

/// The query that a case writes so.
fn read_query(alloc: Global, text: &str) -> io::Result<Asked> {
    let mut asked = Asked {
        query: Query {
            table: 0,
            pick: Select::All,
            choice: None,
            source: None,
            export: None,
            primary: false,
            all: false,
            count: false,
        },
        choice: None,
        export: None,
    };
    for option in text.split(", ") {
        match option.split_once(" ") {
            Some((name, value)) => set(alloc, &mut asked, name, value)?,
            None => set(alloc, &mut asked, option, "")?,
        }
    }
    Ok(asked)
}

fn reply(alloc: Global, rib: &Rib, asked: &Asked) -> io::Result<Vec<u8>> {
    if asked.query.choice.is_some() != asked.choice.is_some()
        || asked.query.export.is_some() != asked.export.is_some()
    {
        return Err(bad());
    }
    answer_table(
        alloc,
        &asked.query,
        rib,
        b"master4",
        &NAMES,
        asked.choice.as_ref(),
        asked.export.as_ref(),
    )
    .map_err(|_| bad())
}

/// The reply to the query that a case writes so.
pub fn answered(alloc: Global, rib: &Rib, text: &str) -> io::Result<Vec<u8>> {
    let mut asked = Vec::new(alloc);
    asked.push(read_query(alloc, text)?)?;
    match asked.first() {
        Some(asked) => reply(alloc, rib, asked),
        None => Err(bad()),
    }
}
