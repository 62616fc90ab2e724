//! What the scripts of the tables can name.
use attrs::Seq;
use bits_ip::{Family, OutOfMemory};
use script_lines::{Name, NameList, Named, NamedProtocol, NamedTable, ProtocolKind};
use std::alloc::Global;

/// A name of 64 bytes.
const LONG: &[u8] = b"long-name-of-sixty-four-bytes-0123456789-0123456789-0123456789-x";

fn protocol(
    alloc: Global,
    name: &[u8],
    kind: ProtocolKind,
    table: u32,
) -> Result<NamedProtocol, OutOfMemory> {
    let name = Name::new(alloc, name)?;
    Ok(NamedProtocol { name, kind, table })
}

fn protocols(alloc: Global) -> Result<Vec<NamedProtocol>, OutOfMemory> {
    let mut all = Vec::new(alloc);
    all.push(protocol(alloc, b"p1", ProtocolKind::Bgp(Family::V4), 0)?)?;
    all.push(protocol(alloc, b"p2", ProtocolKind::Bgp(Family::V4), 2)?)?;
    all.push(protocol(alloc, b"v6.up", ProtocolKind::Bgp(Family::V6), 1)?)?;
    all.push(protocol(alloc, b"agg", ProtocolKind::Static(Family::V4), 0)?)?;
    all.push(protocol(alloc, b"a", ProtocolKind::Pipe, 0)?)?;
    all.push(protocol(alloc, LONG, ProtocolKind::Pipe, 1)?)?;
    all.push(protocol(alloc, b"out", ProtocolKind::Bgp(Family::V4), 0)?)?;
    Ok(all)
}

fn channels(alloc: Global) -> Result<Vec<Name>, OutOfMemory> {
    let mut all = Vec::new(alloc);
    all.push(Name::new(alloc, b"p1")?)?;
    all.push(Name::new(alloc, b"p2")?)?;
    all.push(Name::new(alloc, b"v6.up")?)?;
    all.push(Name::new(alloc, b"a.export")?)?;
    all.push(Name::new(alloc, b"a.import")?)?;
    let mut export = Vec::from_slice(alloc, LONG)?;
    export.extend_from_slice(b".export")?;
    all.push(Name::new(alloc, export.as_slice())?)?;
    all.push(Name::new(alloc, b"out")?)?;
    Ok(all)
}

fn table(alloc: Global, name: &[u8], family: Family) -> Result<NamedTable, OutOfMemory> {
    let name = Name::new(alloc, name)?;
    Ok(NamedTable { name, family })
}

fn tables(alloc: Global) -> Result<Vec<NamedTable>, OutOfMemory> {
    let mut all = Vec::new(alloc);
    all.push(table(alloc, b"master4", Family::V4)?)?;
    all.push(table(alloc, b"master6", Family::V6)?)?;
    all.push(table(alloc, b"t4", Family::V4)?)?;
    all.push(table(alloc, b"t6", Family::V6)?)?;
    all.push(table(alloc, b"all", Family::V4)?)?;
    Ok(all)
}

fn filters(alloc: Global) -> Result<Vec<Name>, OutOfMemory> {
    let mut all = Vec::new(alloc);
    all.push(Name::new(alloc, b"keep")?)?;
    all.push(Name::new(alloc, b"count")?)?;
    Ok(all)
}

/// The protocols, from 0: the bgp protocols p1 and p2 of IPv4, v6.up of IPv6, the static one agg,
/// the pipe a, a pipe with a name of 64 bytes, and the bgp protocol out; and their channels. The
/// tables: master4 and master6, t4 that p2 reads, t6, and one called all. The filters keep and
/// count.
pub fn named(alloc: Global, schedule: bool) -> Result<Named, OutOfMemory> {
    let protocols = Seq::from_vec(protocols(alloc)?);
    let channels = Seq::from_vec(channels(alloc)?);
    let tables = Seq::from_vec(tables(alloc)?);
    let filters = NameList::make(alloc, filters(alloc)?)?;
    Ok(Named {
        protocols,
        channels,
        tables,
        filters,
        schedule,
    })
}
