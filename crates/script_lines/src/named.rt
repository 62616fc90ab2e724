//! What a configuration declares, as far as scripts can name it, and whether they may schedule.
ghost use Rattle.std.specs.Prelude.{◌≡◌, IfOk, find, option_map};
ghost use Rattle.bits_ip.specs.Address.{family_of};
ghost use Rattle.script_lines.specs.Kinds.{place_of, is_called, is_bgp, is_bgp_of, channel_of};
ghost use Rattle.script_lines.specs.Kinds.{protocol_of, session_of, is_of_family, same_family};
ghost use Rattle.script_lines.specs.Kinds.{AreFew, is_session_of};
ghost use Rattle.script_lines.specs.Kinds.{table_of, is_table, filter_of, export_table, family_at};
ghost use Rattle.script_lines.specs.Inside.{session_place, protocol_place, table_place};

use crate::name_list::NameList;
use attrs::Seq;
use bits_ip::{Addr, Family, OutOfMemory};
use std::alloc::Global;
use std::marker::Model;

/// A name, which is its bytes.
#[derive(Debug, Drop)]
pub struct Name {
    bytes: Vec<u8>,
}

impl Model for Name {
    ghost use Rattle.std.specs.Prelude.{List, ℕ};

    ghost Value = { List ℕ };

    ghost view = { λ name. name.bytes.items };
}

impl Name {
    /// The name of these bytes.
    pub fn new(alloc: Global, bytes: &[u8]) -> Result<Name, OutOfMemory>
        ensures { IfOk result (λ name. name ≡ bytes.now) }
    {
        let bytes = Vec::from_slice(alloc, bytes)?;
        Ok(Name { bytes })
    }

    pub fn as_slice(&self) -> &[u8]
        ensures { result.now ≡ self.now }
    {
        self.bytes.as_slice()
    }
}

/// What a protocol is, and the family of its channel. A pipe has none.
#[derive(Clone, Copy, Debug, PartialEq, Eq)]
pub enum ProtocolKind {
    Static(Family),
    Bgp(Family),
    Pipe,
}

/// A protocol as scripts know it.
#[derive(Debug, Drop)]
pub struct NamedProtocol {
    pub name: Name,
    pub kind: ProtocolKind,
    /// The number of its channel's table; of a pipe that of its primary table.
    pub table: u32,
}

/// A table as scripts know it.
#[derive(Debug, Drop)]
pub struct NamedTable {
    pub name: Name,
    /// The family of its nets.
    pub family: Family,
}

/// What scripts may use: what a configuration declares, as far as they can name it, and whether `!`
/// lines are for them. Names of protocols differ, and so do those of channels, of tables and of
/// filters.
#[derive(Drop)]
pub struct Named {
    /// The protocols in their order.
    pub protocols: Seq<NamedProtocol>,
    /// The names of the channels in their order: of a bgp protocol its own name, of a pipe P
    /// `P.export` and `P.import`.
    pub channels: Seq<Name>,
    /// The tables in their order: the first is master4, the second master6.
    pub tables: Seq<NamedTable>,
    /// The names of the filters in their order.
    pub filters: NameList,
    /// Whether a script may say which channel works when, by `!take` and `!push`.
    pub schedule: bool,
}

/// The number of the channel of this name.
pub fn channel_of(named: &Named, name: &[u8]) -> Option<u32>
    requires { AreFew named.now }
    ensures { result ≡ channel_of named.now name.now }
{
    let place = place_of(named.channels.as_slice(), name)?;
    u32::try_from(place).ok()
}

/// The number of the protocol of this name.
pub fn protocol_of(named: &Named, name: &[u8]) -> Option<u32>
    requires { AreFew named.now }
    ensures { result ≡ protocol_of named.now name.now }
{
    let place = protocol_place(named.protocols.as_slice(), name)?;
    u32::try_from(place).ok()
}

/// The number of the bgp protocol of this name.
pub fn session_of(named: &Named, name: &[u8]) -> Option<u32>
    requires { AreFew named.now }
    ensures { result ≡ session_of named.now name.now }
{
    let place = session_place(named.protocols.as_slice(), name)?;
    u32::try_from(place).ok()
}

/// The number of the table of this name.
pub fn table_of(named: &Named, name: &[u8]) -> Option<u32>
    requires { AreFew named.now }
    ensures { result ≡ table_of named.now name.now }
{
    let place = table_place(named.tables.as_slice(), name)?;
    u32::try_from(place).ok()
}

/// The number of the filter of this name.
pub fn filter_of(named: &Named, name: &[u8]) -> Option<u32>
    requires { AreFew named.now }
    ensures { result ≡ filter_of named.now name.now }
{
    let place = named.filters.place(name)?;
    u32::try_from(place).ok()
}

/// The number of the table of the bgp protocol of this name.
pub fn export_table(named: &Named, name: &[u8]) -> Option<u32>
    ensures { result ≡ export_table named.now name.now }
{
    let protocol = session(named.protocols.as_slice(), name)?;
    Some(protocol.table)
}

/// The family of the table of this number.
pub fn family_at(named: &Named, number: u32) -> Option<Family>
    ensures { result ≡ family_at named.now number }
{
    let table = named.tables.as_slice().get(number as usize)?;
    Some(table.family)
}

/// Whether the bgp protocol of this name has a channel of this family.
pub fn is_of_family(named: &Named, name: &[u8], family: Family) -> bool
    ensures { result ≡ is_of_family named.now name.now family }
{
    match session(named.protocols.as_slice(), name) {
        Some(protocol) => is_bgp_of(family, protocol.kind),
        None => false,
    }
}

/// The bgp protocol of this name.
fn session<'a>(protocols: &'a [NamedProtocol], name: &[u8]) -> Option<&'a NamedProtocol>
    ensures { option_map (λ protocol. protocol.now) result
        ≡ find (is_session_of name.now) protocols.now }
{
    protocols
        .iter()
        .find(|protocol| is_session_of(protocol, name))
}

/// The place of a name in a list, from 0.
pub fn place_of(names: &[Name], name: &[u8]) -> Option<usize>
    ensures { result ≡ place_of names.now name.now }
{
    names.iter().position(|other| other.as_slice() == name)
}

fn protocol_place(protocols: &[NamedProtocol], name: &[u8]) -> Option<usize>
    ensures { result ≡ protocol_place protocols.now name.now }
{
    protocols
        .iter()
        .position(|protocol| is_called(protocol, name))
}

fn table_place(tables: &[NamedTable], name: &[u8]) -> Option<usize>
    ensures { result ≡ table_place tables.now name.now }
{
    tables.iter().position(|table| is_table(table, name))
}

fn session_place(protocols: &[NamedProtocol], name: &[u8]) -> Option<usize>
    ensures { result ≡ session_place protocols.now name.now }
{
    protocols
        .iter()
        .position(|protocol| is_session_of(protocol, name))
}

fn is_session_of(protocol: &NamedProtocol, name: &[u8]) -> bool
    ensures { result ≡ is_session_of name.now protocol.now }
{
    is_called(protocol, name) && is_bgp(protocol.kind)
}

fn is_called(protocol: &NamedProtocol, name: &[u8]) -> bool
    ensures { result ≡ is_called name.now protocol.now }
{
    protocol.name.as_slice() == name
}

fn is_table(table: &NamedTable, name: &[u8]) -> bool
    ensures { result ≡ is_table name.now table.now }
{
    table.name.as_slice() == name
}

fn is_bgp(kind: ProtocolKind) -> bool
    ensures { result ≡ is_bgp kind }
{
    match kind {
        ProtocolKind::Bgp(_) => true,
        ProtocolKind::Static(_) => false,
        ProtocolKind::Pipe => false,
    }
}

fn is_bgp_of(family: Family, kind: ProtocolKind) -> bool
    ensures { result ≡ is_bgp_of family kind }
{
    match kind {
        ProtocolKind::Bgp(own) => is_same(own, family),
        ProtocolKind::Static(_) => false,
        ProtocolKind::Pipe => false,
    }
}

pub fn is_same(one: Family, other: Family) -> bool
    ensures { result ≡ same_family one other }
{
    match (one, other) {
        (Family::V4, Family::V4) => true,
        (Family::V4, Family::V6) => false,
        (Family::V6, Family::V4) => false,
        (Family::V6, Family::V6) => true,
    }
}

pub fn family_of(addr: &Addr) -> Family
    ensures { result ≡ family_of addr.now }
{
    match addr {
        Addr::V4(_) => Family::V4,
        Addr::V6(_) => Family::V6,
    }
}
