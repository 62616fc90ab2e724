//! What an accepted configuration comes to. Tables, filters and protocols have numbers, from 0 in
//! their order; the tables master4 and master6 are the first two.
use attrs::{Dest, Seq};
use bits_ip::{Addr, Family, Prefix};
use conf_ast::configurations::Action;
use conf_names::Declared;
use filt_meaning::TFilter;

/// What of the routes passes (BIRD User's Guide, "Channel options", `import` and `export`).
#[derive(Drop)]
pub enum PolicyDef {
    All,
    None,
    /// By the filter of that number.
    Filter(usize),
    /// By a filter of its own.
    Own(TFilter),
}

/// How many routes are accepted, and what is done beyond (BIRD User's Guide, "Channel options",
/// `import limit`).
#[derive(Clone, Copy, Debug, PartialEq, Eq)]
pub struct ImportLimit {
    pub count: u32,
    pub action: Action,
}

/// A protocol's channel: its table's number, and its options.
#[derive(Drop)]
pub struct ChannelDef {
    pub family: Family,
    pub table: usize,
    pub import: PolicyDef,
    pub export: PolicyDef,
    /// The preference that routes have which it imports.
    pub preference: u32,
    pub limit: Option<ImportLimit>,
}

/// A BGP protocol (BIRD User's Guide, "BGP"). Options of its transport have no effect.
#[derive(Drop)]
pub struct BgpDef {
    /// The number of the own autonomous system.
    pub local: u32,
    pub neighbor: Addr,
    /// The number of the neighbour's autonomous system.
    pub remote: u32,
    /// Whether the well-known communities of RFC 1997 keep routes back.
    pub interpret_communities: bool,
    /// What a missing MED counts as.
    pub default_med: u32,
    /// What a missing local preference counts as.
    pub default_local_pref: u32,
    pub channel: ChannelDef,
}

#[derive(Clone, Copy, Debug, PartialEq, Eq)]
pub struct StaticRoute {
    pub net: Prefix,
    pub dest: Dest,
    /// The gateway, where the route has one (`via`).
    pub gateway: Option<Addr>,
}

/// A static protocol, and its routes, each of another net (BIRD User's Guide, "Static").
#[derive(Drop)]
pub struct StaticDef {
    pub channel: ChannelDef,
    pub routes: Seq<StaticRoute>,
}

/// A pipe: the numbers of its primary table and of its peer table (BIRD User's Guide, "Pipe").
#[derive(Drop)]
pub struct PipeDef {
    /// That of both tables.
    pub family: Family,
    pub table: usize,
    pub peer: usize,
    pub import: PolicyDef,
    pub export: PolicyDef,
}

#[derive(Drop)]
pub enum ProtocolBody {
    Static(StaticDef),
    Bgp(BgpDef),
    Pipe(PipeDef),
}

/// A protocol and its name: the one that it was given, or one by its kind.
#[derive(Drop)]
pub struct ProtocolDef {
    /// The byte of the source at which its name begins, or its kind's word where it has none.
    pub at: usize,
    pub name: Seq<u8>,
    pub body: ProtocolBody,
}

/// An accepted configuration.
#[derive(Drop)]
pub struct Checked {
    /// The names and what they stand for: constants and functions, tables and filters by their
    /// numbers.
    pub declared: Declared,
    /// The filters that have names, by their numbers.
    pub filters: Vec<TFilter>,
    /// The protocols, by their numbers. A protocol `device` has none.
    pub protocols: Vec<ProtocolDef>,
    /// The bytes of the source at which the names of the tables begin, by the tables' numbers.
    /// Those of master4 and master6 are 0: no statement declares these two, and they are the same
    /// in all configurations, so that there is nothing to tell of them.
    pub table_places: Vec<usize>,
    /// The length of the source, in bytes.
    pub end: usize,
}
