//! What holds for all routes of a protocol.
use attrs::{Dest, Kind, Seq, Src};
use bits_ip::{Addr, Prefix};

/// What is done with a route over the limit (BIRD User's Guide, channel options, `import limit`).
#[derive(Clone, Copy, Debug, PartialEq, Eq)]
pub enum Action {
    /// It is accepted all the same.
    Warn,
    /// It is treated as rejected.
    Block,
    /// The protocol is switched off.
    Disable,
}

/// How many nets are accepted, and what is done with a route beyond.
#[derive(Clone, Copy, Debug, PartialEq, Eq)]
pub struct Limit {
    pub count: u32,
    pub action: Action,
}

/// A configured route of a static protocol.
#[derive(Clone, Copy, Debug, PartialEq, Eq)]
pub struct Fixed {
    pub net: Prefix,
    pub dest: Dest,
    /// The gateway, where packets are sent to one.
    pub gw: Option<Addr>,
}

/// A protocol, as its imports see it.
#[derive(Debug, Drop)]
pub struct ImportSpec {
    /// The source that its routes have.
    pub src: Src,
    pub kind: Kind,
    /// The neighbour's address.
    pub sender: Option<Addr>,
    /// Whether the neighbour is in another autonomous system.
    pub ebgp: bool,
    /// The preference that its routes have.
    pub pref: u32,
    /// The limit of its imports.
    pub limit: Option<Limit>,
    /// The configured routes of a static protocol, each of another net.
    pub fixed: Seq<Fixed>,
}
