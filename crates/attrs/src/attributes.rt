//! The attributes of a route: all that a table keeps of it beside its net and its source.
//!
//! From: BIRD User's Guide, "Filters", "Route attributes"; RFC 4271, sections 4.3 and 5. Example:
//! the attributes of 203.0.113.0/24 in the worked run of docs/DEFINITIONS.md.
ghost use Rattle.std.specs.Prelude.{◌≡◌, ◌↔◌, IfOk, IsTrue};
ghost use Rattle.attrs.specs.Text.{dest_text, kind_text, origin_text};

use crate::{Clist, Path};
use bits_ip::{Addr, OutOfMemory};

/// Where a route came from (RFC 4271, section 4.3, ORIGIN).
#[derive(Clone, Copy, Debug, PartialEq, Eq, Hash)]
pub enum Origin {
    Igp,
    Egp,
    Incomplete,
}

impl Origin {
    /// The word by which scripts and texts of attributes name it.
    pub fn word(self) -> &'static str
        ensures { result.now ≡ origin_text self }
    {
        match self {
            Origin::Igp => "igp",
            Origin::Egp => "egp",
            Origin::Incomplete => "incomplete",
        }
    }
}

/// What is done with a packet for the net.
#[derive(Clone, Copy, Debug, PartialEq, Eq, Hash)]
pub enum Dest {
    Unicast,
    Blackhole,
    Unreachable,
    Prohibit,
}

impl Dest {
    /// The word by which BIRD names it in `show route`, and a static route in the configuration.
    pub fn word(self) -> &'static str
        ensures { result.now ≡ dest_text self }
    {
        match self {
            Dest::Unicast => "unicast",
            Dest::Blackhole => "blackhole",
            Dest::Unreachable => "unreachable",
            Dest::Prohibit => "prohibit",
        }
    }
}

/// By which kind of protocol a route was learned.
#[derive(Clone, Copy, Debug, PartialEq, Eq, Hash)]
pub enum Kind {
    Static,
    Bgp,
}

impl Kind {
    /// The protocol's name in the configuration, in small letters.
    pub fn word(self) -> &'static str
        ensures { result.now ≡ kind_text self }
    {
        match self {
            Kind::Static => "static",
            Kind::Bgp => "bgp",
        }
    }
}

/// The attributes of a route (BIRD User's Guide, section 5.5, "Route attributes", and BGP's
/// attributes).
#[derive(Debug, Drop, PartialEq, Eq)]
pub struct Attrs {
    /// The preference, the higher the better.
    pub pref: u32,
    pub kind: Kind,
    pub dest: Dest,
    /// The gateway.
    pub gw: Option<Addr>,
    /// The neighbour's address.
    pub sender: Option<Addr>,
    /// The neighbour's router id, an IPv4 address as a number.
    pub peer_id: u32,
    /// Learned from a neighbour in another autonomous system.
    pub ebgp: bool,
    pub path: Path,
    pub origin: Option<Origin>,
    pub next_hop: Option<Addr>,
    /// The multi-exit discriminator, the lower the better.
    pub med: Option<u32>,
    /// The local preference, the higher the better.
    pub lp: Option<u32>,
    /// The internal distance, the lower the better.
    pub igp: Option<u32>,
    pub coms: Clist,
}

impl Attrs {
    /// A copy, equal to the original.
    pub fn copy(&self) -> Result<Attrs, OutOfMemory>
        ensures { IfOk result (λ copy. copy ≡ self.now) }
    {
        let path = self.path.copy()?;
        let coms = self.coms.copy()?;
        Ok(Attrs {
            pref: self.pref,
            kind: self.kind,
            dest: self.dest,
            gw: self.gw,
            sender: self.sender,
            peer_id: self.peer_id,
            ebgp: self.ebgp,
            path,
            origin: self.origin,
            next_hop: self.next_hop,
            med: self.med,
            lp: self.lp,
            igp: self.igp,
            coms,
        })
    }

    /// Whether the two have the same value in each field.
    pub fn is_same(&self, other: &Attrs) -> bool
        ensures { IsTrue result ↔ (self.now ≡ other.now) }
    {
        self == other
    }
}
