//! Routes, what a table holds of a net, and changes, of which a table's history is made.
//!
//! From: BIRD User's Guide, "Routing tables"; RFC 4271, section 9. Example: in the worked run of
//! docs/DEFINITIONS.md an `add` is one change, with the route of the net 203.0.113.0/24 and source
//! 0.
ghost use Rattle.std.specs.Prelude.{◌≡◌, ◌↔◌, IfOk, IsTrue};

use crate::{Attrs, Seq, Shared};
use bits_ip::{OutOfMemory, Prefix};
use std::alloc::Global;

/// The protocol that a route comes from: its number, and the values that stand for missing ones of
/// its routes.
#[derive(Clone, Copy, Debug, PartialEq, Eq, Hash)]
pub struct Src {
    pub num: u32,
    /// What counts as the MED where there is none.
    pub def_med: u32,
    /// What counts as the local preference where there is none.
    pub def_lp: u32,
}

/// A route: its source and its attributes. A table keeps at most one for a net and a source.
#[derive(Debug, Drop, PartialEq, Eq)]
pub struct Route {
    pub src: Src,
    pub attrs: Shared<Attrs>,
}

/// A change of a table: a net and a source's number, with the route that stands there from now on,
/// or none.
#[derive(Debug, Drop)]
pub struct Change {
    pub net: Prefix,
    pub num: u32,
    pub new: Option<Route>,
}

/// A net and its routes, in selection order: the best is the first.
#[derive(Debug, Drop)]
pub struct Row {
    pub net: Prefix,
    pub routes: Seq<Route>,
}

/// Which nets of a table are asked for (BIRD User's Guide, "Remote control", `show route`).
#[derive(Clone, Copy, Debug, PartialEq, Eq, Hash)]
pub enum Select {
    All,
    /// This net alone.
    Exact(Prefix),
    /// The longest net that covers this prefix, which may be the prefix itself.
    For(Prefix),
    /// The nets that this prefix covers, itself among them.
    Within(Prefix),
}

impl Route {
    /// A route with these attributes.
    pub fn make(alloc: Global, src: Src, attrs: Attrs) -> Result<Route, OutOfMemory>
        ensures { IfOk result (λ route. route ≡ record { src = src; attrs = attrs }) }
    {
        let attrs = Shared::new(alloc, attrs)?;
        Ok(Route { src, attrs })
    }

    /// A copy, equal to the original, which owns the same attributes. Takes no memory.
    pub fn copy(&self) -> Result<Route, OutOfMemory>
        ensures { IfOk result (λ copy. copy ≡ self.now) }
    {
        let attrs = self.attrs.share()?;
        Ok(Route {
            src: self.src,
            attrs,
        })
    }

    /// Whether the two have the same value in each field.
    pub fn is_same(&self, other: &Route) -> bool
        ensures { IsTrue result ↔ (self.now ≡ other.now) }
    {
        self == other
    }
}
