//! Filters, as those who ask them see them: a `Judge` says of a net and a route whether the route
//! passes, and with which attributes. Contracts know a filter by `verdict` alone.
//!
//! Not modelled: its language (filt_meaning). From: BIRD User's Guide, "Filters". Example: a filter
//! that accepts all leaves each route's attributes as they are.
ghost use Rattle.std.specs.Prelude.{◌≡◌, IfOk};

use crate::{Attrs, Route, Shared};
use bits_ip::{OutOfMemory, Prefix};

/// Why a filter has no verdict of its own: the route is rejected.
#[derive(Clone, Copy, Debug, PartialEq, Eq, Hash)]
pub enum FilterFault {
    /// It ended without accepting or rejecting.
    NoVerdict,
    ZeroDivisor,
    /// An attribute that the route hasn't got was read.
    Undefined,
    /// A part of a pair has over 16 bits.
    PairPart,
    PathLong,
    ClistLong,
    /// A function that gives nothing was asked for its value.
    NoValue,
}

/// What a filter says of a route.
#[derive(Debug, Drop)]
pub enum Verdict {
    /// The route passes with these attributes.
    Accept(Shared<Attrs>),
    /// It doesn't, by the filter's word or by a fault.
    Reject(Option<FilterFault>),
}

/// A filter. What it means is a function of the net and the route.
pub trait Judge {
    ghost use Rattle.bits_ip.specs.Prefix.{Net};
    ghost use Rattle.attrs.specs.declared.route.Route.{Route};
    ghost use Rattle.attrs.specs.declared.judge.Verdict.{Verdict};

    /// What the filter says of a route of a net.
    ghost verdict: { Self → Net → Route → Verdict };

    fn judge(&self, net: &Prefix, route: &Route) -> Result<Verdict, OutOfMemory>
        ensures { IfOk result (λ said. said ≡ verdict self.now net.now route.now) };
}
