//! What is held of a received net, and what is decided of it.
ghost use Rattle.std.specs.Prelude.{◌≡◌, ◌↔◌, ◌&&◌, not, nat_le, Some, IfOk, IsTrue, is_some, option_copied, option_map};
ghost use Rattle.import_core.specs.Decisions.{left_of};
ghost use Rattle.import_core.specs.declared.held.Accepted.{Accepted};
ghost use Rattle.import_core.specs.Held.{accepted_of, accepted_route, excessive, is_nothing, limited_by, settled};

use crate::{Action, Limit};
use attrs::{Attrs, Judge, Route, Shared, Verdict};
use bits_ip::{OutOfMemory, Prefix};

/// What of a received route is accepted.
#[derive(Debug, Drop)]
pub(crate) enum Accepted {
    Nothing,
    /// The filter left it as it was.
    AsReceived,
    /// The filter left it with other attributes.
    With(Shared<Attrs>),
}

/// The received route of a net, and what of it is accepted.
#[derive(Debug, Drop)]
pub(crate) struct Held {
    pub(crate) route: Route,
    pub(crate) accepted: Accepted,
}

/// What is decided of a net.
#[derive(Debug, Drop)]
pub(crate) enum Decision {
    /// This of its route is accepted; and whether the route was over the limit.
    Stored(Accepted, bool),
    /// The protocol is switched off at the limit.
    Limited,
}

fn accepted_as(route: &Route, attrs: Shared<Attrs>) -> Accepted
    ensures { accepted_route route.now result
        ≡ Some (record { src = route.now.src; attrs = attrs }) }
{
    if attrs.is_same(&route.attrs) {
        Accepted::AsReceived
    } else {
        Accepted::With(attrs)
    }
}

/// What the filter leaves of a net's route.
fn filtered<J: Judge>(judge: &J, net: &Prefix, route: &Route) -> Result<Accepted, OutOfMemory>
    ensures { IfOk result (λ accepted. accepted_route route.now accepted
        ≡ left_of (J.verdict judge.now) net.now route.now) }
{
    match judge.judge(net, route)? {
        Verdict::Accept(attrs) => Ok(accepted_as(route, attrs)),
        Verdict::Reject(_) => Ok(Accepted::Nothing),
    }
}

fn excessive(action: Action, accepted: Accepted) -> Decision
    ensures { result ≡ excessive action accepted }
{
    match action {
        Action::Warn => Decision::Stored(accepted, true),
        Action::Block => Decision::Stored(Accepted::Nothing, true),
        Action::Disable => Decision::Limited,
    }
}

fn is_over(limit: Limit, is_accepted: bool, count: u64) -> bool
    ensures { result ≡ (not is_accepted && nat_le limit.count count) }
{
    !is_accepted & (limit.count as u64 <= count)
}

fn limited_by(limit: Option<Limit>, accepted: Accepted, is_accepted: bool, count: u64) -> Decision
    ensures { result ≡ limited_by limit accepted is_accepted count }
{
    match limit {
        None => Decision::Stored(accepted, false),
        Some(limit) => {
            if is_over(limit, is_accepted, count) {
                excessive(limit.action, accepted)
            } else {
                Decision::Stored(accepted, false)
            }
        }
    }
}

fn settled(limit: Option<Limit>, accepted: Accepted, is_accepted: bool, count: u64) -> Decision
    ensures { result ≡ settled limit accepted is_accepted count }
{
    if accepted.is_nothing() {
        Decision::Stored(Accepted::Nothing, false)
    } else {
        limited_by(limit, accepted, is_accepted, count)
    }
}

/// Decides a net of which this route was received, where so many nets are accepted.
pub(crate) fn decide<J: Judge>(
    limit: Option<Limit>,
    judge: &J,
    net: &Prefix,
    route: &Route,
    is_accepted: bool,
    count: u64,
) -> Result<Decision, OutOfMemory>
    ensures { IfOk result (λ decision. (accepted : Accepted)
        × (accepted_route route.now accepted ≡ left_of (J.verdict judge.now) net.now route.now)
        × (decision ≡ settled limit accepted is_accepted count)) }
{
    let accepted = filtered(judge, net, route)?;
    Ok(settled(limit, accepted, is_accepted, count))
}

impl Accepted {
    pub(crate) fn is_nothing(&self) -> bool
        ensures { result ≡ is_nothing self.now }
    {
        match self {
            Accepted::Nothing => true,
            Accepted::AsReceived => false,
            Accepted::With(_) => false,
        }
    }

    /// The accepted attributes.
    fn attrs<'a>(&'a self, route: &'a Route) -> Option<&'a Attrs>
        ensures { option_copied result
            ≡ option_map (λ r. r.attrs) (accepted_route route.now self.now) }
    {
        match self {
            Accepted::Nothing => None,
            Accepted::AsReceived => Some(&route.attrs),
            Accepted::With(attrs) => Some(attrs),
        }
    }

    /// A copy of the accepted route.
    pub(crate) fn copy(&self, route: &Route) -> Result<Option<Route>, OutOfMemory>
        ensures { IfOk result (λ copy. copy ≡ accepted_route route.now self.now) }
    {
        match self {
            Accepted::Nothing => Ok(None),
            Accepted::AsReceived => Ok(Some(route.copy()?)),
            Accepted::With(attrs) => Ok(Some(Route {
                src: route.src,
                attrs: attrs.share()?,
            })),
        }
    }
}

fn same_attrs(one: Option<&Attrs>, other: Option<&Attrs>) -> bool
    ensures { IsTrue result ↔ (option_copied one.entry ≡ option_copied other.entry) }
{
    match (one, other) {
        (Some(one), Some(other)) => one.is_same(other),
        (None, None) => true,
        _ => false,
    }
}

/// Whether the same is accepted of a route in two ways.
pub(crate) fn same_of_route(route: &Route, one: &Accepted, other: &Accepted) -> bool
    ensures { IsTrue result
        ↔ (accepted_route route.now one.now ≡ accepted_route route.now other.now) }
{
    same_attrs(one.attrs(route), other.attrs(route))
}

impl Held {
    pub(crate) fn is_accepted(&self) -> bool
        ensures { result ≡ is_some (accepted_of self.now) }
    {
        !self.accepted.is_nothing()
    }

    /// A copy of the accepted route.
    pub(crate) fn copy_accepted(&self) -> Result<Option<Route>, OutOfMemory>
        ensures { IfOk result (λ copy. copy ≡ accepted_of self.now) }
    {
        self.accepted.copy(&self.route)
    }

    /// Whether the same route is accepted.
    pub(crate) fn is_same(&self, other: &Held) -> bool
        ensures { IsTrue result ↔ (accepted_of self.now ≡ accepted_of other.now) }
    {
        let one = self.accepted.attrs(&self.route);
        let same_source = one.is_none() | (self.route.src == other.route.src);
        same_source & same_attrs(one, other.accepted.attrs(&other.route))
    }
}
