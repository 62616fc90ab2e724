//! What a channel makes of a route.
ghost use Rattle.std.specs.Prelude.{◌≡◌, ℕ, false, IfOk, option_copied};
ghost use Rattle.attrs.specs.Clist.{has_pair};
ghost use Rattle.export_core.specs.Candidates.{among, heeds, key_of_entry, told_of};
ghost use Rattle.export_core.specs.Keys.{key_of};
ghost use Rattle.export_core.specs.Passing.{has_known, is_for_inside, is_internal, is_kept, passed, value_by};

use crate::log::Key;
use attrs::{Attrs, JEntry, Judge, Kind, Route, Seq, Shared, Verdict};
use bits_ip::{Family, OutOfMemory, Prefix};

/// What a channel's gate goes by. What a pipe's direction passes is told by the sources alone.
#[derive(Debug, Drop)]
pub struct ExportSpec {
    /// The family of the table that the channel reads.
    pub family: Family,
    /// The number of the channel's protocol, whose own routes it isn't sent.
    pub own: u32,
    /// Whether the neighbour is in another autonomous system.
    pub to_ebgp: bool,
    /// Whether the communities that are known everywhere (RFC 1997) have their meaning.
    pub interpret: bool,
    /// Whether it is a pipe's direction, which sends each route of a net and not the best alone.
    pub every: bool,
    /// The numbers of the sources whose routes a pipe's direction passes.
    pub sources: Seq<u32>,
}

/// The gate and the filter of one channel.
#[derive(Debug, Drop)]
pub struct Through<J: Judge> {
    pub spec: ExportSpec,
    pub judge: J,
}

/// The first half of the communities that are known everywhere.
const KNOWN: u16 = 65535;

fn has_known(attrs: &Attrs, community: u16) -> bool
    ensures { result ≡ has_known attrs.now community }
{
    attrs.coms.as_slice().contains(&(KNOWN, community))
}

fn is_for_inside(attrs: &Attrs) -> bool
    ensures { result ≡ is_for_inside attrs.now }
{
    has_known(attrs, 65281) | has_known(attrs, 65283)
}

fn is_internal(attrs: &Attrs) -> bool
    ensures { result ≡ is_internal attrs.now }
{
    match attrs.kind {
        Kind::Static => false,
        Kind::Bgp => !attrs.ebgp,
    }
}

impl ExportSpec {
    /// Whether the gate keeps the route from the channel.
    pub fn keeps(&self, route: &Route) -> bool
        ensures { result ≡ is_kept self.now route.now }
    {
        let own = route.src.num == self.own;
        let inside = is_internal(&route.attrs) & !self.to_ebgp;
        let nobody = has_known(&route.attrs, 65282);
        let outside = self.to_ebgp & is_for_inside(&route.attrs);
        own | inside | (self.interpret & (nobody | outside))
    }

    /// Whether the source is one that a pipe's direction passes.
    pub(crate) fn passes(&self, num: u32) -> bool
        ensures { result ≡ among num self.now.sources }
    {
        self.sources.as_slice().contains(&num)
    }

    /// Whether an entry of this source marks anything.
    pub(crate) fn heeds(&self, num: u32) -> bool
        ensures { result ≡ heeds self.now num }
    {
        !self.every || self.passes(num)
    }

    /// The key of an entry.
    pub(crate) fn key_of(&self, entry: &JEntry) -> Key
        ensures { result ≡ key_of_entry self.now entry.now }
    {
        let num = if self.every { entry.num } else { 0 };
        Key {
            net: entry.net,
            num,
        }
    }

    /// The candidate of that key behind the entry.
    pub(crate) fn told<'a>(&self, entry: &'a JEntry) -> Option<&'a Route>
        ensures { option_copied result ≡ told_of self.now entry.now }
    {
        if self.every {
            entry.new.as_ref()
        } else {
            entry.best.as_ref()
        }
    }
}

impl<J: Judge> Through<J> {
    /// Of a channel that isn't a pipe's direction.
    pub fn make(spec: ExportSpec, judge: J) -> Through<J>
        requires { spec.every ≡ false }
        ensures { result ≡ record { spec = spec; judge = judge } }
    {
        Through { spec, judge }
    }

    /// The attributes with which the route is sent. None exactly where the gate keeps it or the
    /// filter rejects it, by its word or by a fault.
    pub fn value(&self, net: &Prefix, route: &Route) -> Result<Option<Shared<Attrs>>, OutOfMemory>
        ensures { IfOk result (λ value. value
            ≡ value_by self.now.spec (J.verdict self.now.judge) (key_of net.now) route.now) }
    {
        if !self.spec.every && self.spec.keeps(route) {
            return Ok(None);
        }
        match self.judge.judge(net, route)? {
            Verdict::Accept(attrs) => Ok(Some(attrs)),
            Verdict::Reject(_) => Ok(None),
        }
    }

    /// The same of a key's candidate, where there is one.
    pub(crate) fn best_value(
        &self,
        key: &Key,
        best: Option<&Route>,
    ) -> Result<Option<Shared<Attrs>>, OutOfMemory>
        ensures { IfOk result (λ value. value
            ≡ passed (value_by self.now.spec (J.verdict self.now.judge)) key.now
            (option_copied best.entry)) }
    {
        match best {
            Some(route) => self.value(&key.net, route),
            None => Ok(None),
        }
    }
}
