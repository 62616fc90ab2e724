//! The nets of a protocol's imports.
ghost use Rattle.std.specs.Prelude.{◌≡◌, ◌≢◌, ◌↔◌, ◌<◌, ◌^◌, [], ◌∷◌, length, false, true, Some, IfOk, OnOk, OnErr, IsTrue, if◌then◌else◌};
ghost use Rattle.import_core.specs.Changes.{IsDifference};
ghost use Rattle.import_core.specs.Decisions.{left_received};
ghost use Rattle.import_core.specs.Held.{IsNoted, IsRebuild, IsRebuiltBy, IsStored, accepted_of, accepted_route, holding, missing, none_kept, placed, received_in, write_all, write_one};
ghost use Rattle.import_core.specs.Imports.{Imports, has_net, is_up, route_at, without};

use crate::ImportSpec;
use crate::held::{Accepted, Decision, Held, decide, same_of_route};
use attrs::{Change, Judge, Kind, Seq};
use bits_ip::{OutOfMemory, Prefix};
use std::alloc::Global;
use std::collections::BTreeMap;
use std::marker::Model;

/// What was received of each net, and what of it is accepted.
#[derive(Debug, Drop)]
pub(crate) struct Nets {
    held: BTreeMap<Prefix, Held>,
    /// How many nets are accepted.
    accepted: u64,
}

impl Model for Nets {
    ghost use Rattle.std.specs.Prelude.{◌≡◌, length};
    ghost use Rattle.import_core.specs.Held.{Kept, accepted_in, kept_in};

    ghost Value = { Kept };

    ghost view = { λ n. kept_in n.held.entries };

    ghost invariant = { λ n. n.accepted ≡ length (accepted_in n.held.entries) };
}

/// What a rebuild comes to.
#[derive(Debug, Drop)]
pub(crate) struct Plan {
    /// What is accepted of each net, in their order.
    decisions: Vec<(Prefix, Accepted)>,
    changes: Seq<Change>,
    /// How many nets are accepted.
    count: u64,
    /// Whether a route was over the limit.
    over: bool,
}

/// What a rebuild came to.
#[derive(Debug, Drop)]
pub(crate) struct Rebuilt {
    pub(crate) changes: Seq<Change>,
    /// Whether a route was over the limit.
    pub(crate) over: bool,
    /// Whether the protocol is switched off at the limit.
    pub(crate) limited: bool,
}

fn tally(counts: bool) -> u64
    ensures { result ≡ (if counts then 1 else 0) }
{
    if counts { 1 } else { 0 }
}

/// One change alone.
fn single(alloc: Global, change: Change) -> Result<Seq<Change>, OutOfMemory>
    ensures { IfOk result (λ changes. changes ≡ change ∷ []) }
{
    let mut changes = Seq::new(alloc);
    changes.push(change)?;
    Ok(changes)
}

/// Puts the net's change behind the others, where its accepted route is another one.
fn note(
    changes: &mut Seq<Change>,
    num: u32,
    net: &Prefix,
    held: &Held,
    accepted: &Accepted,
) -> Result<(), OutOfMemory>
    ensures { OnOk result (IsNoted num net.now (accepted_of held.now)
        (accepted_route held.now.route accepted.now) changes.old changes.new) }
{
    if same_of_route(&held.route, &held.accepted, accepted) {
        return Ok(());
    }
    let new = accepted.copy(&held.route)?;
    changes.push(Change {
        net: *net,
        num,
        new,
    })
}

impl Plan {
    fn new(alloc: Global) -> Plan
        ensures changes { result.changes ≡ [] }
        ensures count { result.count ≡ 0 }
        ensures over { result.over ≡ false }
        ensures empty { result.decisions.items ≡ [] }
    {
        Plan {
            decisions: Vec::new(alloc),
            changes: Seq::new(alloc),
            count: 0,
            over: false,
        }
    }

    /// Decides one more net.
    fn store(
        &mut self,
        num: u32,
        net: &Prefix,
        held: &Held,
        accepted: Accepted,
        over: bool,
    ) -> Result<(), OutOfMemory>
        requires { self.old.count < 2 ^ 63 }
        ensures { OnOk result (IsStored num net.now held.now accepted over self.old self.new) }
    {
        note(&mut self.changes, num, net, held, &accepted)?;
        self.count += tally(!accepted.is_nothing());
        self.over |= over;
        self.decisions.push((*net, accepted))?;
        Ok(())
    }
}

/// What a rebuild comes to; none where it ends at the limit.
fn planned<J: Judge>(
    alloc: Global,
    nets: &BTreeMap<Prefix, Held>,
    spec: &ImportSpec,
    judge: &J,
) -> Result<Option<Plan>, OutOfMemory>
    ensures { IfOk result (λ plan. (i : Imports) → i.received ≡ received_in nets.now.entries
        → is_up i.mode ≡ true
        → IsRebuild spec.now (J.verdict judge.now) nets.now.entries i plan) }
{
    let mut plan = Plan::new(alloc);
    for (net, held) in nets {
        match decide(spec.limit, judge, net, &held.route, false, plan.count)? {
            Decision::Stored(accepted, over) => {
                plan.store(spec.src.num, net, held, accepted, over)?;
            }
            Decision::Limited => return Ok(None),
        }
    }
    Ok(Some(plan))
}

fn write_one(nets: &mut BTreeMap<Prefix, Held>, decision: (Prefix, Accepted))
    ensures { nets.new.entries ≡ write_one decision.0 decision.1 nets.old.entries }
{
    let (net, accepted) = decision;
    if let Some(held) = nets.get_mut(&net) {
        held.accepted = accepted;
    }
}

fn write(nets: &mut BTreeMap<Prefix, Held>, decisions: Vec<(Prefix, Accepted)>)
    ensures { nets.new.entries ≡ write_all decisions.items nets.old.entries }
{
    for decision in decisions {
        write_one(nets, decision);
    }
}

impl Nets {
    pub(crate) fn new(alloc: Global) -> Nets
        ensures { result ≡ none_kept }
    {
        Nets {
            held: BTreeMap::new(alloc),
            accepted: 0,
        }
    }

    /// How many nets are accepted.
    pub(crate) fn accepted(&self) -> u64
        ensures { result ≡ length self.now.accepted }
    {
        self.accepted
    }

    pub(crate) fn is_accepted(&self, net: &Prefix) -> bool
        ensures { result ≡ has_net net.now self.now.accepted }
    {
        let _count = self.held.len();
        match self.held.get(net) {
            Some(held) => held.is_accepted(),
            None => false,
        }
    }

    fn differs(&self, net: &Prefix, held: &Held) -> bool
        ensures { IsTrue result
            ↔ (route_at net.now self.now.accepted ≢ accepted_of held.now) }
    {
        let _count = self.held.len();
        match self.held.get(net) {
            Some(old) => !old.is_same(held),
            None => held.is_accepted(),
        }
    }

    /// The change of the net where this is held of it, if it is one.
    pub(crate) fn changes_with(
        &self,
        alloc: Global,
        num: u32,
        net: &Prefix,
        held: &Held,
    ) -> Result<Seq<Change>, OutOfMemory>
        ensures { IfOk result (λ changes. IsDifference num self.now.accepted
            (placed net.now (accepted_of held.now) self.now.accepted) changes) }
    {
        if self.differs(net, held) {
            let new = held.copy_accepted()?;
            return single(
                alloc,
                Change {
                    net: *net,
                    num,
                    new,
                },
            );
        }
        Ok(Seq::new(alloc))
    }

    /// The change of the net where nothing is held of it, if it is one.
    pub(crate) fn changes_without(
        &self,
        alloc: Global,
        num: u32,
        net: &Prefix,
    ) -> Result<Seq<Change>, OutOfMemory>
        ensures { IfOk result (λ changes. IsDifference num self.now.accepted
            (without net.now self.now.accepted) changes) }
    {
        if self.is_accepted(net) {
            let new = None;
            return single(
                alloc,
                Change {
                    net: *net,
                    num,
                    new,
                },
            );
        }
        Ok(Seq::new(alloc))
    }

    /// Holds this of the net from now on.
    pub(crate) fn put(&mut self, net: Prefix, held: Held) -> Result<(), OutOfMemory>
        ensures held { OnOk result (self.new ≡ holding net held self.old) }
        ensures refused { OnErr result (self.new ≡ self.old) }
    {
        let _count = self.held.len();
        let was = tally(self.is_accepted(&net));
        let is = tally(held.is_accepted());
        self.held.insert(net, held)?;
        self.accepted = self.accepted - was + is;
        Ok(())
    }

    /// Holds nothing of the net from now on.
    pub(crate) fn remove(&mut self, net: &Prefix)
        ensures { self.new ≡ missing net.now self.old }
    {
        let _count = self.held.len();
        let was = tally(self.is_accepted(net));
        self.held.remove(net);
        self.accepted -= was;
    }

    /// The changes where nothing is accepted any more.
    pub(crate) fn withdrawals(&self, alloc: Global, num: u32) -> Result<Seq<Change>, OutOfMemory>
        ensures { IfOk result (λ changes. IsDifference num self.now.accepted [] changes) }
    {
        let _count = self.held.len();
        let mut changes = Seq::new(alloc);
        for (net, held) in &self.held {
            note(&mut changes, num, net, held, &Accepted::Nothing)?;
        }
        Ok(changes)
    }

    pub(crate) fn clear(&mut self)
        ensures { self.new ≡ none_kept }
    {
        self.held.clear();
        self.accepted = 0;
    }

    /// Nothing is accepted any more. What was received stays.
    fn blank(&mut self)
        ensures { self.new ≡ record { received = self.old.received; accepted = [] } }
    {
        self.held.retain(|_, held| {
            held.accepted = Accepted::Nothing;
            true
        });
        self.accepted = 0;
    }

    /// Nothing is accepted any more; only a static protocol keeps what it received.
    pub(crate) fn switch_off(&mut self, kind: Kind)
        ensures { self.new
            ≡ record { received = left_received kind self.old.received; accepted = [] } }
    {
        match kind {
            Kind::Static => self.blank(),
            Kind::Bgp => self.clear(),
        }
    }

    /// Decides all nets anew.
    pub(crate) fn rebuild<J: Judge>(
        &mut self,
        alloc: Global,
        spec: &ImportSpec,
        judge: &J,
    ) -> Result<Rebuilt, OutOfMemory>
        ensures rebuilt { IfOk result (λ r. (i : Imports) → i.received ≡ self.old.received
            → is_up i.mode ≡ true
            → IsRebuiltBy spec.now (J.verdict judge.now) i self.old.accepted self.new r) }
        ensures refused { OnErr result (self.new ≡ self.old) }
    {
        let _count = self.held.len();
        match planned(alloc, &self.held, spec, judge)? {
            Some(plan) => {
                let Plan {
                    decisions,
                    changes,
                    count,
                    over,
                } = plan;
                write(&mut self.held, decisions);
                self.accepted = count;
                Ok(Rebuilt {
                    changes,
                    over,
                    limited: false,
                })
            }
            None => {
                let changes = self.withdrawals(alloc, spec.src.num)?;
                self.switch_off(spec.kind);
                Ok(Rebuilt {
                    changes,
                    over: true,
                    limited: true,
                })
            }
        }
    }
}
