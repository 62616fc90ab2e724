//! What is lent for a reply.
ghost use Rattle.std.specs.Prelude.{◌≡◌, IfOk, map, option_copied, option_map};
ghost use Rattle.core_setup.specs.Setup.{Exports};
ghost use Rattle.show_route.specs.Senders.{sender_of};
ghost use Rattle.sys_run.specs.Parts.{exports_seen};
ghost use Rattle.sys_run.specs.declared.parts.ProtocolParts.{ProtocolParts as HeldParts};

use attrs::{Judge, Route, Row, Seq, Verdict};
use bits_ip::{OutOfMemory, Prefix};
use export_core::{ExportSpec, Through};
use rib::LentRow;
use std::alloc::Global;
use sys_run::{ExportParts, ProtocolParts};

/// A filter that is lent: it says what the lender's says. Threads can share it where they can share
/// a filter.
#[derive(Drop)]
#[derive_where(Clone, Copy)]
pub struct Lent<'p, J: Judge> {
    judge: &'p J,
}

impl<'p, J: Judge> Lent<'p, J> {
    /// Of a filter, which takes no memory.
    pub fn of(judge: &'p J) -> Lent<'p, J>
        ensures { ⟦<Lent<'p, J> as Judge>⟧.verdict result ≡ J.verdict judge.now }
    {
        Lent { judge }
    }
}

impl<J: Judge> Judge for Lent<'_, J> {
    ghost verdict = { λ lent. J.verdict lent.judge.now };

    fn judge(&self, net: &Prefix, route: &Route) -> Result<Verdict, OutOfMemory> {
        self.judge.judge(net, route)
    }
}

/// A copy of what a channel sends by.
pub fn copy_exports(alloc: Global, spec: &ExportSpec) -> Result<ExportSpec, OutOfMemory>
    ensures { IfOk result (λ copy. copy ≡ spec.now) }
{
    let sources = Vec::from_slice(alloc, spec.sources.as_slice())?;
    Ok(ExportSpec {
        family: spec.family,
        own: spec.own,
        to_ebgp: spec.to_ebgp,
        interpret: spec.interpret,
        every: spec.every,
        sources: Seq::from_vec(sources),
    })
}

/// A channel whose filter is lent.
pub(crate) fn lend_channel<'p, J: Judge>(
    alloc: Global,
    exports: Option<&'p ExportParts<J>>,
) -> Result<Option<Through<Lent<'p, J>>>, OutOfMemory>
    ensures { IfOk result (λ through.
        option_map (λ through. sender_of through.spec (J.verdict through.judge.judge.now)) through
        ≡ option_map (λ (seen : Exports). sender_of seen.spec seen.filter)
        (option_map (exports_seen J.verdict) (option_copied exports.entry))) }
{
    let Some(exports) = exports else {
        return Ok(None);
    };
    let spec = copy_exports(alloc, &exports.spec)?;
    let judge = Lent::of(&exports.judge);
    Ok(Some(Through { spec, judge }))
}

/// The protocols' names, by number.
pub(crate) fn names_of<'p, J: Judge>(
    alloc: Global,
    protocols: &'p [ProtocolParts<J>],
) -> Result<Vec<&'p [u8]>, OutOfMemory>
    ensures { IfOk result (λ names. map (λ name. name.now) names.items
        ≡ map (λ (p : HeldParts J). p.name) protocols.now) }
{
    let mut names = Vec::with_capacity(alloc, protocols.len())?;
    for protocol in protocols {
        names.push(protocol.name.as_slice())?;
    }
    Ok(names)
}

pub(crate) fn lend_rows<'p>(alloc: Global, rows: &'p [Row]) -> Result<Vec<LentRow<'p>>, OutOfMemory>
    ensures { IfOk result (λ lent. lent.items ≡ rows.now) }
{
    let mut lent = Vec::with_capacity(alloc, rows.len())?;
    for row in rows {
        lent.push(LentRow {
            net: row.net,
            routes: row.routes.as_slice(),
        })?;
    }
    Ok(lent)
}
