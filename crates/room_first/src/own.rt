//! What stands first of a protocol with routes of its own.
ghost use Rattle.std.specs.Prelude.{◌≡◌, ◌<◌, ◌^◌, IfOk, option_copied};
ghost use Rattle.room_first.specs.Inside.{AreFirstChannels, IsFirstChannel, IsFirstSource};

use attrs::{Judge, Seq};
use bits_ip::OutOfMemory;
use export_core::Exporter;
use import_core::{ImportSpec, Importer};
use phase_answers::{Lent, copy_exports};
use phase_open::{StandingChannel, StandingProtocol};
use std::alloc::Global;
use std::hash::RandomState;
use sys_run::{ExportParts, SourceParts};

/// The protocol, whose channel has this number if it has one.
pub(crate) fn stand_source<'p, J: Judge + Drop>(
    alloc: Global,
    hasher: RandomState,
    channel: u32,
    source: &'p SourceParts<J>,
) -> Result<StandingProtocol<Lent<'p, J>>, OutOfMemory>
    requires { source.now.table < 2 ^ 32 }
    ensures { IfOk result (IsFirstSource J.verdict channel source.now) }
{
    let spec = copy_imports(alloc, &source.spec)?;
    let importer = Importer::make(alloc, spec, Lent::of(&source.judge));
    let channel = stand_channels(alloc, hasher, channel, source.exports.as_ref())?;
    Ok(StandingProtocol {
        table: source.table as u32,
        importer,
        channel,
    })
}

/// The channel, where the protocol has one.
fn stand_channels<'p, J: Judge + Drop>(
    alloc: Global,
    hasher: RandomState,
    number: u32,
    exports: Option<&'p ExportParts<J>>,
) -> Result<Option<StandingChannel<Lent<'p, J>>>, OutOfMemory>
    ensures { IfOk result
        (AreFirstChannels J.verdict number (option_copied exports.entry)) }
{
    match exports {
        Some(exports) => Ok(Some(stand_channel(alloc, hasher, number, exports)?)),
        None => Ok(None),
    }
}

fn stand_channel<'p, J: Judge + Drop>(
    alloc: Global,
    hasher: RandomState,
    number: u32,
    exports: &'p ExportParts<J>,
) -> Result<StandingChannel<Lent<'p, J>>, OutOfMemory>
    ensures { IfOk result (IsFirstChannel J.verdict number exports.now) }
{
    let spec = copy_exports(alloc, &exports.spec)?;
    let exporter = Exporter::make(alloc, hasher, spec, Lent::of(&exports.judge));
    Ok(StandingChannel { number, exporter })
}

/// A copy of what holds for all its routes.
fn copy_imports(alloc: Global, spec: &ImportSpec) -> Result<ImportSpec, OutOfMemory>
    ensures { IfOk result (λ copy. copy ≡ spec.now) }
{
    let fixed = Vec::from_slice(alloc, spec.fixed.as_slice())?;
    Ok(ImportSpec {
        src: spec.src,
        kind: spec.kind,
        sender: spec.sender,
        ebgp: spec.ebgp,
        pref: spec.pref,
        limit: spec.limit,
        fixed: Seq::from_vec(fixed),
    })
}
