//! What stands first of a pipe.
ghost use Rattle.std.specs.Prelude.{◌≡◌, ◌<◌, ◌^◌, ◌+◌, ℕ, List, IfOk, OnOk, map};
ghost use Rattle.room_first.specs.Inside.{IsFirstDirection, IsFirstPipe};
ghost use Rattle.sys_run.specs.Made.{Left};
ghost use Rattle.sys_run.specs.Parts.{table_seen};

use attrs::Judge;
use bits_ip::OutOfMemory;
use export_core::{ExportSpec, Exporter};
use phase_answers::Lent;
use phase_open::StandingChannel;
use room_open::StandingPipe;
use std::alloc::Global;
use std::hash::RandomState;
use sys_run::{PipeParts, TableParts, direction_gate, table_family, take_list};

/// The pipe of this number, whose directions have the number `channel` and the next. They take the
/// sources that they pass.
pub(crate) fn stand_pipe<'p, J: Judge + Drop>(
    alloc: Global,
    hasher: RandomState,
    tables: &[TableParts],
    passed: &mut Vec<Vec<u32>>,
    number: u32,
    channel: u32,
    pipe: &'p PipeParts<J>,
) -> Result<StandingPipe<Lent<'p, J>>, OutOfMemory>
    requires next { channel < 2 ^ 31 }
    requires tables { (pipe.now.primary < 2 ^ 32) × (pipe.now.peer < 2 ^ 32) }
    ensures first { IfOk result (λ stood. (lists : ℕ → List ℕ)
        → Left channel passed.old.items lists
        → IsFirstPipe J.verdict (map table_seen tables.now) lists number channel pipe.now stood) }
    ensures left { OnOk result ((lists : ℕ → List ℕ) → Left channel passed.old.items lists
        → Left (channel + 2) passed.new.items lists) }
{
    let there = direction_gate(
        table_family(tables, pipe.primary),
        number,
        take_list(alloc, passed, channel as usize),
    );
    let here = direction_gate(
        table_family(tables, pipe.peer),
        number,
        take_list(alloc, passed, channel as usize + 1),
    );
    let out = stand_direction(alloc, hasher, channel, there, &pipe.export)?;
    let back = stand_direction(alloc, hasher, channel + 1, here, &pipe.import)?;
    Ok(StandingPipe {
        primary: pipe.primary as u32,
        peer: pipe.peer as u32,
        up: true,
        out,
        back,
    })
}

/// A direction, which comes up at 0.
fn stand_direction<'p, J: Judge + Drop>(
    alloc: Global,
    hasher: RandomState,
    number: u32,
    gate: ExportSpec,
    filter: &'p J,
) -> Result<StandingChannel<Lent<'p, J>>, OutOfMemory>
    ensures { IfOk result (IsFirstDirection J.verdict number gate filter.now) }
{
    let mut exporter = Exporter::make(alloc, hasher, gate, Lent::of(filter));
    exporter.up(0)?;
    Ok(StandingChannel { number, exporter })
}
