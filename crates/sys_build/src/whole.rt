//! The core of a configuration, and the parts of which it is made.
ghost use Rattle.std.specs.Prelude.{◌≡◌, ◌<◌, ◌^◌, ℕ, [], All, List, IfOk, length, map};
ghost use Rattle.core_setup.specs.Setup.{IsSetup};
ghost use Rattle.show_route.specs.declared.query.Query.{Query as HeldQuery};
ghost use Rattle.sys_run.specs.Parts.{setup_seen};
ghost use Rattle.sys_run.specs.Playing.{HasPlayed};
ghost use Rattle.sys_build.specs.Setups.{IsPlayable, setup_of};
ghost use Rattle.conf_system.specs.Coded.{HasCode, CanRunOver};
ghost use Rattle.conf_system.specs.Seen.{filter_says, system_of};

use crate::choices::choices;
use crate::protocols::protocols;
use crate::tables::tables;
use attrs::Judge;
use bits_ip::OutOfMemory;
use conf_system::laws::configurations_have_few_protocols;
use conf_system::{Code, Passes, System};
use filt_meaning::TFilter;
use show_route::Query;
use std::alloc::Global;
use std::hash::RandomState;
use sys_run::{Core, ProtocolParts, TableParts};

/// What is played of an accepted configuration and of the conditions of a script.
#[derive(Drop)]
pub struct OwnedParts<'a> {
    pub tables: Vec<TableParts>,
    pub protocols: Vec<ProtocolParts<Passes<'a>>>,
    /// The filters by which queries choose routes, by number.
    pub choices: Vec<Passes<'a>>,
}

/// The parts of an accepted configuration and of these conditions, over the configuration's code.
/// The conditions and the policies' own filters are compiled.
pub fn parts<'a>(
    alloc: Global,
    system: &'a System,
    code: &'a Code<'a>,
    conditions: &'a [TFilter],
) -> Result<OwnedParts<'a>, OutOfMemory>
    requires playable { IsPlayable (system_of system.now) }
    requires code { HasCode system.now code.now }
    requires before { All (CanRunOver system.now) conditions.now }
    ensures setup { IfOk result (λ parts. (cells : ℕ) (queries : List HeldQuery)
        → setup_seen (⟦<Passes<'a> as Judge>⟧.verdict) parts.tables.items parts.protocols.items
        cells parts.choices.items queries
        ≡ setup_of (system_of system.now) cells
        (map (filter_says system.now) conditions.now) queries) }
    ensures few { IfOk result (λ parts. length parts.protocols.items < 2 ^ 32) }
{
    configurations_have_few_protocols();
    Ok(OwnedParts {
        tables: tables(alloc, system)?,
        protocols: protocols(alloc, system, code)?,
        choices: choices(alloc, system, code, conditions)?,
    })
}

/// The core of an accepted configuration, which has played nothing, for a script of these
/// conditions and queries, over the configuration's code. The journal of each table holds so many
/// changes. The conditions and the policies' own filters are compiled. Keys that others choose are
/// hashed by the hasher, on which nothing that is printed depends.
///
/// `OutOfMemory` comes where memory is refused.
pub fn build<'a>(
    alloc: Global,
    hasher: RandomState,
    system: &'a System,
    code: &'a Code<'a>,
    conditions: &'a [TFilter],
    queries: Vec<Query>,
    cells: u32,
) -> Result<Core<Passes<'a>>, OutOfMemory>
    requires playable { IsPlayable (system_of system.now) }
    requires code { HasCode system.now code.now }
    requires before { All (CanRunOver system.now) conditions.now }
    requires setup { IsSetup (setup_of (system_of system.now) cells
        (map (filter_says system.now) conditions.now) queries.items) }
    ensures { IfOk result (λ core. (actors : List (List ℕ))
        → HasPlayed (⟦<Passes<'a> as Judge>⟧.verdict)
        (setup_of (system_of system.now) cells
        (map (filter_says system.now) conditions.now) queries.items)
        actors [] [] core) }
{
    let OwnedParts {
        tables,
        protocols,
        choices,
    } = parts(alloc, system, code, conditions)?;
    Core::make(alloc, hasher, cells, tables, protocols, choices, queries)
}
