//! Who answers queries of what is played.
ghost use Rattle.std.specs.Prelude.{◌≡◌};
ghost use Rattle.sys_run.specs.Parts.{setup_seen};

use crate::lent::{lend_channel, lend_rows, names_of};
use crate::naming::{channel_named, choice_named, table_named};
use attrs::{Judge, Row};
use bits_ip::OutOfMemory;
use phase_actors::Answers;
use show_route::{Query, answer_query};
use std::alloc::Global;
use sys_run::{ProtocolParts, TableParts};

/// What is played, lent to those who answer queries of it. Threads can share it where they can
/// share a filter.
#[derive(Drop)]
pub struct Answering<'p, J: Judge> {
    alloc: Global,
    tables: &'p [TableParts],
    protocols: &'p [ProtocolParts<J>],
    cells: u32,
    choices: &'p [J],
    queries: &'p [Query],
}

impl<'p, J: Judge> Answering<'p, J> {
    /// Of the parts that make what is played, and which a core is made of too. Takes no memory.
    pub fn of(
        alloc: Global,
        cells: u32,
        tables: &'p [TableParts],
        protocols: &'p [ProtocolParts<J>],
        choices: &'p [J],
        queries: &'p [Query],
    ) -> Answering<'p, J>
        ensures { ⟦<Answering<'p, J> as Answers>⟧.setup result
            ≡ setup_seen J.verdict tables.now protocols.now cells choices.now queries.now }
    {
        Answering {
            alloc,
            tables,
            protocols,
            cells,
            choices,
            queries,
        }
    }
}

impl<J: Judge> Answers for Answering<'_, J> {
    ghost use Rattle.sys_run.specs.Parts.{setup_seen};

    ghost setup = { λ a. setup_seen J.verdict a.tables.now a.protocols.now a.cells a.choices.now
        a.queries.now };

    fn answer(&self, query: &Query, rows: &[Row], total: u64) -> Result<Vec<u8>, OutOfMemory> {
        let table = table_named(self.tables, query.table);
        let choice = choice_named(self.choices, query.choice);
        let names = names_of(self.alloc, self.protocols)?;
        let export = lend_channel(self.alloc, channel_named(self.protocols, query.export))?;
        let lent = lend_rows(self.alloc, rows)?;
        answer_query(
            self.alloc,
            query,
            lent.as_slice(),
            total,
            table,
            &names,
            choice,
            export.as_ref(),
        )
    }
}
