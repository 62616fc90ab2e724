//! A table with its journal.
ghost use Rattle.std.specs.Prelude.{◌≡◌, ◌<◌, ◌≤◌, ℕ, [], ◌∷◌, drop, length, List, IfOk, IsSome, OnOk, option_copied, slice_get};
ghost use Rattle.attrs.specs.declared.route.Change.{Change};
ghost use Rattle.bits_ip.specs.declared.address.Family.{Family};
ghost use Rattle.core_machine.specs.Rules.{IsRules, Rules};
ghost use Rattle.attrs.specs.Table.{Shows};
ghost use Rattle.core_machine.specs.Histories.{content_of};
ghost use Rattle.run_tables.specs.Tables.{Admits, IsTable, IsWhole};

use attrs::{Change, Chunk, JEntry, Route, Row, Select, Seq};
use bits_ip::{Family, OutOfMemory};
use rib::Rib;
use std::alloc::Global;

/// A table of routes, and all its changes so far.
#[derive(Debug, Drop)]
pub struct Table {
    family: Family,
    rib: Rib,
    entries: Vec<JEntry>,
}

impl Table {
    /// A table without routes.
    pub fn make(alloc: Global, family: Family) -> Table
        ensures { (rules : Rules) → IsTable rules family [] result }
    {
        Table {
            family,
            rib: Rib::make(alloc, family),
            entries: Vec::new(alloc),
        }
    }

    /// How many changes there were.
    pub fn head(&self) -> u64
        ensures { result ≡ length self.now.entries.items }
    {
        self.entries.len() as u64
    }

    /// The change that a reader at this position reads next.
    pub(crate) fn entry(&self, position: u64) -> Option<&JEntry>
        ensures { option_copied result ≡ slice_get self.now.entries.items position }
    {
        self.entries.get(position as usize)
    }

    /// The changes from a position on.
    pub fn since(&self, position: u64) -> &[JEntry]
        requires { position ≤ length self.now.entries.items }
        ensures { result.now ≡ drop position self.now.entries.items }
    {
        &self.entries[position as usize..]
    }

    /// Changes the table, and goes on with the journal.
    pub(crate) fn append(&mut self, change: Change) -> Result<(), OutOfMemory>
        requires family { self.old.family ≡ self.old.rib.family }
        requires admitted { Admits self.old.family change }
        ensures { OnOk result ((rules : Rules) (family : Family) (history : List Change)
            → IsRules rules → (IsSome change.new → change.num < rules.protocols)
            → IsTable rules family history self.old
            → IsTable rules family (change ∷ history) self.new) }
    {
        self.rib.reserve(&change)?;
        let copy = copy_option(change.new.as_ref())?;
        let Change { net, num, new } = change;
        let _ = self.rib.change(Change {
            net,
            num,
            new: copy,
        });
        let best = self.rib.copy_best(&net)?;
        self.entries.push(JEntry {
            net,
            num,
            new,
            best,
        })?;
        Ok(())
    }

    /// All rows, as a feed at the table's head reads them.
    pub(crate) fn whole(&self) -> Result<Chunk, OutOfMemory>
        ensures { IfOk result (λ chunk. (rules : Rules) (family : Family)
            (history : List Change) → IsTable rules family history self.now
            → IsWhole history chunk) }
    {
        let rows = self.rows()?;
        Ok(Chunk {
            at: self.head(),
            from: None,
            upto: None,
            rows: Seq::from_vec(rows),
            more: false,
        })
    }

    /// The rows, which queries ask for.
    pub fn rib(&self) -> &Rib
        ensures { result.now ≡ self.now.rib }
    {
        &self.rib
    }

    /// All rows.
    pub fn rows(&self) -> Result<Vec<Row>, OutOfMemory>
        ensures { IfOk result (λ rows. (rules : Rules) (family : Family) (history : List Change)
            → IsTable rules family history self.now → Shows rows.items (content_of history)) }
    {
        self.rib.select(&Select::All)
    }
}

fn copy_option(route: Option<&Route>) -> Result<Option<Route>, OutOfMemory>
    ensures { IfOk result (λ copy. copy ≡ option_copied route.entry) }
{
    match route {
        Some(route) => Ok(Some(route.copy()?)),
        None => Ok(None),
    }
}
