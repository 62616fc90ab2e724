//! What lies under a table's lock.
ghost use Rattle.std.specs.Prelude.{◌≡◌, [], ◌∷◌, IfOk, OnOk, option_copied};
ghost use Rattle.attrs.specs.History.{after};
ghost use Rattle.attrs.specs.Table.{IsBestOf, route_in};
ghost use Rattle.table_shared.specs.Answers.{with_best};
ghost use Rattle.table_shared.specs.Prepared.{AreCopies, HasMemory, IsSameBut};

use crate::law::TableWriter;
use attrs::{Change, JEntry, Route};
use bits_ip::OutOfMemory;
use rib::Rib;

/// A table's writer, its rows, and what the phase has made: the records of its entries, each with
/// the number of its port.
#[derive(Drop)]
pub(crate) struct Desk {
    pub(crate) writer: TableWriter,
    pub(crate) rib: Rib,
    /// The position at which the phase began.
    pub(crate) start: u64,
    pub(crate) records: Vec<JEntry>,
    pub(crate) ports: Vec<u32>,
}

/// A change and its record, with memory for both.
#[derive(Drop)]
pub(crate) struct Prepared {
    pub(crate) said: JEntry,
    pub(crate) change: Change,
}

impl Desk {
    /// Takes all memory that the change may want. `best` is the best of its net behind it.
    pub(crate) fn prepare(
        &mut self,
        change: &Change,
        best: Option<Route>,
    ) -> Result<Prepared, OutOfMemory>
        requires { IsBestOf
            (after (route_in self.old.rib.rows) (change.now ∷ []))
            change.now.net
            best }
        ensures same { IsSameBut self.old self.new }
        ensures copies { IfOk result (AreCopies self.new.rib.rows change.now) }
        ensures memory { IfOk result (λ _. HasMemory self.new change.now) }
    {
        self.take_memory(change)?;
        copies(change, best)
    }

    fn take_memory(&mut self, change: &Change) -> Result<(), OutOfMemory>
        ensures same { IsSameBut self.old self.new }
        ensures memory { OnOk result (HasMemory self.new change.now) }
    {
        self.records.reserve(1)?;
        self.ports.reserve(1)?;
        self.rib.reserve(change)
    }
}

fn copies(change: &Change, best: Option<Route>) -> Result<Prepared, OutOfMemory>
    ensures copy { IfOk result (λ prepared. prepared.change ≡ change.now) }
    ensures said { IfOk result (λ prepared. prepared.said ≡ with_best best change.now) }
{
    let said = JEntry {
        net: change.net,
        num: change.num,
        new: copy_option(change.new.as_ref())?,
        best,
    };
    let change = copy_change(change)?;
    Ok(Prepared { said, change })
}

fn copy_change(change: &Change) -> Result<Change, OutOfMemory>
    ensures { IfOk result (λ copy. copy ≡ change.now) }
{
    let new = copy_option(change.new.as_ref())?;
    Ok(Change {
        net: change.net,
        num: change.num,
        new,
    })
}

fn copy_option(route: Option<&Route>) -> Result<Option<Route>, OutOfMemory>
    ensures { IfOk result (λ copy. copy ≡ option_copied route.entry) }
{
    match route {
        Some(route) => Ok(Some(route.copy()?)),
        None => Ok(None),
    }
}
