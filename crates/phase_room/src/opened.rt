//! What tables give as a phase begins.
ghost use Rattle.std.specs.Prelude.{◌≡◌, ◌++◌, ◌∷◌, ℕ, [], Some, length, slice_get, IfOk, OnOk};
ghost use Rattle.jour.specs.Seats.{AreCursors, AreMakers, AreUnread, journal};
ghost use Rattle.phase_legal.specs.Shown.{PassView};
ghost use Rattle.phase_room.specs.Opened.{AreOpened};

use crate::deals::{no_lists, push_each};
use bits_ip::OutOfMemory;
use std::alloc::Global;
use table_shared::{Port, Table, TableCursor, TablePass};

/// Tables, and of each of them a port by protocol, a cursor by channel, and a pass by actor.
#[derive(Drop)]
pub struct Opened {
    pub tables: Vec<Table>,
    pub ports: Vec<Vec<Port>>,
    pub cursors: Vec<Vec<TableCursor>>,
    pub passes: Vec<Vec<TablePass>>,
}

impl Opened {
    /// What no table gives, to so many protocols, channels and actors.
    pub fn none(
        alloc: Global,
        protocols: usize,
        channels: usize,
        actors: usize,
    ) -> Result<Opened, OutOfMemory>
        ensures opened { IfOk result AreOpened }
        ensures tables { IfOk result (λ opened. opened.tables.items ≡ []) }
        ensures counts { IfOk result (λ opened. (length opened.ports.items ≡ protocols)
            × (length opened.cursors.items ≡ channels)
            × (length opened.passes.items ≡ actors)) }
    {
        let ports = no_lists(alloc, protocols)?;
        let cursors = no_lists(alloc, channels)?;
        let passes = no_lists(alloc, actors)?;
        Ok(Opened {
            tables: Vec::new(alloc),
            ports,
            cursors,
            passes,
        })
    }

    /// One table more, with a port for each protocol, a cursor for each channel, and a pass for
    /// each actor. Where it refuses, for want of memory, nothing is said of what there is then.
    pub fn add(
        &mut self,
        table: Table,
        ports: Vec<Port>,
        cursors: Vec<TableCursor>,
        passes: Vec<TablePass>,
    ) -> Result<(), OutOfMemory>
        requires opened { AreOpened self.old }
        requires counts { (length ports.items ≡ length self.old.ports.items)
            × (length cursors.items ≡ length self.old.cursors.items)
            × (length passes.items ≡ length self.old.passes.items) }
        requires ports { AreMakers table ports.items }
        requires cursors { AreCursors table table.1.start cursors.items × AreUnread cursors.items }
        requires passes { (actor : ℕ) (pass : PassView)
            → slice_get passes.items actor ≡ Some pass → journal pass ≡ table }
        ensures opened { OnOk result (AreOpened self.new) }
        ensures tables { OnOk result
            (self.new.tables.items ≡ self.old.tables.items ++ table ∷ []) }
        ensures counts { OnOk result
            ((length self.new.ports.items ≡ length self.old.ports.items)
            × (length self.new.cursors.items ≡ length self.old.cursors.items)
            × (length self.new.passes.items ≡ length self.old.passes.items)) }
    {
        push_each(&mut self.ports, ports)?;
        push_each(&mut self.cursors, cursors)?;
        push_each(&mut self.passes, passes)?;
        self.tables.push(table)?;
        Ok(())
    }
}
