//! The end of a table's phase.
ghost use Rattle.std.specs.Prelude.{◌≡◌, ◌≤◌};
ghost use Rattle.std.specs.List.{AllByRecursion};
ghost use Rattle.jour_rule.specs.Moves.{position_of};
ghost use Rattle.jour.specs.Seats.{front, head_of, journal};
ghost use Rattle.table_shared.specs.Kept.{IsKept};
ghost use Rattle.table_shared.specs.Phases.{IsHeard, IsPhase, IsRetired};
ghost use Rattle.table_shared.specs.Views.{IsTold};

use crate::desk::Desk;
use crate::law::{TableCursor, TablePass};
use crate::port::Port;
use attrs::{JEntry, Seq};
use rib::Rib;
use std::marker::Model;

/// What a phase of a table has made.
#[derive(Drop)]
pub struct Phase {
    /// The position before the first entry.
    pub from: u64,
    /// The changes in their order, each with the best route of its net behind it.
    pub entries: Seq<JEntry>,
    /// For each entry the number of its port.
    pub ports: Seq<u32>,
    /// The rows that the entries leave.
    pub rib: Rib,
}

/// A table that nobody else uses any more, so that nothing joins its journal. What its ports,
/// passes and cursors know is joined here to the one list of entries.
#[derive(Drop)]
pub struct Closing {
    desk: Desk,
}

impl Model for Closing {
    ghost use Rattle.atomic_table.specs.Seated.{TableId};
    ghost use Rattle.jour_rule.specs.declared.views.View.{View as Seat};
    ghost use Rattle.jour.specs.Seats.{journal};
    ghost use Rattle.table_shared.specs.Kept.{IsKept};
    ghost use Rattle.table_shared.specs.Opening.{TableOpening};

    ghost Value = { TableId × Seat TableOpening };

    ghost view = { λ closing. closing.desk.writer };

    ghost invariant = { λ closing. IsKept (journal closing.desk.writer) closing.desk };
}

impl Closing {
    pub(crate) fn of(desk: Desk) -> Closing
        requires { IsKept (journal desk.writer) desk }
        ensures { result ≡ desk.writer }
    {
        Closing { desk }
    }

    /// Ends a port: the entries of its number are its receipts. What it has seen begins the list of
    /// entries, and the head that it knows is at most the list's.
    pub fn retire(&mut self, port: Port)
        requires { journal port ≡ journal self.old }
        ensures same { (journal self.new ≡ journal self.old)
            × (front self.new.1 ≡ front self.old.1) }
        ensures retired { IsRetired self.old.1.seen.terms (front self.old.1) port }
    {
        self.desk.writer.retire(port.maker);
    }

    /// What the pass has seen begins the list of entries, and the head that it knows is at most the
    /// list's.
    pub fn hear_pass(&mut self, pass: &mut TablePass)
        requires { journal pass.old ≡ journal self.old }
        ensures same { (journal self.new ≡ journal self.old)
            × (front self.new.1 ≡ front self.old.1)
            × (pass.new ≡ pass.old) }
        ensures heard { IsHeard self.old.1.seen.terms (front self.old.1) pass.old.1 }
    {
        self.desk.writer.hear_pass(pass);
    }

    /// What the cursor has seen begins the list of entries, and the head that it knows is at most
    /// the list's.
    pub fn hear_cursor(&mut self, cursor: &mut TableCursor)
        requires { journal cursor.old.0 ≡ journal self.old }
        ensures same { (journal self.new ≡ journal self.old)
            × (front self.new.1 ≡ front self.old.1)
            × (cursor.new ≡ cursor.old) }
        ensures heard { IsHeard self.old.1.seen.terms (front self.old.1) cursor.old.0.1 }
    {
        self.desk.writer.hear_cursor(cursor);
    }

    /// The cursor has then seen the whole list of entries and knows its end, and stays where it is.
    /// What it had seen begins the list, and the head that it knew is at most the list's.
    pub fn tell_cursor(&mut self, cursor: &mut TableCursor)
        requires { journal cursor.old.0 ≡ journal self.old }
        ensures same { (journal self.new ≡ journal self.old)
            × (front self.new.1 ≡ front self.old.1) }
        ensures cursor { (journal cursor.new.0 ≡ journal cursor.old.0)
            × (cursor.new.0.1.role ≡ cursor.old.0.1.role)
            × (cursor.new.1 ≡ cursor.old.1) }
        ensures seen { front cursor.new.0.1 ≡ front self.old.1 }
        ensures told { IsTold (head_of self.old.1) cursor.old.0.1 cursor.new.0.1 }
        ensures heard { IsHeard self.old.1.seen.terms (front self.old.1) cursor.old.0.1 }
        ensures behind { position_of cursor.old.0.1.role ≤ head_of self.old.1 }
    {
        self.desk.writer.tell_cursor(cursor);
    }

    /// What the phase has made.
    pub fn phase(self) -> Phase
        ensures { IsPhase self.1.seen.terms (front self.1) result }
    {
        let Closing { desk } = self;
        let Desk {
            writer: _,
            rib,
            start,
            records,
            ports,
        } = desk;
        Phase {
            from: start,
            entries: Seq::from_vec(records),
            ports: Seq::from_vec(ports),
            rib,
        }
    }
}

/// Ends each of the ports.
pub(crate) fn retire_all(closing: &mut Closing, ports: Vec<Port>)
    requires here { AllByRecursion (λ port. journal port ≡ journal closing.old) ports.items }
    ensures same { (journal closing.new ≡ journal closing.old)
        × (front closing.new.1 ≡ front closing.old.1) }
    ensures retired { AllByRecursion
        (IsRetired closing.old.1.seen.terms (front closing.old.1))
        ports.items }
{
    for port in ports {
        closing.retire(port);
    }
}

/// What each of the passes has seen begins the list of entries.
pub(crate) fn hear_passes(closing: &mut Closing, passes: Vec<TablePass>)
    requires here { AllByRecursion (λ pass. journal pass ≡ journal closing.old) passes.items }
    ensures same { (journal closing.new ≡ journal closing.old)
        × (front closing.new.1 ≡ front closing.old.1) }
    ensures heard { AllByRecursion
        (λ pass. IsHeard closing.old.1.seen.terms (front closing.old.1) pass.1)
        passes.items }
{
    for mut pass in passes {
        closing.hear_pass(&mut pass);
    }
}

/// What each of the cursors has seen begins the list of entries.
pub(crate) fn hear_cursors(closing: &mut Closing, cursors: Vec<TableCursor>)
    requires here { AllByRecursion
        (λ cursor. journal cursor.0 ≡ journal closing.old)
        cursors.items }
    ensures same { (journal closing.new ≡ journal closing.old)
        × (front closing.new.1 ≡ front closing.old.1) }
    ensures heard { AllByRecursion
        (λ cursor. IsHeard closing.old.1.seen.terms (front closing.old.1) cursor.0.1)
        cursors.items }
{
    for mut cursor in cursors {
        closing.hear_cursor(&mut cursor);
    }
}
