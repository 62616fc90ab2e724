//! The token of one entering channel.
ghost use Rattle.std.specs.Prelude.{◌≡◌, ◌+◌, ◌≤◌, max, IfOk};
ghost use mathlib.Core.List.{IsPrefix};
ghost use Rattle.jour_rule.specs.Moves.{longest};
ghost use Rattle.jour.specs.Seats.{journal, front, head_of, known, heads, last_look, looks_of, number_of, own};
ghost use Rattle.table_shared.specs.Records.{IsLawful};

use crate::law::{TableMaker, TablePass};
use bits_ip::OutOfMemory;
use std::marker::Model;

/// The token of one entering channel: who holds it enters changes of its sources. Contracts see
/// what it has seen of the table's journal, and its receipts: the entries that it made, with their
/// positions.
#[derive(Drop)]
pub struct Port {
    pub(crate) maker: TableMaker,
}

impl Model for Port {
    ghost use Rattle.atomic_table.specs.Seated.{TableId};
    ghost use Rattle.jour_rule.specs.declared.views.View.{View as Seat};
    ghost use Rattle.table_shared.specs.Opening.{TableOpening};

    ghost Value = { TableId × Seat TableOpening };

    ghost view = { λ port. port.maker };
}

impl Port {
    /// Its place among the table's ports, from 0 on.
    pub fn number(&self) -> u32
        ensures { result ≡ number_of self.now.1.role }
    {
        self.maker.number()
    }

    /// The position up to which it has seen the table's journal. What it has seen is lawful, and no
    /// more than the head that it knows.
    pub fn seen(&self) -> u64
        ensures seen { result ≡ head_of self.now.1 }
        ensures above { result ≤ known self.now.1 }
        ensures lawful { IsLawful self.now.1.seen.terms.opening (front self.now.1) }
    {
        self.maker.seen()
    }

    /// A pass that has seen what the port has, each entry that the port made among it.
    pub fn pass(&mut self) -> Result<TablePass, OutOfMemory>
        ensures same { self.new ≡ self.old }
        ensures here { IfOk result (λ pass. journal pass ≡ journal self.old) }
        ensures seen { IfOk result
            (λ pass. (front pass.1 ≡ front self.old.1) × (known pass.1 ≡ known self.old.1)) }
    {
        Ok(self.maker.split()?)
    }

    /// The pass takes in a copy of what the port has seen, each entry that the port made among it,
    /// and loads the head: what either had seen begins what the pass has seen then. It takes no
    /// lock.
    pub fn share(&mut self, pass: &mut TablePass)
        requires { journal pass.old ≡ journal self.old }
        ensures same { (self.new ≡ self.old) × (journal pass.new ≡ journal pass.old) }
        ensures known { known pass.old.1 ≤ known pass.new.1 }
        ensures shared { IsPrefix (front self.old.1) (front pass.new.1) }
        ensures prefix { IsPrefix (front pass.old.1) (front pass.new.1) }
    {
        self.maker.tell(pass);
    }

    /// Takes in a copy of what the pass has seen, and loads the head. What it had seen begins what
    /// it has seen then, so its receipts begin its new ones. Which of the entries that are new to
    /// it are its own isn't told: a call under the table's lock (`Table::start`) keeps its
    /// receipts.
    pub fn meet(&mut self, pass: &mut TablePass)
        requires { journal pass.old ≡ journal self.old }
        ensures pass { pass.new ≡ pass.old }
        ensures here { (journal self.new ≡ journal self.old)
            × (number_of self.new.1.role ≡ number_of self.old.1.role) }
        ensures seen { (front self.new.1 ≡ longest (front self.old.1) (front pass.old.1))
            × (head_of self.new.1 ≡ max (head_of self.old.1) (head_of pass.old.1)) }
        ensures known { (heads self.new.1 ≡ heads self.old.1 + 1)
            × (known self.old.1 ≤ known self.new.1)
            × (known pass.old.1 ≤ known self.new.1) }
        ensures looks { (looks_of self.new.1.role ≡ looks_of self.old.1.role)
            × (last_look self.new.1.role ≡ last_look self.old.1.role) }
        ensures prefix { IsPrefix (front self.old.1) (front self.new.1) }
        ensures receipts { IsPrefix (own self.old.1) (own self.new.1) }
    {
        self.maker.meet(pass);
    }
}
