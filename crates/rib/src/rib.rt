ghost use Rattle.std.specs.Prelude.{◌≡◌, ◌≢◌, ◌↔◌, ◌<◌, ◌≤◌, ℕ, [], ◌∷◌, Some, None, IfOk, IfSome, IsTrue, IsSome, Ok, OnOk, OnErr, length, option_copied, slice_index_or, take};
ghost use Rattle.bits_ip.specs.Address.{family_of};
ghost use Rattle.bits_ip.specs.Prefix.{Net};
ghost use Rattle.attrs.specs.History.{after};
ghost use Rattle.attrs.specs.declared.route.Row.{Row};
ghost use Rattle.attrs.specs.Select.{rows_from, selected};
ghost use Rattle.attrs.specs.Table.{AreRows, IsBestOf, count_routes, route_in, routes_of};
ghost use Rattle.rib.specs.Rib.{best_of, AreOfFamily};
ghost use Rattle.rib.specs.Outcome.{IfChanged, IfChanges};

use crate::lent::LentRow;
use crate::nets::Nets;
use crate::routes::{copy_option, copy_routes, prospect_of};
use attrs::{Change, Route, Row, Select};
use bits_ip::{Family, OutOfMemory, Prefix};
use std::alloc::Global;
use std::marker::Model;

/// What a change did.
#[derive(Clone, Copy, Debug, PartialEq, Eq)]
pub enum Outcome {
    /// The key's route was the given one already.
    Same,
    /// It wasn't. `moved` tells whether the net's best route is another one now, or none.
    Changed { moved: bool },
}

/// What a change would do.
#[derive(Debug, Drop)]
pub enum Prospect {
    /// The key's route is the given one already.
    Same,
    /// It isn't. `best` would be the best of the change's net.
    Changes { best: Option<Route> },
}

/// The routes of a table, of one family of nets: at most one for a net and a source.
#[derive(Debug, Drop)]
pub struct Rib {
    family: Family,
    alloc: Global,
    nets: Nets,
    total: u64,
    room: Option<(Prefix, u32)>,
}

impl Model for Rib {
    ghost use Rattle.rib.specs.Rib.{Table};
    ghost use Rattle.rib.specs.Entries.{rows_of};
    ghost use Rattle.rib.specs.Inside.{IsRib};

    ghost Value = { Table };

    ghost view = { λ rib. record { family = rib.family; rows = rows_of rib.nets; room = rib.room } };

    ghost invariant = { IsRib };
}

impl Rib {
    /// An empty table.
    pub fn make(alloc: Global, family: Family) -> Rib
        ensures { result ≡ record { family = family; rows = []; room = None } }
    {
        Rib {
            family,
            alloc,
            nets: Nets::new(alloc),
            total: 0,
            room: None,
        }
    }

    /// Makes room for any change of this change's key, until the next change. OutOfMemory comes
    /// where memory is refused, and where one more route couldn't be counted.
    pub fn reserve(&mut self, change: &Change) -> Result<(), OutOfMemory>
        ensures made { OnOk result
            (self.new ≡ record self.old { room = Some (change.now.net, change.now.num) }) }
        ensures refused { OnErr result (self.new ≡ self.old) }
    {
        if self.total == u64::MAX {
            return Err(OutOfMemory);
        }
        self.nets.make_room(self.alloc, &change.net)?;
        self.nets.drop_room(self.room, &change.net);
        self.room = Some((change.net, change.num));
        Ok(())
    }

    /// Puts the change's route in the place of the key's, or takes the key's route away. Takes no
    /// memory.
    pub fn change(&mut self, change: Change) -> Outcome
        requires room { self.old.room ≡ Some (change.net, change.num) }
        requires family { family_of change.net.addr ≡ self.old.family }
        requires source { IfSome change.new (λ route. route.src.num ≡ change.num) }
        ensures routes { (net : Net) (num : ℕ)
            → route_in self.new.rows net num
            ≡ after (route_in self.old.rows) (change ∷ []) net num }
        ensures rows { AreRows self.new.rows }
        ensures family { self.new.family ≡ self.old.family }
        ensures room { self.new.room ≡ None }
        ensures same { (result ≡ Outcome.Same)
            ↔ (route_in self.old.rows change.net change.num ≡ change.new) }
        ensures moved { IfChanged result
            (λ moved. IsTrue moved
            ↔ (best_of change.net self.new.rows ≢ best_of change.net self.old.rows)) }
    {
        self.room = None;
        self.nets.change(&mut self.total, change)
    }

    /// What the change would do, and a copy of the best that its net would then have, by one
    /// look-up. The table stays. Memory is taken for the copy alone.
    pub fn prospect(&self, change: &Change) -> Result<Prospect, OutOfMemory>
        requires { IfSome change.now.new (λ route. route.src.num ≡ change.now.num) }
        ensures same { (result ≡ Ok Prospect.Same)
            ↔ (route_in self.now.rows change.now.net change.now.num ≡ change.now.new) }
        ensures best { IfOk result (IfChanges (IsBestOf
            (after (route_in self.now.rows) (change.now ∷ []))
            change.now.net)) }
    {
        let routes = self.nets.routes(&change.net);
        prospect_of(routes, change.num, change.new.as_ref())
    }

    /// How many nets there are. It goes through all of them.
    pub fn len(&self) -> usize
        ensures { result ≡ length self.now.rows }
    {
        self.nets.len()
    }

    /// The net at this place in the order of nets, and its routes in selection order: the row
    /// itself, where `select` copies. It goes through the nets before it.
    pub fn row(&self, place: usize) -> (&Prefix, &[Route])
        requires { place < length self.now.rows }
        ensures { (default : Row) → slice_index_or self.now.rows place default
            ≡ record { net = result.0.now; routes = result.1.now } }
    {
        self.nets.row(place)
    }

    /// The best of a net's routes, which is the first in selection order.
    pub fn best(&self, net: &Prefix) -> Option<&Route>
        ensures { option_copied result ≡ best_of net.now self.now.rows }
    {
        self.nets.routes(net).first()
    }

    /// Copies of a net's routes, in selection order.
    pub fn copy_routes(&self, net: &Prefix) -> Result<Vec<Route>, OutOfMemory>
        ensures { IfOk result (λ routes. routes.items ≡ routes_of net.now self.now.rows) }
    {
        copy_routes(self.alloc, self.nets.routes(net))
    }

    /// A copy of the best of a net's routes.
    pub fn copy_best(&self, net: &Prefix) -> Result<Option<Route>, OutOfMemory>
        ensures { IfOk result (λ best. best ≡ best_of net.now self.now.rows) }
    {
        copy_option(self.best(net))
    }

    /// Copies of the rows that are asked for, in the order of nets. One net costs a look-up, the
    /// longest that covers a prefix one for each length, and what a prefix covers no more than
    /// what there is of it.
    pub fn select(&self, pick: &Select) -> Result<Vec<Row>, OutOfMemory>
        ensures rows { IfOk result (λ rows. rows.items ≡ selected pick.now self.now.rows) }
        ensures are_rows { AreRows self.now.rows }
        ensures family { AreOfFamily self.now.family self.now.rows }
    {
        self.nets.copy(self.alloc, pick)
    }

    /// The rows that `select` copies, as they stand. Memory is taken for the list of them alone.
    pub fn lend(&self, pick: &Select) -> Result<Vec<LentRow<'_>>, OutOfMemory>
        ensures rows { IfOk result (λ rows. rows.items ≡ selected pick.now self.now.rows) }
        ensures are_rows { AreRows self.now.rows }
        ensures family { AreOfFamily self.now.family self.now.rows }
    {
        self.nets.lend(self.alloc, pick)
    }

    /// Copies of the first rows from a net on, itself included, or from the first net; at most so
    /// many.
    pub fn next_nets(&self, from: Option<&Prefix>, max: u32) -> Result<Vec<Row>, OutOfMemory>
        requires { 1 ≤ max }
        ensures rows { IfOk result (λ rows. rows.items
            ≡ take max (rows_from (option_copied from.entry) self.now.rows)) }
        ensures are_rows { AreRows self.now.rows }
        ensures family { AreOfFamily self.now.family self.now.rows }
    {
        self.nets.copy_next(self.alloc, from, max as usize)
    }

    /// The rows themselves, in the order of nets. No route is copied: memory is taken for the list
    /// of rows alone.
    pub fn into_rows(self) -> Result<Vec<Row>, OutOfMemory>
        ensures rows { IfOk result (λ rows. rows.items ≡ self.rows) }
        ensures are_rows { AreRows self.rows }
        ensures family { AreOfFamily self.family self.rows }
    {
        let Rib { alloc, nets, .. } = self;
        nets.into_rows(alloc)
    }

    /// How many routes there are.
    pub fn total(&self) -> u64
        ensures count { result ≡ count_routes self.now.rows }
        ensures are_rows { AreRows self.now.rows }
        ensures family { AreOfFamily self.now.family self.now.rows }
    {
        self.total
    }
}
