//! Sets of pairs of numbers of 16 bits, as communities are.
ghost use Rattle.std.specs.Prelude.{◌≡◌, ◌↔◌, IfOk, IsTrue, Any};
ghost use Rattle.filt_sets.specs.Sets.{TakesPair};

use crate::IntItem;
use bits_ip::OutOfMemory;
use std::alloc::Global;
use std::marker::Model;

/// A range for each part of a pair, written `(a..b, c..d)`. `*` is the range of all numbers.
#[derive(Clone, Copy, Debug, PartialEq, Eq)]
pub struct PairItem {
    pub a: IntItem,
    pub b: IntItem,
}

impl PairItem {
    fn takes(&self, a: u16, b: u16) -> bool
        ensures { IsTrue result ↔ TakesPair self.now a b }
    {
        self.a.takes(u32::from(a)) && self.b.takes(u32::from(b))
    }
}

/// A set of pairs, as communities are (BIRD User's Guide, "Data types", `pair set`).
#[derive(Debug, Drop)]
pub struct PairSet {
    items: Vec<PairItem>,
}

impl Model for PairSet {
    ghost use Rattle.std.specs.Prelude.{List};
    ghost use Rattle.filt_sets.specs.declared.pairs.PairItem.{PairItem};

    ghost Value = { List PairItem };

    ghost view = { λ set. set.items.items };
}

impl PairSet {
    /// The set of these items. Takes no memory.
    pub fn make(items: Vec<PairItem>) -> PairSet
        ensures { result ≡ items.items }
    {
        PairSet { items }
    }

    /// The same set once more.
    pub fn copy(&self, alloc: Global) -> Result<PairSet, OutOfMemory>
        ensures { IfOk result (λ set. set ≡ self.now) }
    {
        Ok(PairSet {
            items: Vec::from_slice(alloc, &self.items)?,
        })
    }

    /// Whether some item has each part in its range.
    pub fn has(&self, a: u16, b: u16) -> bool
        ensures { IsTrue result ↔ Any (λ item. TakesPair item a b) self.now }
    {
        self.items.iter().any(|item| item.takes(a, b))
    }
}
