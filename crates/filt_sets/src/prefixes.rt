//! Sets of prefixes: nets, each with the lengths that count.
ghost use Rattle.std.specs.Prelude.{◌≡◌, ◌↔◌, IsTrue, IfOk, All, Any};
ghost use Rattle.std.specs.List.Sorted.{IsPermutation, IsSortedBy};
ghost use Rattle.bits_ip.specs.Prefix.{precedes};
ghost use Rattle.filt_sets.specs.Search.{AreExact, AreInOrder, IsExact, IsNet, IsSearchOf};
ghost use Rattle.filt_sets.specs.Search.{Reaches, TakesLength};
ghost use Rattle.filt_sets.specs.Sets.{TakesNet};

use crate::covering::{has_covered, has_covering};
use crate::written::Written;
use bits_ip::{OutOfMemory, Prefix};
use std::alloc::Global;
use std::marker::Model;

/// A pattern of prefixes, with the lengths that it takes: `a/l` takes `l` alone, `a/l+` from `l` to
/// the family's greatest, `a/l-` from 0 to `l`, `a/l{lo,hi}` from `lo` to `hi`.
#[derive(Clone, Copy, Debug, PartialEq, Eq)]
pub struct PrefixItem {
    pub net: Prefix,
    pub lo: u8,
    pub hi: u8,
}

impl PrefixItem {
    /// Of two nets, the bits that both have agree exactly where one covers the other.
    fn takes(&self, net: &Prefix) -> bool
        ensures { IsTrue result ↔ TakesNet self.now net.now }
    {
        self.takes_length(net.len()) && (self.net.covers(net) || net.covers(&self.net))
    }

    /// Whether nets of this length are taken, if any are.
    pub(crate) fn takes_length(&self, len: u8) -> bool
        ensures { IsTrue result ↔ TakesLength self.now len }
    {
        self.lo <= len && len <= self.hi
    }

    /// Whether the item takes its own net alone.
    fn is_exact(&self) -> bool
        ensures { IsTrue result → IsExact self.now }
    {
        // Asked for what the call ensures: the net has no bits behind its length.
        let _addr = self.net.addr();
        self.lo == self.net.len() && self.hi == self.net.len()
    }

    /// The least length that it takes where this is below its own net's, else 255, which is no
    /// net's.
    fn shortest(&self) -> u8
        ensures net { IsNet self.now }
        ensures least { Reaches result self.now }
    {
        // As in `is_exact`.
        let _addr = self.net.addr();
        if self.lo < self.net.len() {
            self.lo
        } else {
            u8::MAX
        }
    }
}

/// How the items are searched, whose nets are in their order.
#[derive(Clone, Copy, Debug)]
enum Search {
    /// Each item takes its own net alone.
    Exact,
    /// No item takes a net shorter than its own and than this length.
    InOrder { shortest: u8 },
}

/// A set of prefixes (BIRD User's Guide, "Data types", `prefix set`).
#[derive(Debug, Drop)]
pub struct PrefixSet {
    items: Vec<PrefixItem>,
    search: Search,
    /// The items as they were given.
    written: Written<Vec<PrefixItem>>,
}

impl Model for PrefixSet {
    ghost use Rattle.std.specs.Prelude.{List};
    ghost use Rattle.filt_sets.specs.declared.prefixes.PrefixItem.{PrefixItem};

    ghost Value = { List PrefixItem };

    ghost use Rattle.filt_sets.specs.Search.{HoldsNets};

    ghost view = { λ set. set.written.value.items };

    ghost invariant = { λ set. HoldsNets set.search set.written.value.items set.items.items };
}

impl PrefixSet {
    /// The set of these items. Where their nets aren't in order, they are put in order. Takes no
    /// memory.
    pub fn make(items: Vec<PrefixItem>) -> PrefixSet
        ensures { result ≡ items.items }
    {
        let written = Written::of(&items);
        let mut items = items;
        put_in_order(&mut items);
        let search = search_of(&items);
        PrefixSet {
            items,
            search,
            written,
        }
    }

    /// The same set once more.
    pub fn copy(&self, alloc: Global) -> Result<PrefixSet, OutOfMemory>
        ensures { IfOk result (λ set. set ≡ self.now) }
    {
        Ok(PrefixSet {
            items: Vec::from_slice(alloc, &self.items)?,
            search: self.search,
            written: self.written.again(),
        })
    }

    /// Whether some item takes the net.
    ///
    /// Binary searches answer: at most one more than the net has bits, and two for the items that
    /// the net covers, which are walked over if the set takes nets so short. Where each item takes
    /// its own net alone, it is one search.
    pub fn has(&self, net: &Prefix) -> bool
        ensures { IsTrue result ↔ Any (λ item. TakesNet item net.now) self.now }
    {
        has_net(self.search, &self.items, net)
    }
}

fn has_net(search: Search, items: &[PrefixItem], net: &Prefix) -> bool
    requires { IsSearchOf search items.now }
    ensures { IsTrue result ↔ Any (λ item. TakesNet item net.now) items.now }
{
    match search {
        Search::Exact => has_exact(items, net),
        Search::InOrder { shortest } => has_in_order(items, shortest, net),
    }
}

fn put_in_order(items: &mut Vec<PrefixItem>)
    ensures permutation { IsPermutation items.old.items items.new.items }
    ensures rising { IsSortedBy (λ a b. precedes a.net b.net) items.new.items }
{
    if !rise(items) {
        sort(items);
    }
}

fn sort(items: &mut Vec<PrefixItem>)
    ensures permutation { IsPermutation items.old.items items.new.items }
    ensures rising { IsSortedBy (λ a b. precedes a.net b.net) items.new.items }
{
    items.sort_unstable_by(|a, b| a.net.cmp(&b.net));
}

fn search_of(items: &[PrefixItem]) -> Search
    requires { IsSortedBy (λ a b. precedes a.net b.net) items.now }
    ensures { IsSearchOf result items.now }
{
    if take_one_each(items) {
        Search::Exact
    } else {
        Search::InOrder {
            shortest: shortest(items),
        }
    }
}

fn take_one_each(items: &[PrefixItem]) -> bool
    ensures { IsTrue result → All IsExact items.now }
{
    items.iter().all(|item| item.is_exact())
}

/// The nets are in their order.
fn rise(items: &[PrefixItem]) -> bool
    ensures { IsTrue result → IsSortedBy (λ a b. precedes a.net b.net) items.now }
{
    items.is_sorted_by(|a, b| !b.net.precedes(&a.net))
}

/// The least length below that of its own net that an item takes.
fn shortest(items: &[PrefixItem]) -> u8
    ensures nets { All IsNet items.now }
    ensures least { All (Reaches result) items.now }
{
    let mut shortest = u8::MAX;
    for item in items {
        shortest = shortest.min(item.shortest());
    }
    shortest
}

fn has_exact(items: &[PrefixItem], net: &Prefix) -> bool
    requires { AreExact items.now }
    ensures { IsTrue result ↔ Any (λ item. TakesNet item net.now) items.now }
{
    // As in `is_exact`.
    let _addr = net.addr();
    items.binary_search_by(|item| item.net.cmp(net)).is_ok()
}

fn has_in_order(items: &[PrefixItem], shortest: u8, net: &Prefix) -> bool
    requires { AreInOrder shortest items.now }
    ensures { IsTrue result ↔ Any (λ item. TakesNet item net.now) items.now }
{
    has_covering(items, net) || (shortest <= net.len() && has_covered(items, net))
}
