//! Sets of numbers: ranges, of which some holds the number.
ghost use Rattle.std.specs.Prelude.{◌≡◌, ◌↔◌, ◌<◌, ◌≤◌, IfOk, IsTrue, All, Any, length};
ghost use Rattle.std.specs.List.{AllAdjacentBelow};
ghost use Rattle.std.specs.List.Sorted.{IsPermutation};
ghost use Rattle.filt_sets.specs.Search.{AreApart, side_of};
ghost use Rattle.filt_sets.specs.Sets.{TakesInt};

use crate::written::Written;
use bits_ip::OutOfMemory;
use std::alloc::Global;
use std::cmp::Ordering;
use std::marker::Model;

/// A range of numbers, written `lo..hi`. Its ends belong to it; a number alone is both.
#[derive(Clone, Copy, Debug, PartialEq, Eq)]
pub struct IntItem {
    pub lo: u32,
    pub hi: u32,
}

impl IntItem {
    /// Whether the number is in the range.
    pub(crate) fn takes(&self, number: u32) -> bool
        ensures { IsTrue result ↔ TakesInt self.now number }
    {
        self.lo <= number && number <= self.hi
    }

    /// Where the range lies, seen from the number: before it, around it or behind it.
    fn side_of(&self, number: u32) -> Ordering
        ensures { result ≡ side_of number self.now }
    {
        if self.hi < number {
            Ordering::Less
        } else if number < self.lo {
            Ordering::Greater
        } else {
            Ordering::Equal
        }
    }
}

/// A set of numbers (BIRD User's Guide, "Data types", `int set`).
#[derive(Debug, Drop)]
pub struct IntSet {
    items: Vec<IntItem>,
    /// Set only where the items are in rising order and apart.
    are_apart: bool,
    /// The items as they were given.
    written: Written<Vec<IntItem>>,
}

impl Model for IntSet {
    ghost use Rattle.std.specs.Prelude.{List};
    ghost use Rattle.filt_sets.specs.declared.ints.IntItem.{IntItem};

    ghost Value = { List IntItem };

    ghost use Rattle.filt_sets.specs.Search.{HoldsInts};

    ghost view = { λ set. set.written.value.items };

    ghost invariant = { λ set. HoldsInts set.are_apart set.written.value.items set.items.items };
}

impl IntSet {
    /// The set of these items. Where they aren't apart and in rising order, they are put in the
    /// order of their first numbers. Takes no memory.
    pub fn make(items: Vec<IntItem>) -> IntSet
        ensures { result ≡ items.items }
    {
        let written = Written::of(&items);
        let mut items = items;
        let are_apart = put_in_order(&mut items);
        IntSet {
            items,
            are_apart,
            written,
        }
    }

    /// The same set once more.
    pub fn copy(&self, alloc: Global) -> Result<IntSet, OutOfMemory>
        ensures { IfOk result (λ set. set ≡ self.now) }
    {
        Ok(IntSet {
            items: Vec::from_slice(alloc, &self.items)?,
            are_apart: self.are_apart,
            written: self.written.again(),
        })
    }

    /// Whether some item has the number in its range. A binary search answers where the ranges are
    /// apart, else a walk over the items.
    pub fn has(&self, number: u32) -> bool
        ensures { IsTrue result ↔ Any (λ item. TakesInt item number) self.now }
    {
        has_int(self.are_apart, &self.items, number)
    }
}

fn has_int(are_apart: bool, items: &[IntItem], number: u32) -> bool
    requires { IsTrue are_apart → AreApart items.now }
    ensures { IsTrue result ↔ Any (λ item. TakesInt item number) items.now }
{
    if are_apart {
        has_in_order(items, number)
    } else {
        items.iter().any(|item| item.takes(number))
    }
}

/// Whether they are in rising order and apart in the end.
fn put_in_order(items: &mut Vec<IntItem>) -> bool
    ensures permutation { IsPermutation items.old.items items.new.items }
    ensures apart { IsTrue result → AreApart items.new.items }
{
    if are_apart(items) {
        true
    } else {
        sort(items);
        are_apart(items)
    }
}

fn sort(items: &mut Vec<IntItem>)
    ensures { IsPermutation items.old.items items.new.items }
{
    items.sort_unstable_by(|a, b| a.lo.cmp(&b.lo));
}

fn are_apart(items: &[IntItem]) -> bool
    ensures { IsTrue result → AreApart items.now }
{
    are_filled(items) && rise(items)
}

/// Each range has a number.
fn are_filled(items: &[IntItem]) -> bool
    ensures { IsTrue result → All (λ item. item.lo ≤ item.hi) items.now }
{
    items.iter().all(|item| item.lo <= item.hi)
}

/// Each range ends before the next one.
fn rise(items: &[IntItem]) -> bool
    ensures { IsTrue result → AllAdjacentBelow (λ a b. a.hi < b.lo) items.now (length items.now) }
{
    items.is_sorted_by(|a, b| a.hi < b.lo)
}

fn has_in_order(items: &[IntItem], number: u32) -> bool
    requires { AreApart items.now }
    ensures { IsTrue result ↔ Any (λ item. TakesInt item number) items.now }
{
    items.binary_search_by(|item| item.side_of(number)).is_ok()
}
