//! The values that stand as sent: the numbers of the log's items that have them.
ghost use Rattle.std.specs.Prelude.{drop, slice_get, ℕ, ◌≡◌, ◌&&◌, ◌++◌, [], ◌∷◌, None, Some, is_some, map, option_map, IfOk, OnOk, true, option_copied, if◌then◌else◌};
ghost use Rattle.std.specs.List.Sorted.{IsStrictlySortedBy};
ghost use Rattle.std.specs.Map.{keys_of};
ghost use Rattle.std.specs.List.{cons_option};
ghost use Rattle.bits_ip.specs.Prefix.{Net};
ghost use Rattle.export_core.specs.declared.log.Key.{Key};
ghost use Rattle.export_core.specs.Keys.{key_cmp, same_key};
ghost use Rattle.export_core.specs.Candidates.{AddsNone, covers, is_from};
ghost use Rattle.export_core.specs.Marks.{HasPlace, entries_by};
ghost use Rattle.export_core.specs.Standing.{held_keys, index_at, is_led, value_at, value_in};

use crate::candidates::{add_none, bounds_of};
use crate::floors::Floor;
use crate::log::{Key, LogItem};
use attrs::{Attrs, Route, Shared};
use bits_ip::OutOfMemory;
use std::alloc::Global;
use std::collections::BTreeMap;
use std::marker::Model;

/// Numbers of items by key. A key may have a place alone.
#[derive(Debug, Drop)]
pub(crate) struct Standing {
    places: BTreeMap<Key, Option<usize>>,
}

impl Model for Standing {
    ghost use Rattle.std.specs.Prelude.{List, Option, ℕ};
    ghost use Rattle.export_core.specs.declared.log.Key.{Key};

    ghost Value = { List (Key × Option ℕ) };

    ghost view = { λ s. s.places.entries };
}

impl Standing {
    pub(crate) fn new(alloc: Global) -> Standing
        ensures { result ≡ [] }
    {
        Standing {
            places: BTreeMap::new(alloc),
        }
    }

    /// The number of the item that has the key's value.
    fn index(&self, key: &Key) -> Option<usize>
        ensures { result ≡ index_at key.now self.now }
    {
        match self.places.get(key) {
            Some(number) => *number,
            None => None,
        }
    }

    /// The key's value in the log.
    pub(crate) fn value<'a>(&self, log: &'a [LogItem], key: &Key) -> Option<&'a Shared<Attrs>>
        ensures { option_copied result ≡ value_at log.now (index_at key.now self.now) }
    {
        let number = self.index(key)?;
        match log.get(number) {
            Some(LogItem::Sent(sending)) => sending.value.as_ref(),
            _ => None,
        }
    }

    /// Puts the key's value, where it has one, behind the others.
    fn push_value(
        &self,
        log: &[LogItem],
        key: &Key,
        values: &mut Vec<(Key, Shared<Attrs>)>,
    ) -> Result<(), OutOfMemory>
        ensures { OnOk result (values.new.items ≡ values.old.items
            ++ cons_option (option_map (λ v. (key.now, v))
            (value_at log.now (index_at key.now self.now))) []) }
    {
        if let Some(value) = self.value(log, key) {
            values.push((*key, value.share()?))?;
        }
        Ok(())
    }

    /// The values, in the order of keys.
    pub(crate) fn values(
        &self,
        alloc: Global,
        log: &[LogItem],
    ) -> Result<Vec<(Key, Shared<Attrs>)>, OutOfMemory>
        ensures values { IfOk result (λ values. values.items
            ≡ entries_by (λ k. value_at log.now (index_at k self.now)) (keys_of self.now)) }
        ensures ascend { IsStrictlySortedBy key_cmp (keys_of self.now) }
    {
        let mut values = Vec::new(alloc);
        for key in self.places.keys() {
            self.push_value(log, key, &mut values)?;
        }
        Ok(values)
    }

    /// Makes a place for a value of the key, which changes no value.
    pub(crate) fn make_place(&mut self, key: &Key) -> Result<(), OutOfMemory>
        ensures same { (k : Key) → index_at k self.new ≡ index_at k self.old }
        ensures held { held_keys self.new ≡ held_keys self.old }
        ensures place { OnOk result (HasPlace key.now self.new) }
    {
        if !self.places.contains_key(key) {
            self.places.insert(*key, None)?;
        }
        Ok(())
    }

    /// The key's value is that of the item with this number, and none where it was withdrawn. Takes
    /// no memory.
    pub(crate) fn set(&mut self, key: Key, number: Option<usize>)
        requires { HasPlace key self.old }
        ensures { (k : Key) → index_at k self.new
            ≡ (if same_key key k then number else index_at k self.old) }
    {
        match number {
            Some(_) => match self.places.insert(key, number) {
                Ok(_) => {}
                Err(_) => unreachable!(),
            },
            None => {
                self.places.remove(&key);
            }
        }
    }

    /// Adds the key, where it stands as sent, with no candidate.
    fn add_one(
        &self,
        candidates: &mut BTreeMap<Key, Option<Route>>,
        key: &Key,
    ) -> Result<(), OutOfMemory>
        ensures { OnOk result
            (AddsNone (λ q. is_some (index_at key.now self.now) && same_key key.now q)
            candidates.old.entries candidates.new.entries) }
    {
        let stands = self.index(key).is_some();
        add_none(candidates, key, stands)
    }

    /// Adds the keys in the range that stand as sent, with no candidate.
    pub(crate) fn add_to(
        &self,
        candidates: &mut BTreeMap<Key, Option<Route>>,
        range: &Floor,
    ) -> Result<(), OutOfMemory>
        requires { (end : Net) → range.now.upto ≡ Some end → is_from range.now.from end ≡ true }
        ensures { OnOk result
            (AddsNone (λ q. covers range.now q && is_some (index_at q self.now))
            candidates.old.entries candidates.new.entries) }
    {
        for (key, _) in self.places.range(bounds_of(range)) {
            self.add_one(candidates, key)?;
        }
        Ok(())
    }

    /// The places stand in the order of keys.
    pub(crate) fn ascend(&self)
        ensures { IsStrictlySortedBy key_cmp (keys_of self.now) }
    {
        let _keys = self.places.keys();
    }

    /// Drops places without a value from the front.
    pub(crate) fn skip_places(&mut self)
        ensures held { held_keys self.new ≡ held_keys self.old }
        ensures same { (k : Key) → index_at k self.new ≡ index_at k self.old }
        ensures led { is_led self.new ≡ true }
    {
        while let Some((_, number)) = self.places.first_key_value() {
            if number.is_some() {
                break;
            }
            self.places.pop_first();
        }
    }

    /// The first key that has a value.
    pub(crate) fn first(&self) -> Option<Key>
        requires led { is_led self.now ≡ true }
        ensures first { result ≡ slice_get (held_keys self.now) 0 }
    {
        match self.places.first_key_value() {
            Some((key, _)) => Some(*key),
            None => None,
        }
    }

    /// Takes the first place out.
    pub(crate) fn pop(&mut self)
        requires led { is_led self.old ≡ true }
        ensures held { held_keys self.new ≡ drop 1 (held_keys self.old) }
        ensures fewer { (k : Key) (n : ℕ) → index_at k self.new ≡ Some n
            → index_at k self.old ≡ Some n }
    {
        self.places.pop_first();
    }

    pub(crate) fn clear(&mut self)
        ensures { self.new ≡ [] }
    {
        self.places.clear();
    }
}
