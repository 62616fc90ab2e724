//! Marks in the order of first marking.
ghost use Rattle.std.specs.Prelude.{◌≡◌, ◌↔◌, ◌+◌, ◌<◌, ◌≤◌, List, [], ◌∷◌, ◌++◌, ◌&&◌, OnOk, OnErr, IfErr, IfOk, IfNone, IfSome, IsTrue, IsOk, Some, None, true, is_some, slice_get, drop, length, if◌then◌else◌};
ghost use Rattle.std.specs.Map.{keys_of};
ghost use Rattle.std.specs.List.Sorted.{IsStrictlySortedBy};
ghost use Rattle.bits_ip.specs.Prefix.{Net};
ghost use Rattle.indexmap.specs.IndexMap.{spare};
ghost use Rattle.export_core.specs.declared.log.Key.{Key};
ghost use Rattle.export_core.specs.Keys.{key_cmp, same_key};
ghost use Rattle.export_core.specs.Candidates.{AddsNone, covers, is_from};
ghost use Rattle.export_core.specs.Calls.{order_with};
ghost use Rattle.export_core.specs.Marks.{at, find, is_due, joined, live, unmarked_of, AreMarks, IsFirst, IsOnce, Joins, MarksEach, Puts};

use crate::candidates::add_none;
use crate::floors::Floor;
use crate::log::Key;
use attrs::Route;
use bits_ip::OutOfMemory;
use indexmap::IndexMap;
use std::alloc::Global;
use std::collections::BTreeMap;
use std::hash::RandomState;
use std::marker::Model;
use std::mem;

/// A mark of a key: its candidate, and the position at which it stood.
#[derive(Debug, Drop)]
pub struct Mark {
    pub at: u64,
    /// The best route, and none where the key had none.
    pub candidate: Option<Route>,
    /// A refresh is due: the value is sent though it stands already.
    pub due: bool,
}

type Keyed = IndexMap<Key, Mark, RandomState>;

/// Marks by key, in the order in which their keys were marked. Nothing moves in either of two maps:
/// one is emptied from the front, and has no marks before the number `from`; the other takes new
/// marks. When nothing is left of the first, they change places.
#[derive(Debug, Drop)]
pub(crate) struct Marks {
    leaving: Keyed,
    from: usize,
    coming: Keyed,
}

impl Model for Marks {
    ghost use Rattle.export_core.specs.Marks.{Listed, AreMarks, live};

    ghost Value = { Listed };

    ghost view = { λ m. live m.from m.leaving.entries m.coming.entries };

    ghost invariant = { λ m. AreMarks m.from m.leaving.entries m.coming.entries };
}

/// The mark takes the place of an older one, and stays due where that was.
fn join(place: &mut Mark, mark: Mark)
    ensures { place.new ≡ joined (Some place.old) mark }
{
    let was_due = place.due;
    *place = Mark {
        at: mark.at,
        candidate: mark.candidate,
        due: mark.due | was_due,
    };
}

/// The mark at the number, with its key.
fn mark_at(map: &Keyed, place: usize) -> Option<(Key, &Mark)>
    ensures some { IfSome result (λ p. slice_get map.now.entries place ≡ Some (p.0, p.1.now)) }
    ensures none { IfNone result (length map.now.entries ≤ place) }
{
    match map.get_index(place) {
        Some((key, mark)) => Some((*key, mark)),
        None => None,
    }
}

/// Where the key stands in the map, at the number or behind it.
fn place_of(map: &Keyed, from: usize, key: &Key) -> Option<usize>
    requires { IsOnce (keys_of map.now.entries) }
    ensures some { IfSome result (λ i. IsFirst key.now map.now.entries i × (from ≤ i)) }
    ensures none { IfNone result (at key.now (drop from map.now.entries) ≡ None) }
{
    if map.len() <= from {
        return None;
    }
    let place = map.get_index_of(key)?;
    if place < from {
        return None;
    }
    Some(place)
}

/// Marks the key where it stands in the map, at the number or behind it. Elsewhere the mark is
/// given back.
fn mark_there(map: &mut Keyed, from: usize, key: &Key, mark: Mark) -> Result<(), Mark>
    requires { IsOnce (keys_of map.old.entries) }
    ensures joins { OnOk result (Joins from key.now mark map.old.entries map.new.entries) }
    ensures back { IfErr result (λ back. back ≡ mark) }
    ensures none { OnErr result (at key.now (drop from map.old.entries) ≡ None) }
    ensures same { OnErr result (map.new.entries ≡ map.old.entries) }
{
    match place_of(map, from, key) {
        Some(place) => {
            join(&mut map[place], mark);
            Ok(())
        }
        None => Err(mark),
    }
}

/// Marks the key. A key that is marked already keeps its place in the order, and stays due where it
/// was.
fn put(
    leaving: &mut Keyed,
    from: usize,
    coming: &mut Keyed,
    key: Key,
    mark: Mark,
) -> Result<(), OutOfMemory>
    requires { AreMarks from leaving.old.entries coming.old.entries }
    ensures puts { OnOk result (Puts key mark (live from leaving.old.entries coming.old.entries)
        (live from leaving.new.entries coming.new.entries)) }
    ensures are { AreMarks from leaving.new.entries coming.new.entries }
    ensures refused { OnErr result ((leaving.new.entries ≡ leaving.old.entries)
        × (coming.new.entries ≡ coming.old.entries)) }
    ensures succeeds { 0 < spare coming.old → IsOk result }
    ensures room { spare coming.old ≤ spare coming.new + 1 }
{
    match mark_there(leaving, from, &key, mark) {
        Ok(()) => Ok(()),
        Err(mark) => put_new(coming, key, mark),
    }
}

fn is_due(mark: &Option<Mark>) -> bool
    ensures { result ≡ is_due mark.now }
{
    match mark {
        Some(mark) => mark.due,
        None => false,
    }
}

/// Marks a key that has no mark in the map that is emptied. One search finds its place.
fn put_new(coming: &mut Keyed, key: Key, mark: Mark) -> Result<(), OutOfMemory>
    ensures puts { OnOk result (Puts key mark coming.old.entries coming.new.entries) }
    ensures refused { OnErr result (coming.new.entries ≡ coming.old.entries) }
    ensures succeeds { 0 < spare coming.old → IsOk result }
    ensures room { spare coming.old ≤ spare coming.new + 1 }
{
    let (place, old) = coming.insert_full(key, mark)?;
    if is_due(&old) {
        coming[place].due = true;
        return Ok(());
    }
    Ok(())
}

/// Marks a key with its candidate, as `put` does. Takes no memory.
fn fill(
    leaving: &mut Keyed,
    from: usize,
    coming: &mut Keyed,
    entry: (Key, Option<Route>),
    at: u64,
    due: bool,
)
    requires are { AreMarks from leaving.old.entries coming.old.entries }
    requires room { 0 < spare coming.old }
    ensures puts { Puts entry.0 (record { at = at; candidate = entry.1; due = due })
        (live from leaving.old.entries coming.old.entries)
        (live from leaving.new.entries coming.new.entries) }
    ensures are { AreMarks from leaving.new.entries coming.new.entries }
    ensures room { spare coming.old ≤ spare coming.new + 1 }
{
    let (key, candidate) = entry;
    match put(leaving, from, coming, key, Mark { at, candidate, due }) {
        Ok(()) => {}
        Err(_) => unreachable!(),
    }
}

/// Marks each of the candidates' keys, in the order of keys.
fn fill_all(
    leaving: &mut Keyed,
    from: usize,
    coming: &mut Keyed,
    candidates: BTreeMap<Key, Option<Route>>,
    at: u64,
    due: bool,
)
    requires are { AreMarks from leaving.old.entries coming.old.entries }
    requires room { length candidates.entries ≤ spare coming.old }
    ensures marks { MarksEach candidates.entries at due
        (live from leaving.old.entries coming.old.entries)
        (live from leaving.new.entries coming.new.entries) }
    ensures order { keys_of (live from leaving.new.entries coming.new.entries)
        ≡ keys_of (live from leaving.old.entries coming.old.entries)
        ++ unmarked_of (live from leaving.old.entries coming.old.entries)
        (keys_of candidates.entries) }
    ensures are { AreMarks from leaving.new.entries coming.new.entries }
{
    let mut left = candidates;
    while let Some(entry) = left.pop_first() {
        fill(leaving, from, coming, entry, at, due);
    }
}

/// Where nothing is left of the map that is emptied, the two change places. Answers where the marks
/// of the first begin.
fn turn(leaving: &mut Keyed, from: usize, coming: &mut Keyed) -> usize
    requires { AreMarks from leaving.old.entries coming.old.entries }
    ensures same { live result leaving.new.entries coming.new.entries
        ≡ live from leaving.old.entries coming.old.entries }
    ensures are { AreMarks result leaving.new.entries coming.new.entries }
    ensures ahead { result ≡ length leaving.new.entries → coming.new.entries ≡ [] }
{
    if from < leaving.len() {
        return from;
    }
    leaving.truncate(0);
    mem::swap(leaving, coming);
    0
}

/// Takes the mark at the number out, and answers where the marks begin then. What it holds goes.
fn leave(leaving: &mut Keyed, from: usize) -> usize
    requires { from ≤ length leaving.old.entries }
    ensures rest { drop result leaving.new.entries ≡ drop 1 (drop from leaving.old.entries) }
    ensures keys { keys_of leaving.new.entries ≡ keys_of leaving.old.entries }
    ensures within { result ≤ length leaving.new.entries }
{
    if from < leaving.len() {
        leaving[from].candidate = None;
        return from + 1;
    }
    from
}

/// Adds the keys of the map, from the number on, that are in the range, with no candidate.
fn add_covered(
    candidates: &mut BTreeMap<Key, Option<Route>>,
    map: &Keyed,
    from: usize,
    range: &Floor,
) -> Result<(), OutOfMemory>
    requires { from ≤ length map.now.entries }
    ensures { OnOk result
        (AddsNone (λ q. covers range.now q && is_some (at q (drop from map.now.entries)))
        candidates.old.entries candidates.new.entries) }
{
    let mut left = map.len();
    while left > from {
        left -= 1;
        if let Some((key, _)) = map.get_index(left) {
            add_none(candidates, key, range.covers(key))?;
        }
    }
    Ok(())
}

impl Marks {
    /// No marks, whose keys are hashed by this.
    pub(crate) fn new(alloc: Global, hasher: RandomState) -> Marks
        ensures { result ≡ [] }
    {
        Marks {
            leaving: IndexMap::with_hasher(alloc, hasher),
            from: 0,
            coming: IndexMap::with_hasher(alloc, hasher),
        }
    }

    /// Marks the key. A key that is marked already keeps its place in the order, and stays due
    /// where it was.
    pub(crate) fn put(&mut self, key: Key, mark: Mark) -> Result<(), OutOfMemory>
        ensures at { OnOk result ((q : Key) → find q self.new
            ≡ (if same_key key q
            then Some (joined (find key self.old) mark)
            else find q self.old)) }
        ensures order { OnOk result (keys_of self.new ≡ order_with key self.old) }
        ensures refused { OnErr result (self.new ≡ self.old) }
    {
        put(&mut self.leaving, self.from, &mut self.coming, key, mark)
    }

    /// The first mark with its key.
    pub(crate) fn first(&self) -> Option<(Key, &Mark)>
        ensures some { IfSome result (λ p.
            (slice_get (keys_of self.now) 0 ≡ Some p.0) × (find p.0 self.now ≡ Some p.1.now)) }
        ensures none { IfNone result (self.now ≡ []) }
    {
        match mark_at(&self.leaving, self.from) {
            Some(first) => Some(first),
            None => mark_at(&self.coming, 0),
        }
    }

    pub(crate) fn is_empty(&self) -> bool
        ensures empty { IsTrue result ↔ (self.now ≡ []) }
        ensures none { IsTrue result → (k : Key) → find k self.now ≡ None }
    {
        (self.from == self.leaving.len()) & (self.coming.len() == 0)
    }

    /// Takes the first mark out.
    pub(crate) fn pop(&mut self)
        ensures gone { (k : Key) → slice_get (keys_of self.old) 0 ≡ Some k
            → (q : Key) → find q self.new ≡ (if same_key k q then None else find q self.old) }
        ensures rest { self.new ≡ drop 1 self.old }
    {
        let from = turn(&mut self.leaving, self.from, &mut self.coming);
        self.from = leave(&mut self.leaving, from);
    }

    /// Adds the keys in the range that are marked, with no candidate.
    pub(crate) fn add_to(
        &self,
        candidates: &mut BTreeMap<Key, Option<Route>>,
        range: &Floor,
    ) -> Result<(), OutOfMemory>
        requires { (end : Net) → range.now.upto ≡ Some end → is_from range.now.from end ≡ true }
        ensures { OnOk result (AddsNone (λ q. covers range.now q && is_some (find q self.now))
            candidates.old.entries candidates.new.entries) }
    {
        add_covered(candidates, &self.leaving, self.from, range)?;
        add_covered(candidates, &self.coming, 0, range)
    }

    /// Marks each of the candidates' keys, in the order of keys.
    pub(crate) fn put_all(
        &mut self,
        candidates: BTreeMap<Key, Option<Route>>,
        at: u64,
        due: bool,
    ) -> Result<(), OutOfMemory>
        ensures marks { OnOk result (MarksEach candidates.entries at due self.old self.new) }
        ensures order { OnOk result (keys_of self.new
            ≡ keys_of self.old ++ unmarked_of self.old (keys_of candidates.entries)) }
        ensures ascend { IsStrictlySortedBy key_cmp (keys_of candidates.entries) }
        ensures refused { OnErr result (self.new ≡ self.old) }
    {
        self.coming.reserve(candidates.len())?;
        fill_all(
            &mut self.leaving,
            self.from,
            &mut self.coming,
            candidates,
            at,
            due,
        );
        Ok(())
    }

    pub(crate) fn clear(&mut self)
        ensures { self.new ≡ [] }
    {
        self.leaving.truncate(0);
        self.coming.truncate(0);
        self.from = 0;
    }
}
