//! Names by their numbers, of which each is found without going through the others.
ghost use Rattle.std.specs.Prelude.{◌≡◌, IfOk, OnOk, length};
ghost use Rattle.std.specs.List.{position};
ghost use Rattle.std.specs.Str.{bytes_eq};
ghost use Rattle.script_lines.specs.NamePlaces.{ArePlaces, Notes};

use crate::named::Name;
use bits_ip::OutOfMemory;
use indexmap::IndexMap;
use std::alloc::Global;
use std::marker::Model;

/// Names in the order of their numbers. Contracts see the list of their bytes.
#[derive(Drop)]
pub struct NameList {
    names: Vec<Name>,
    /// The first place of each name.
    places: IndexMap<Vec<u8>, usize>,
}

impl Model for NameList {
    ghost use Rattle.std.specs.Prelude.{ℕ, List};
    ghost use Rattle.script_lines.specs.NamePlaces.{ArePlaces};

    ghost Value = { List (List ℕ) };

    ghost view = { λ list. list.names.items };

    ghost invariant = { λ list. ArePlaces list.names.items list.places.entries };
}

impl NameList {
    /// The names from number 0 on.
    ///
    /// `OutOfMemory` comes where memory is refused.
    pub fn make(alloc: Global, names: Vec<Name>) -> Result<NameList, OutOfMemory>
        ensures { IfOk result (λ list. list ≡ names.items) }
    {
        let places = places(alloc, &names)?;
        Ok(NameList { names, places })
    }

    /// How many names there are.
    pub fn len(&self) -> usize
        ensures { result ≡ length self.now }
    {
        self.names.len()
    }

    /// The first number of a name.
    pub fn place(&self, name: &[u8]) -> Option<usize>
        ensures { result ≡ position (λ other. bytes_eq other name.now) self.now }
    {
        self.places.get(name).copied()
    }
}

/// The first place of each name.
fn places(alloc: Global, names: &[Name]) -> Result<IndexMap<Vec<u8>, usize>, OutOfMemory>
    ensures { IfOk result (λ places. ArePlaces names.now places.entries) }
{
    let mut places = IndexMap::new(alloc);
    for number in 0..names.len() {
        note(alloc, names[number].as_slice(), number, &mut places)?;
    }
    Ok(places)
}

/// Notes the place of a name, where it has none.
fn note(
    alloc: Global,
    name: &[u8],
    place: usize,
    places: &mut IndexMap<Vec<u8>, usize>,
) -> Result<(), OutOfMemory>
    ensures { OnOk result (Notes name.now place places.old.entries places.new.entries) }
{
    if places.contains_key(name) {
        return Ok(());
    }
    let key = Vec::from_slice(alloc, name)?;
    places.insert(key, place)?;
    Ok(())
}
