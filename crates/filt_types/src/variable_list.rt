// The variables that are seen, of which each is found by its name without going through the others.

ghost use Rattle.std.specs.Prelude.{◌≡◌, ◌-◌, ◌++◌, ◌∷◌, [], OnErr, OnOk, length, map, option_map};
ghost use Rattle.std.specs.Prelude.{remove, take};
ghost use Rattle.std.specs.List.{list_any};
ghost use Rattle.filt_meaning.specs.Names.{same_name};
ghost use Rattle.filt_types.specs.Listed.{variable_seen};
ghost use Rattle.filt_types.specs.Places.{Forgets, Notes, has_place};
ghost use Rattle.filt_types.specs.Scenes.{variable_in};

use bits_ip::OutOfMemory;
use filt_meaning::Sort;
use indexmap::IndexMap;
use std::alloc::Global;
use std::marker::Model;

/// A variable: its name, the sort of its values, and whether it is a loop's, which can't be
/// assigned to.
#[derive(Clone, Copy)]
pub struct Variable<'a> {
    pub name: &'a [u8],
    pub sort: Sort,
    pub of_loop: bool,
}

/// Where the first variable of each name stands.
type Places<'a> = IndexMap<&'a [u8], usize>;

/// The variables that are seen, the last one last. Of two with one name the first counts. Contracts
/// see the list.
#[derive(Drop)]
pub struct Variables<'a> {
    list: Vec<Variable<'a>>,
    places: Places<'a>,
}

impl<'a> Model for Variables<'a> {
    ghost use Rattle.filt_types.specs.Listed.{variables_of};
    ghost use Rattle.filt_types.specs.Places.{ArePlaces};
    ghost use Rattle.filt_types.specs.Scenes as scenes;

    ghost Value = { scenes.Variables };

    ghost view = { λ v. variables_of v.list.items };

    ghost invariant = { λ v. ArePlaces (variables_of v.list.items) v.places.entries };
}

impl<'a> Variables<'a> {
    pub fn new(alloc: Global) -> Variables<'a>
        ensures { result ≡ [] }
    {
        Variables {
            list: Vec::new(alloc),
            places: IndexMap::new(alloc),
        }
    }

    pub fn len(&self) -> usize
        ensures { result ≡ length self.now }
    {
        self.list.len()
    }

    pub fn named(&self, name: &[u8]) -> Option<Variable<'a>>
        ensures { option_map variable_seen result ≡ variable_in self.now name.now }
    {
        match self.places.get(name) {
            None => None,
            Some(place) => self.list.get(*place).copied(),
        }
    }

    pub fn has_name(&self, name: &[u8]) -> bool
        ensures { result ≡ list_any (λ v. same_name v.name name.now) self.now }
    {
        self.places.contains_key(name)
    }

    /// One variable more. Where memory is refused, they stay as they were.
    pub fn push(&mut self, variable: Variable<'a>) -> Result<(), OutOfMemory>
        ensures more { OnOk result (self.new ≡ self.old ++ variable_seen variable.entry ∷ []) }
        ensures same { OnErr result (self.new ≡ self.old) }
    {
        let place = self.list.len();
        self.list.push(variable)?;
        let noted = note(&mut self.places, variable.name, place);
        if noted.is_err() {
            self.list.pop();
        }
        noted
    }

    /// Those behind the first so many are gone, which takes the time that their number asks for.
    pub fn truncate(&mut self, len: usize)
        ensures { self.new ≡ take len self.old }
    {
        while len < self.len() {
            self.pop();
        }
    }

    /// The last one is gone, if there is one.
    fn pop(&mut self)
        ensures { self.new ≡ take (length self.old - 1) self.old }
    {
        match self.list.pop() {
            None => (),
            Some(variable) => forget(&mut self.places, variable.name, self.list.len()),
        }
    }

    /// The one at that place is gone, if there is one, which takes the time that the number of those
    /// behind it asks for. Where memory is refused, some of these are gone as well.
    pub fn remove(&mut self, place: usize) -> Result<(), OutOfMemory>
        ensures { OnOk result (self.new ≡ remove self.old place) }
    {
        if self.list.len() <= place {
            return Ok(());
        }
        let behind = Vec::from_slice(*self.list.allocator(), &self.list[place + 1..])?;
        self.truncate(place);
        self.append(&behind)?;
        Ok(())
    }

    fn append(&mut self, more: &[Variable<'a>]) -> Result<(), OutOfMemory>
        ensures { OnOk result (self.new ≡ self.old ++ map variable_seen more.now) }
    {
        for variable in more {
            self.push(*variable)?;
        }
        Ok(())
    }
}

/// Notes the place of one variable more, where it is the first of its name.
fn note<'a>(places: &mut Places<'a>, name: &'a [u8], place: usize) -> Result<(), OutOfMemory>
    ensures noted { OnOk result (Notes name.now place places.old.entries places.new.entries) }
    ensures same { OnErr result (places.new.entries ≡ places.old.entries) }
{
    if places.contains_key(name) {
        return Ok(());
    }
    places.insert(name, place)?;
    Ok(())
}

/// Forgets the place of the last variable, where it was the first of its name.
fn forget<'a>(places: &mut Places<'a>, name: &'a [u8], place: usize)
    ensures { Forgets name.now place places.old.entries places.new.entries }
{
    if stands_at(places, name, place) {
        places.swap_remove(name);
    }
}

fn stands_at<'a>(places: &Places<'a>, name: &'a [u8], place: usize) -> bool
    ensures { result ≡ has_place name.now place places.now.entries }
{
    match places.get(name) {
        None => false,
        Some(other) => *other == place,
    }
}
