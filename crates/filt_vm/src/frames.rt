//! Values in frames.

ghost use Rattle.std.specs.Prelude.{◌≡◌, ◌<◌, [], ◌∷◌, ◌++◌, length, reverse, take, slice_get, slice_set, List, Some, IfOk, OnOk};
ghost use Rattle.filt_meaning.specs.Seen.{val_of};
ghost use Rattle.filt_meaning.specs.Values.{Val};
ghost use Rattle.filt_vm.specs.Seen.{first_of, rest_of};

use bits_ip::OutOfMemory;
use filt_meaning::{Value, copy};
use std::alloc::Global;
use std::marker::Model;

/// The values of what runs, and under them those of what waits for its end, all in one list. So a
/// call takes no memory beyond what that list grows by. Contracts see the values, those of what
/// waits last before the others.
#[derive(Drop)]
pub(crate) struct Frames<'a> {
    values: Vec<Value<'a>>,
    /// Where the values of what runs begin.
    base: usize,
    /// Where those of each begin that waits.
    bases: Vec<usize>,
}

impl<'a> Model for Frames<'a> {
    ghost use Rattle.std.specs.Prelude.{◌∷◌, length, reverse};
    ghost use Rattle.filt_vm.specs.Seen.{held_in, vals_of, AreStacked, Held};

    ghost Value = { Held };

    ghost view = { λ f. held_in (vals_of f.values) f.base (reverse f.bases.items) };

    ghost invariant = { λ f. AreStacked (length f.values.items) (f.base ∷ reverse f.bases.items) };
}

impl<'a> Frames<'a> {
    pub(crate) fn new(alloc: Global) -> Frames<'a>
        ensures { result ≡ record { here = []; under = [] } }
    {
        Frames {
            values: Vec::new(alloc),
            base: 0,
            bases: Vec::new(alloc),
        }
    }

    /// One value more, behind the others.
    pub(crate) fn push(&mut self, value: Value<'a>) -> Result<(), OutOfMemory>
        ensures { OnOk result (self.new ≡ record {
          here = self.old.here ++ val_of value.entry ∷ [];
          under = self.old.under;
        }) }
    {
        self.values.push(value)?;
        Ok(())
    }

    /// The last value, which is taken.
    pub(crate) fn pop(&mut self) -> Value<'a>
        requires { 0 < length self.old.here }
        ensures { self.old ≡ record {
          here = self.new.here ++ val_of result ∷ [];
          under = self.new.under;
        } }
    {
        match self.values.pop() {
            Some(value) => value,
            None => unreachable!(),
        }
    }

    /// The last value.
    pub(crate) fn last(&self) -> &Value<'a>
        requires { 0 < length self.now.here }
        ensures { (front : List Val) × (self.now.here ≡ front ++ val_of result.now ∷ []) }
    {
        match self.values.last() {
            Some(value) => value,
            None => unreachable!(),
        }
    }

    /// A value by its place.
    pub(crate) fn get(&self, place: usize) -> Result<Value<'a>, OutOfMemory>
        requires { place < length self.now.here }
        ensures { IfOk result (λ value. slice_get self.now.here place ≡ Some (val_of value)) }
    {
        copy(&self.values[self.base + place])
    }

    /// A place holds a value from now on.
    pub(crate) fn set(&mut self, place: usize, value: Value<'a>)
        requires { place < length self.old.here }
        ensures { self.new ≡ record {
          here = slice_set self.old.here place (val_of value.entry);
          under = self.old.under;
        } }
    {
        let at = self.base + place;
        self.values[at] = value;
    }

    /// The last value is the first one, and so on.
    pub(crate) fn reverse(&mut self)
        ensures { self.new ≡ record {
          here = reverse self.old.here;
          under = self.old.under;
        } }
    {
        self.values[self.base..].reverse();
    }

    /// How many there are.
    pub(crate) fn len(&self) -> usize
        ensures { result ≡ length self.now.here }
    {
        self.values.len() - self.base
    }

    /// Those behind the first so many are gone.
    pub(crate) fn truncate(&mut self, count: usize)
        ensures { self.new ≡ record {
          here = take count self.old.here;
          under = self.old.under;
        } }
    {
        if count < self.len() {
            self.values.truncate(self.base + count);
        }
    }

    /// There are none; those that wait, wait on.
    pub(crate) fn clear(&mut self)
        ensures { self.new ≡ record { here = []; under = self.old.under } }
    {
        self.values.truncate(self.base);
    }

    /// There are none from now on, and these wait.
    pub(crate) fn enter(&mut self) -> Result<(), OutOfMemory>
        ensures { OnOk result (self.new ≡ record {
          here = [];
          under = self.old.here ∷ self.old.under;
        }) }
    {
        self.bases.push(self.base)?;
        self.base = self.values.len();
        Ok(())
    }

    /// Those again that waited last.
    pub(crate) fn leave(&mut self)
        requires { 0 < length self.old.under }
        ensures { self.new ≡ record {
          here = first_of self.old.under;
          under = rest_of self.old.under;
        } }
    {
        self.values.truncate(self.base);
        match self.bases.pop() {
            Some(base) => self.base = base,
            None => unreachable!(),
        }
    }
}
