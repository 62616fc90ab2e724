//! What is done behind what runs.

ghost use Rattle.std.specs.Prelude.{◌≡◌, ◌<◌, [], ◌∷◌, get_or, length, nat_lt, IsTrue, MatchOption, OnOk};
ghost use Rattle.filt_meaning.specs.Seen.{val_of};
ghost use Rattle.filt_route.specs.Seen.{elements_of};
ghost use Rattle.filt_meaning.specs.Values.{VInt};
ghost use Rattle.filt_vm.specs.Levels.{behind_first, top_elements};

use bits_ip::OutOfMemory;
use filt_code::{Instr, Routine};
use filt_meaning::{Sort, Value};
use filt_route::Elements;
use std::alloc::Global;
use std::marker::Model;

/// What is done behind what runs, once it is done.
#[derive(Clone, Copy)]
pub(crate) enum Level<'a> {
    /// A function ends.
    Returns(Call<'a>),
    /// A turn of a loop ends.
    Turns(Turn<'a>),
}

/// A caller that waits.
#[derive(Clone, Copy)]
pub(crate) struct Call<'a> {
    /// The functions that it may call.
    pub functions: &'a [Routine<'a>],
    /// Its code behind the call.
    pub rest: &'a [Instr<'a>],
    /// The sort of what the function gives, where it gives something.
    pub gives: Option<Sort>,
    /// Whether what it gives is put.
    pub puts: bool,
}

/// A loop.
#[derive(Clone, Copy)]
pub(crate) struct Turn<'a> {
    /// The functions that its body may call.
    pub functions: &'a [Routine<'a>],
    /// The code of its body, and what follows it.
    pub body: &'a [Instr<'a>],
    /// How many instructions the body has.
    pub over: usize,
    /// How many variables are round it.
    pub variables: usize,
    /// The place of its next element.
    pub next: usize,
}

/// All that waits, and the lists of the loops. Contracts see both, the innermost first.
#[derive(Drop)]
pub(crate) struct Levels<'a> {
    levels: Vec<Level<'a>>,
    lists: Vec<Elements<'a>>,
}

impl<'a> Model for Levels<'a> {
    ghost use Rattle.std.specs.Coded.{codes};
    ghost use Rattle.std.specs.Prelude.{map, reverse};
    ghost use Rattle.filt_route.specs.Seen.{elements_of};
    ghost use Rattle.filt_meaning.specs.contracts.tree.TStmt as trees;
    ghost use Rattle.filt_vm.specs.Levels.{Waiting};

    ghost Value = { Waiting };

    ghost coded = { Prim.hlevel (codes, trees.the_row.coded) };

    ghost view = { λ w. record {
      levels = reverse w.levels.items;
      lists = reverse (map elements_of w.lists.items);
    } };
}

impl<'a> Levels<'a> {
    pub(crate) fn new(alloc: Global) -> Levels<'a>
        ensures { result ≡ record { levels = []; lists = [] } }
    {
        Levels {
            levels: Vec::new(alloc),
            lists: Vec::new(alloc),
        }
    }

    /// This waits, too.
    pub(crate) fn push(&mut self, level: Level<'a>) -> Result<(), OutOfMemory>
        ensures { OnOk result (self.new ≡ record {
          levels = level.entry ∷ self.old.levels;
          lists = self.old.lists;
        }) }
    {
        self.levels.push(level)?;
        Ok(())
    }

    /// A loop over this list begins.
    pub(crate) fn begin(&mut self, list: Elements<'a>) -> Result<(), OutOfMemory>
        ensures { OnOk result (self.new ≡ record {
          levels = self.old.levels;
          lists = elements_of list.entry ∷ self.old.lists;
        }) }
    {
        self.lists.push(list)?;
        Ok(())
    }

    /// The innermost loop is over.
    pub(crate) fn end(&mut self)
        ensures { self.new ≡ record {
          levels = self.old.levels;
          lists = behind_first self.old.lists;
        } }
    {
        let _over = self.lists.pop();
    }

    /// What waits for what runs, which waits no longer.
    pub(crate) fn pop(&mut self) -> Option<Level<'a>>
        ensures level { MatchOption result (self.old.levels ≡ [])
            (λ level. self.old.levels ≡ level ∷ self.new.levels) }
        ensures lists { self.new.lists ≡ self.old.lists }
    {
        self.levels.pop()
    }

    /// Whether the list of the innermost loop has an element at that place.
    pub(crate) fn has(&self, n: usize) -> bool
        requires { 0 < length self.now.lists }
        ensures has { result ≡ nat_lt n (length (top_elements self.now.lists)) }
        ensures few { IsTrue result → n < 120 }
    {
        match self.lists.last() {
            Some(list) => n < list.len(),
            None => unreachable!(),
        }
    }

    /// An element of the list of the innermost loop.
    pub(crate) fn element(&self, n: usize) -> Value<'a>
        requires { n < length (top_elements self.now.lists) }
        ensures { val_of result ≡ get_or (top_elements self.now.lists) n (VInt 0) }
    {
        match self.lists.last() {
            Some(list) => list.get(n),
            None => unreachable!(),
        }
    }
}
