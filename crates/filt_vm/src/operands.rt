//! Operands.

ghost use Rattle.std.specs.Prelude.{◌≡◌, ◌<◌, [], ◌∷◌, drop, length, reverse, take, List, OnOk};
ghost use Rattle.filt_meaning.specs.Operators.{bool_in};
ghost use Rattle.filt_meaning.specs.Seen.{val_of};
ghost use Rattle.filt_meaning.specs.Values.{Val, VBool};
ghost use Rattle.filt_vm.specs.Seen.{first_of, rest_of, TakesTop};

use crate::frames::Frames;
use bits_ip::OutOfMemory;
use filt_meaning::Value;
use filt_route::bool;
use std::alloc::Global;
use std::marker::Model;

/// The operands of the function or of the body of a loop that runs, and under them those that wait
/// for its end. Contracts see their values, the one on top first.
#[derive(Drop)]
pub(crate) struct Operands<'a> {
    frames: Frames<'a>,
}

impl<'a> Model for Operands<'a> {
    ghost use Rattle.filt_vm.specs.Seen.{top_first, Held};

    ghost Value = { Held };

    ghost view = { λ o. top_first o.frames };
}

impl<'a> Operands<'a> {
    pub(crate) fn new(alloc: Global) -> Operands<'a>
        ensures { result ≡ record { here = []; under = [] } }
    {
        let frames = Frames::new(alloc);
        Operands { frames }
    }

    pub(crate) fn push(&mut self, value: Value<'a>) -> Result<(), OutOfMemory>
        ensures { OnOk result (self.new ≡ record {
          here = val_of value.entry ∷ self.old.here;
          under = self.old.under;
        }) }
    {
        self.frames.push(value)
    }

    /// The top operand, which is taken.
    pub(crate) fn pop(&mut self) -> Value<'a>
        requires { 0 < length self.old.here }
        ensures { self.old ≡ record {
          here = val_of result ∷ self.new.here;
          under = self.new.under;
        } }
    {
        self.frames.pop()
    }

    /// The top operand, which is a truth value.
    pub(crate) fn truth(&self) -> bool
        requires { TakesTop bool_in self.now.here }
        ensures { (under : List Val) × (self.now.here ≡ VBool result ∷ under) }
    {
        bool(self.frames.last())
    }

    pub(crate) fn len(&self) -> usize
        ensures { result ≡ length self.now.here }
    {
        self.frames.len()
    }

    /// The top operands, or all where there are fewer, become the variables of a function, of which
    /// the lowest is the first.
    pub(crate) fn hand(
        &mut self,
        count: usize,
        variables: &mut Frames<'a>,
    ) -> Result<(), OutOfMemory>
        requires { variables.old.here ≡ [] }
        ensures taken { OnOk result (variables.new ≡ record {
          here = reverse (take count self.old.here);
          under = variables.old.under;
        }) }
        ensures left { OnOk result (self.new ≡ record {
          here = drop count self.old.here;
          under = self.old.under;
        }) }
    {
        let few = count.min(self.len());
        for _ in 0..few {
            let value = self.pop();
            variables.push(value)?;
        }
        variables.reverse();
        Ok(())
    }

    /// There are none from now on, and these wait.
    pub(crate) fn enter(&mut self) -> Result<(), OutOfMemory>
        ensures { OnOk result (self.new ≡ record {
          here = [];
          under = self.old.here ∷ self.old.under;
        }) }
    {
        self.frames.enter()
    }

    /// There are none; those that wait, wait on.
    pub(crate) fn clear(&mut self)
        ensures { self.new ≡ record { here = []; under = self.old.under } }
    {
        self.frames.clear();
    }

    /// Those again that waited last.
    pub(crate) fn leave(&mut self)
        requires { 0 < length self.old.under }
        ensures { self.new ≡ record {
          here = first_of self.old.under;
          under = rest_of self.old.under;
        } }
    {
        self.frames.leave();
    }
}
