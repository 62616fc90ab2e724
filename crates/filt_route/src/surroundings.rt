//! What is given around a route, and no instruction changes.

ghost use Rattle.std.specs.Prelude.{◌≡◌, get_or, []};
ghost use Rattle.filt_meaning.specs.Seen.{val_of};
ghost use Rattle.filt_meaning.specs.Values.{default_of, VString};
ghost use Rattle.filt_route.specs.Seen.{around_in};

use attrs::Names;
use bits_ip::Prefix;
use filt_meaning::{Defaults, Sort, Value};
use std::alloc::Global;

/// Where code is run.
#[derive(Clone, Copy)]
pub struct Surroundings<'a> {
    pub alloc: Global,
    pub names: &'a Names,
    pub net: &'a Prefix,
    /// The number of the protocol that the route comes from.
    pub number: u32,
    pub defaults: &'a Defaults,
}

impl<'a> Surroundings<'a> {
    /// The name of the protocol that the route comes from.
    pub fn protocol(&self) -> Value<'a>
        ensures { val_of result
            ≡ VString (get_or (around_in self.now).protocols (around_in self.now).number []) }
    {
        let names = self.names;
        Value::String(names.name(self.number))
    }

    /// What a variable of a sort holds without a value. Takes no memory.
    pub fn default(&self, sort: Sort) -> Value<'a>
        ensures { val_of result ≡ default_of sort }
    {
        let defaults = self.defaults;
        defaults.value(self.alloc, sort)
    }
}
