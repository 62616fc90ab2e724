ghost use Rattle.std.specs.Prelude.{◌≡◌};
ghost use Rattle.filt_meaning.specs.Seen.{val_of, val_of_fixed};
ghost use Rattle.filt_meaning.specs.Values.{sort_of};

use crate::{Sort, Value};
use attrs::{Clist, Dest, Kind, Origin, Path};
use bits_ip::{Addr, Prefix};
use filt_sets::{IntSet, Mask, PairSet, PrefixSet};
use std::alloc::Global;

/// A value that is known before a filter runs: what stands in the filter itself, or a constant of
/// the configuration.
#[derive(Debug, Drop)]
pub enum Fixed {
    Int(u32),
    Bool(bool),
    Ip(Addr),
    Prefix(Prefix),
    Pair(u16, u16),
    String(Vec<u8>),
    EmptyPath,
    EmptyClist,
    Mask(Mask),
    IntSet(IntSet),
    PairSet(PairSet),
    PrefixSet(PrefixSet),
    Source(Kind),
    Dest(Dest),
    Origin(Origin),
}

impl Fixed {
    /// The value while a filter runs. It lends sets, masks and strings, and takes no memory.
    pub fn value<'a>(&'a self, alloc: Global) -> Value<'a>
        ensures { val_of result ≡ val_of_fixed self.now }
    {
        match self {
            Fixed::Int(number) => Value::Int(*number),
            Fixed::Bool(truth) => Value::Bool(*truth),
            Fixed::Ip(addr) => Value::Ip(*addr),
            Fixed::Prefix(net) => Value::Prefix(*net),
            Fixed::Pair(first, second) => Value::Pair(*first, *second),
            Fixed::String(bytes) => Value::String(bytes.as_slice()),
            Fixed::EmptyPath => Value::Path(Path::new(alloc)),
            Fixed::EmptyClist => Value::Clist(Clist::new(alloc)),
            Fixed::Mask(mask) => Value::Mask(mask),
            Fixed::IntSet(set) => Value::IntSet(set),
            Fixed::PairSet(set) => Value::PairSet(set),
            Fixed::PrefixSet(set) => Value::PrefixSet(set),
            Fixed::Source(source) => Value::Source(*source),
            Fixed::Dest(dest) => Value::Dest(*dest),
            Fixed::Origin(origin) => Value::Origin(*origin),
        }
    }

    pub fn sort(&self) -> Sort
        ensures { result ≡ sort_of (val_of_fixed self.now) }
    {
        match self {
            Fixed::Int(_) => Sort::Int,
            Fixed::Bool(_) => Sort::Bool,
            Fixed::Ip(_) => Sort::Ip,
            Fixed::Prefix(_) => Sort::Prefix,
            Fixed::Pair(_, _) => Sort::Pair,
            Fixed::String(_) => Sort::String,
            Fixed::EmptyPath => Sort::Path,
            Fixed::EmptyClist => Sort::Clist,
            Fixed::Mask(_) => Sort::Mask,
            Fixed::IntSet(_) => Sort::IntSet,
            Fixed::PairSet(_) => Sort::PairSet,
            Fixed::PrefixSet(_) => Sort::PrefixSet,
            Fixed::Source(_) => Sort::Source,
            Fixed::Dest(_) => Sort::Dest,
            Fixed::Origin(_) => Sort::Origin,
        }
    }
}
