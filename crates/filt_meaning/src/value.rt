ghost use Rattle.std.specs.Prelude.{◌≡◌, IfOk, IsTrue, OnErr};
ghost use Rattle.bits_ip.specs.declared.address.Addr.TheVariants.{V4};
ghost use Rattle.filt_meaning.specs.declared.value.ListFailure.TheVariants.{Failed, Memory};
ghost use Rattle.filt_meaning.specs.Names.{sort_of_type};
ghost use Rattle.filt_meaning.specs.Seen.{val_of};
ghost use Rattle.filt_meaning.specs.Sorts.{one_list};
ghost use Rattle.filt_meaning.specs.Values.{default_of, sort_of};

use attrs::{Clist, Dest, FilterFault, Kind, Origin, Path};
use bits_ip::{Addr, OutOfMemory, Prefix};
use conf_ast::filters::VariableType;
use filt_sets::{IntSet, Mask, PairSet, PrefixSet};
use std::alloc::Global;
use std::marker::Model;

/// The sorts of values (BIRD User's Guide, "Data types"). No variable is of the last three.
#[derive(Clone, Copy, Debug, PartialEq, Eq)]
pub enum Sort {
    Int,
    Bool,
    Ip,
    Prefix,
    Pair,
    String,
    Path,
    Mask,
    Clist,
    IntSet,
    PairSet,
    PrefixSet,
    /// By which kind of protocol a route was learned (`source`).
    Source,
    /// What is done with a packet (`dest`).
    Dest,
    /// `bgp_origin`
    Origin,
}

/// A value while a filter runs. Sets, masks and strings stay where the filter has them, and so may
/// paths and lists of communities that nothing changes.
#[derive(Debug, Drop)]
pub enum Value<'a> {
    Int(u32),
    Bool(bool),
    Ip(Addr),
    Prefix(Prefix),
    Pair(u16, u16),
    String(&'a [u8]),
    Path(Path),
    /// A path that stands elsewhere.
    PathOf(&'a Path),
    Mask(&'a Mask),
    Clist(Clist),
    /// A list of communities that stands elsewhere.
    ClistOf(&'a Clist),
    IntSet(&'a IntSet),
    PairSet(&'a PairSet),
    PrefixSet(&'a PrefixSet),
    Source(Kind),
    Dest(Dest),
    Origin(Origin),
}

impl<'a> Value<'a> {
    pub fn sort(&self) -> Sort
        ensures { result ≡ sort_of (val_of self.now) }
    {
        match self {
            Value::Int(_) => Sort::Int,
            Value::Bool(_) => Sort::Bool,
            Value::Ip(_) => Sort::Ip,
            Value::Prefix(_) => Sort::Prefix,
            Value::Pair(_, _) => Sort::Pair,
            Value::String(_) => Sort::String,
            Value::Path(_) => Sort::Path,
            Value::PathOf(_) => Sort::Path,
            Value::Mask(_) => Sort::Mask,
            Value::Clist(_) => Sort::Clist,
            Value::ClistOf(_) => Sort::Clist,
            Value::IntSet(_) => Sort::IntSet,
            Value::PairSet(_) => Sort::PairSet,
            Value::PrefixSet(_) => Sort::PrefixSet,
            Value::Source(_) => Sort::Source,
            Value::Dest(_) => Sort::Dest,
            Value::Origin(_) => Sort::Origin,
        }
    }
}

/// Why an operator gives no value.
#[derive(Clone, Copy, Debug, PartialEq, Eq)]
pub enum Failure {
    Fault(FilterFault),
    /// The values are of sorts that the operator doesn't take. No typed filter comes here.
    Stuck,
}

/// Why an operator that makes a list gives no value.
#[derive(Clone, Copy, Debug, PartialEq, Eq)]
pub enum ListFailure {
    Failed(Failure),
    /// Memory was wanted and not given.
    Memory,
}

impl From<Failure> for ListFailure {
    ghost from_gives = { λ failure made. made ≡ Failed failure };

    fn from(failure: Failure) -> Self {
        ListFailure::Failed(failure)
    }
}

impl From<OutOfMemory> for ListFailure {
    ghost from_gives = { λ _ made. made ≡ Memory };

    fn from(_: OutOfMemory) -> Self {
        ListFailure::Memory
    }
}

/// The empty sets and the empty mask, which variables without a value hold.
#[derive(Debug, Drop)]
pub struct Defaults {
    mask: Mask,
    ints: IntSet,
    pairs: PairSet,
    prefixes: PrefixSet,
}

impl Model for Defaults {
    ghost use Rattle.std.specs.Prelude.{◌≡◌, [], ⊤};

    ghost Value = { ⊤ };

    ghost view = { λ _. tt };

    ghost invariant = { λ d. (d.mask ≡ []) × (d.ints ≡ []) × (d.pairs ≡ []) × (d.prefixes ≡ []) };
}

impl Defaults {
    /// Takes no memory.
    pub fn make(alloc: Global) -> Defaults {
        Defaults {
            mask: Mask::make(Vec::new(alloc)),
            ints: IntSet::make(Vec::new(alloc)),
            pairs: PairSet::make(Vec::new(alloc)),
            prefixes: PrefixSet::make(Vec::new(alloc)),
        }
    }

    /// What a variable of a sort holds without a value. Takes no memory.
    pub fn value(&self, alloc: Global, sort: Sort) -> Value<'_>
        ensures { val_of result ≡ default_of sort }
    {
        match sort {
            Sort::Int => Value::Int(0),
            Sort::Bool => Value::Bool(false),
            Sort::Ip => Value::Ip(Addr::V4(0)),
            Sort::Prefix => Value::Prefix(whole_v4()),
            Sort::Pair => Value::Pair(0, 0),
            Sort::String => Value::String(&[]),
            Sort::Path => Value::Path(Path::new(alloc)),
            Sort::Mask => Value::Mask(&self.mask),
            Sort::Clist => Value::Clist(Clist::new(alloc)),
            Sort::IntSet => Value::IntSet(&self.ints),
            Sort::PairSet => Value::PairSet(&self.pairs),
            Sort::PrefixSet => Value::PrefixSet(&self.prefixes),
            Sort::Source => Value::Source(Kind::Static),
            Sort::Dest => Value::Dest(Dest::Unicast),
            Sort::Origin => Value::Origin(Origin::Igp),
        }
    }
}

/// A copy. Only of a path and of a list of communities that the value owns it takes memory; one
/// that stands elsewhere is lent again.
pub fn copy<'a>(value: &Value<'a>) -> Result<Value<'a>, OutOfMemory>
    ensures copied { IfOk result (λ copy. val_of copy ≡ val_of value.now) }
    ensures refused { OnErr result (IsTrue (one_list (sort_of (val_of value.now)))) }
{
    match value {
        Value::Int(number) => Ok(Value::Int(*number)),
        Value::Bool(truth) => Ok(Value::Bool(*truth)),
        Value::Ip(addr) => Ok(Value::Ip(*addr)),
        Value::Prefix(net) => Ok(Value::Prefix(*net)),
        Value::Pair(first, second) => Ok(Value::Pair(*first, *second)),
        Value::String(bytes) => Ok(Value::String(*bytes)),
        Value::Path(path) => Ok(Value::Path(path.copy()?)),
        Value::PathOf(path) => Ok(Value::PathOf(*path)),
        Value::Mask(mask) => Ok(Value::Mask(*mask)),
        Value::Clist(list) => Ok(Value::Clist(list.copy()?)),
        Value::ClistOf(list) => Ok(Value::ClistOf(*list)),
        Value::IntSet(set) => Ok(Value::IntSet(*set)),
        Value::PairSet(set) => Ok(Value::PairSet(*set)),
        Value::PrefixSet(set) => Ok(Value::PrefixSet(*set)),
        Value::Source(source) => Ok(Value::Source(*source)),
        Value::Dest(dest) => Ok(Value::Dest(*dest)),
        Value::Origin(origin) => Ok(Value::Origin(*origin)),
    }
}

/// 0.0.0.0/0
fn whole_v4() -> Prefix
    ensures { result ≡ record { addr = V4 0; len = 0 } }
{
    match Prefix::make(Addr::V4(0), 0) {
        Ok(net) => net,
        Err(_) => unreachable!(),
    }
}

/// The sort of the values of a type.
pub fn type_sort(variable_type: VariableType) -> Sort
    ensures { result ≡ sort_of_type variable_type }
{
    match variable_type {
        VariableType::Int => Sort::Int,
        VariableType::Bool => Sort::Bool,
        VariableType::Ip => Sort::Ip,
        VariableType::Prefix => Sort::Prefix,
        VariableType::Pair => Sort::Pair,
        VariableType::String => Sort::String,
        VariableType::Path => Sort::Path,
        VariableType::Mask => Sort::Mask,
        VariableType::Clist => Sort::Clist,
        VariableType::IntSet => Sort::IntSet,
        VariableType::PairSet => Sort::PairSet,
        VariableType::PrefixSet => Sort::PrefixSet,
    }
}
