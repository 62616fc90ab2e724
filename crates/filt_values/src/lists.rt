ghost use Rattle.std.specs.Prelude.{◌≡◌};
ghost use Rattle.filt_meaning.specs.declared.value.Failure.TheVariants.{Fault};
ghost use Rattle.filt_meaning.specs.declared.value.ListFailure.TheVariants.{Failed};
ghost use Rattle.filt_meaning.specs.Operators.{added_of, added_to, deleted_of, emptied_of, filtered_of, longer, numbers_within, numbers_without, pairs_within, pairs_without, prepended_of, with_pair, with_pairs};
ghost use Rattle.filt_meaning.specs.Seen.{val_of, Answers, Builds};

use crate::kept::{
    numbers_in_set, numbers_not_in_set, other_numbers, other_pairs, pairs_in_list, pairs_in_set,
    pairs_not_in_list, pairs_not_in_set,
};
use crate::parts::{int, int_set, into_clist, into_path};
use attrs::{Clist, ClistFault, FilterFault, Path, PathFault};
use filt_meaning::{Failure, ListFailure, Value};
use std::alloc::Global;

/// `list.prepend(argument)`: the path with a number before the others (BIRD User's Guide, "Data
/// types", `bgppath`). Before 120 numbers it is the fault `PathLong`.
pub fn prepend<'a>(list: Value<'a>, argument: &Value<'a>) -> Result<Value<'a>, ListFailure>
    ensures { Builds val_of result (prepended_of (val_of list.entry) (val_of argument.now)) }
{
    let path = into_path(list)?;
    let number = int(argument)?;
    longer(path, number)
}

fn longer<'a>(path: Path, number: u32) -> Result<Value<'a>, ListFailure>
    ensures { Builds val_of result (longer path number) }
{
    let mut path = path;
    match path.prepend(number) {
        Ok(()) => Ok(Value::Path(path)),
        Err(PathFault::PathLong) => Err(fault(FilterFault::PathLong)),
        Err(PathFault::Memory) => Err(ListFailure::Memory),
    }
}

fn fault(fault: FilterFault) -> ListFailure
    ensures { result ≡ Failed (Fault fault) }
{
    ListFailure::Failed(Failure::Fault(fault))
}

/// `list.add(argument)`: the list of communities with a pair, or with each of a list, that isn't
/// there yet (BIRD User's Guide, "Data types", `clist`). With more than 64 it is the fault
/// `ClistLong`.
pub fn add<'a>(list: Value<'a>, argument: &Value<'a>) -> Result<Value<'a>, ListFailure>
    ensures { Builds val_of result (added_of (val_of list.entry) (val_of argument.now)) }
{
    let list = into_clist(list)?;
    let more = added_to(list, argument)?;
    Ok(Value::Clist(more))
}

fn added_to(list: Clist, argument: &Value<'_>) -> Result<Clist, ListFailure>
    ensures { Builds (λ l. l) result (added_to list (val_of argument.now)) }
{
    match argument {
        Value::Pair(first, second) => with_pair(list, *first, *second),
        Value::Clist(others) => with_pairs(list, others.as_slice()),
        Value::ClistOf(others) => with_pairs(list, others.as_slice()),
        _ => Err(ListFailure::Failed(Failure::Stuck)),
    }
}

fn with_pair(list: Clist, first: u16, second: u16) -> Result<Clist, ListFailure>
    ensures { Builds (λ l. l) result (with_pair list (first, second)) }
{
    let mut list = list;
    match list.add(first, second) {
        Ok(()) => Ok(list),
        Err(ClistFault::ClistLong) => Err(fault(FilterFault::ClistLong)),
        Err(ClistFault::Memory) => Err(ListFailure::Memory),
    }
}

fn with_pairs(list: Clist, pairs: &[(u16, u16)]) -> Result<Clist, ListFailure>
    ensures { Builds (λ l. l) result (with_pairs list pairs.now) }
{
    let mut list = list;
    for (first, second) in pairs {
        list = with_pair(list, *first, *second)?;
    }
    Ok(list)
}

/// `list.delete(argument)`: the path without a number or those of a set, or the list of communities
/// without a pair or those of a set or a list (BIRD User's Guide, "Data types", `bgppath` and
/// `clist`). Takes memory only of a list that stands elsewhere, which stays as it was.
pub fn delete<'a>(list: Value<'a>, argument: &Value<'a>) -> Result<Value<'a>, ListFailure>
    ensures { Builds val_of result (deleted_of (val_of list.entry) (val_of argument.now)) }
{
    match list {
        Value::Path(path) => Ok(Value::Path(numbers_without(path, argument)?)),
        Value::PathOf(path) => Ok(Value::Path(numbers_without(path.copy()?, argument)?)),
        Value::Clist(pairs) => Ok(Value::Clist(pairs_without(pairs, argument)?)),
        Value::ClistOf(pairs) => Ok(Value::Clist(pairs_without(pairs.copy()?, argument)?)),
        _ => Err(ListFailure::Failed(Failure::Stuck)),
    }
}

/// `list.filter(argument)`: those numbers of the path that are in a set, or those communities of
/// the list that are in a set or a list (BIRD User's Guide, "Data types", `bgppath` and `clist`).
/// Takes memory only of a list that stands elsewhere, which stays as it was.
pub fn filter<'a>(list: Value<'a>, argument: &Value<'a>) -> Result<Value<'a>, ListFailure>
    ensures { Builds val_of result (filtered_of (val_of list.entry) (val_of argument.now)) }
{
    match list {
        Value::Path(path) => Ok(Value::Path(numbers_within(path, argument)?)),
        Value::PathOf(path) => Ok(Value::Path(numbers_within(path.copy()?, argument)?)),
        Value::Clist(pairs) => Ok(Value::Clist(pairs_within(pairs, argument)?)),
        Value::ClistOf(pairs) => Ok(Value::Clist(pairs_within(pairs.copy()?, argument)?)),
        _ => Err(ListFailure::Failed(Failure::Stuck)),
    }
}

fn numbers_without(path: Path, argument: &Value<'_>) -> Result<Path, Failure>
    ensures { Answers (λ p. p) result (numbers_without path (val_of argument.now)) }
{
    match argument {
        Value::Int(number) => Ok(other_numbers(path, *number)),
        Value::IntSet(set) => Ok(numbers_not_in_set(path, set)),
        _ => Err(Failure::Stuck),
    }
}

fn numbers_within(path: Path, argument: &Value<'_>) -> Result<Path, Failure>
    ensures { Answers (λ p. p) result (numbers_within path (val_of argument.now)) }
{
    let set = int_set(argument)?;
    Ok(numbers_in_set(path, set))
}

fn pairs_without(list: Clist, argument: &Value<'_>) -> Result<Clist, Failure>
    ensures { Answers (λ l. l) result (pairs_without list (val_of argument.now)) }
{
    match argument {
        Value::Pair(first, second) => Ok(other_pairs(list, *first, *second)),
        Value::PairSet(set) => Ok(pairs_not_in_set(list, set)),
        Value::Clist(others) => Ok(pairs_not_in_list(list, others)),
        Value::ClistOf(others) => Ok(pairs_not_in_list(list, others)),
        _ => Err(Failure::Stuck),
    }
}

fn pairs_within(list: Clist, argument: &Value<'_>) -> Result<Clist, Failure>
    ensures { Answers (λ l. l) result (pairs_within list (val_of argument.now)) }
{
    match argument {
        Value::PairSet(set) => Ok(pairs_in_set(list, set)),
        Value::Clist(others) => Ok(pairs_in_list(list, others)),
        Value::ClistOf(others) => Ok(pairs_in_list(list, others)),
        _ => Err(Failure::Stuck),
    }
}

/// The empty list of the same sort, as `list.empty` leaves it (BIRD User's Guide, "Data types").
/// Takes no memory.
pub fn empty<'a>(alloc: Global, list: &Value<'a>) -> Result<Value<'a>, Failure>
    ensures { Answers val_of result (emptied_of (val_of list.now)) }
{
    match list {
        Value::Path(_) => Ok(Value::Path(Path::new(alloc))),
        Value::PathOf(_) => Ok(Value::Path(Path::new(alloc))),
        Value::Clist(_) => Ok(Value::Clist(Clist::new(alloc))),
        Value::ClistOf(_) => Ok(Value::Clist(Clist::new(alloc))),
        _ => Err(Failure::Stuck),
    }
}
