//! What a value is, of one sort.

ghost use Rattle.std.specs.Prelude.{◌≡◌};
ghost use Rattle.filt_meaning.specs.Operators.{int_in, bool_in, ip_in, prefix_in, pair_in, string_in, path_in, clist_in, int_set_in, pair_set_in, source_in, dest_in, origin_in};
ghost use Rattle.filt_meaning.specs.Seen.{val_of, Answers, Builds};

use attrs::{Clist, Dest, Kind, Origin, Path};
use bits_ip::{Addr, Prefix};
use filt_meaning::{Failure, ListFailure, Value};
use filt_sets::{IntSet, PairSet};

pub(crate) fn int<'a>(value: &Value<'a>) -> Result<u32, Failure>
    ensures { Answers (λ n. n) result (int_in (val_of value.now)) }
{
    match value {
        Value::Int(number) => Ok(*number),
        _ => Err(Failure::Stuck),
    }
}

pub(crate) fn bool<'a>(value: &Value<'a>) -> Result<bool, Failure>
    ensures { Answers (λ b. b) result (bool_in (val_of value.now)) }
{
    match value {
        Value::Bool(truth) => Ok(*truth),
        _ => Err(Failure::Stuck),
    }
}

pub(crate) fn ip<'a>(value: &Value<'a>) -> Result<Addr, Failure>
    ensures { Answers (λ a. a) result (ip_in (val_of value.now)) }
{
    match value {
        Value::Ip(addr) => Ok(*addr),
        _ => Err(Failure::Stuck),
    }
}

pub(crate) fn prefix<'a, 'b>(value: &'b Value<'a>) -> Result<&'b Prefix, Failure>
    ensures { Answers (λ net. net.now) result (prefix_in (val_of value.now)) }
{
    match value {
        Value::Prefix(net) => Ok(net),
        _ => Err(Failure::Stuck),
    }
}

pub(crate) fn pair<'a>(value: &Value<'a>) -> Result<(u16, u16), Failure>
    ensures { Answers (λ p. p) result (pair_in (val_of value.now)) }
{
    match value {
        Value::Pair(first, second) => Ok((*first, *second)),
        _ => Err(Failure::Stuck),
    }
}

pub(crate) fn string<'a>(value: &Value<'a>) -> Result<&'a [u8], Failure>
    ensures { Answers (λ s. s.now) result (string_in (val_of value.now)) }
{
    match value {
        Value::String(bytes) => Ok(*bytes),
        _ => Err(Failure::Stuck),
    }
}

pub(crate) fn path<'a, 'b>(value: &'b Value<'a>) -> Result<&'b Path, Failure>
    ensures { Answers (λ p. p.now) result (path_in (val_of value.now)) }
{
    match value {
        Value::Path(path) => Ok(path),
        Value::PathOf(path) => Ok(*path),
        _ => Err(Failure::Stuck),
    }
}

pub(crate) fn clist<'a, 'b>(value: &'b Value<'a>) -> Result<&'b Clist, Failure>
    ensures { Answers (λ l. l.now) result (clist_in (val_of value.now)) }
{
    match value {
        Value::Clist(list) => Ok(list),
        Value::ClistOf(list) => Ok(*list),
        _ => Err(Failure::Stuck),
    }
}

pub(crate) fn int_set<'a>(value: &Value<'a>) -> Result<&'a IntSet, Failure>
    ensures { Answers (λ s. s.now) result (int_set_in (val_of value.now)) }
{
    match value {
        Value::IntSet(set) => Ok(*set),
        _ => Err(Failure::Stuck),
    }
}

pub(crate) fn pair_set<'a>(value: &Value<'a>) -> Result<&'a PairSet, Failure>
    ensures { Answers (λ s. s.now) result (pair_set_in (val_of value.now)) }
{
    match value {
        Value::PairSet(set) => Ok(*set),
        _ => Err(Failure::Stuck),
    }
}

pub(crate) fn source<'a>(value: &Value<'a>) -> Result<Kind, Failure>
    ensures { Answers (λ k. k) result (source_in (val_of value.now)) }
{
    match value {
        Value::Source(source) => Ok(*source),
        _ => Err(Failure::Stuck),
    }
}

pub(crate) fn dest<'a>(value: &Value<'a>) -> Result<Dest, Failure>
    ensures { Answers (λ d. d) result (dest_in (val_of value.now)) }
{
    match value {
        Value::Dest(dest) => Ok(*dest),
        _ => Err(Failure::Stuck),
    }
}

pub(crate) fn origin<'a>(value: &Value<'a>) -> Result<Origin, Failure>
    ensures { Answers (λ o. o) result (origin_in (val_of value.now)) }
{
    match value {
        Value::Origin(origin) => Ok(*origin),
        _ => Err(Failure::Stuck),
    }
}

/// The path itself, or a copy where it stands elsewhere.
pub(crate) fn into_path(value: Value<'_>) -> Result<Path, ListFailure>
    ensures { Builds (λ p. p) result (path_in (val_of value.entry)) }
{
    match value {
        Value::Path(path) => Ok(path),
        Value::PathOf(path) => Ok(path.copy()?),
        _ => Err(ListFailure::Failed(Failure::Stuck)),
    }
}

/// The list itself, or a copy where it stands elsewhere.
pub(crate) fn into_clist(value: Value<'_>) -> Result<Clist, ListFailure>
    ensures { Builds (λ l. l) result (clist_in (val_of value.entry)) }
{
    match value {
        Value::Clist(list) => Ok(list),
        Value::ClistOf(list) => Ok(list.copy()?),
        _ => Err(ListFailure::Failed(Failure::Stuck)),
    }
}
