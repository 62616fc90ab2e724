ghost use Rattle.std.specs.Prelude.{◌≡◌};
ghost use Rattle.filt_meaning.specs.Operators.{has_int, has_net, has_one_pair, matches_not_of, matches_of, takes_clist, takes_path};
ghost use Rattle.filt_meaning.specs.Seen.{val_of, Answers};

use crate::logic::contrary;
use crate::members::{
    covers, has_addr, has_pair, in_ints, in_nets, in_pairs, in_path, matches as mask_matches,
    some_in_ints, some_in_pairs,
};
use crate::parts::{pair_set, prefix};
use attrs::{Clist, Path};
use bits_ip::Prefix;
use filt_meaning::{Failure, Value};

/// `left ~ right` (BIRD User's Guide, "Operators"): an element in a set or a list, an address or a
/// prefix within a prefix, a list of which some element is in a set, or a path that a mask matches.
pub fn matches<'a>(left: &Value<'a>, right: &Value<'a>) -> Result<Value<'a>, Failure>
    ensures { Answers val_of result (matches_of (val_of left.now) (val_of right.now)) }
{
    match left {
        Value::Int(number) => has_int(right, *number),
        Value::Pair(first, second) => has_one_pair(right, *first, *second),
        Value::Prefix(net) => has_net(right, net),
        Value::Ip(addr) => {
            let net = prefix(right)?;
            Ok(Value::Bool(has_addr(net, addr)))
        }
        Value::Path(path) => takes_path(right, path),
        Value::PathOf(path) => takes_path(right, path),
        Value::Clist(list) => takes_clist(right, list),
        Value::ClistOf(list) => takes_clist(right, list),
        _ => Err(Failure::Stuck),
    }
}

/// `left !~ right`, the contrary of `left ~ right`.
pub fn matches_not<'a>(left: &Value<'a>, right: &Value<'a>) -> Result<Value<'a>, Failure>
    ensures { Answers val_of result (matches_not_of (val_of left.now) (val_of right.now)) }
{
    let answer = matches(left, right)?;
    contrary(answer)
}

fn has_int<'a>(right: &Value<'a>, number: u32) -> Result<Value<'a>, Failure>
    ensures { Answers val_of result (has_int (val_of right.now) number) }
{
    match right {
        Value::IntSet(set) => Ok(Value::Bool(in_ints(set, number))),
        Value::Path(path) => Ok(Value::Bool(in_path(path, number))),
        Value::PathOf(path) => Ok(Value::Bool(in_path(path, number))),
        _ => Err(Failure::Stuck),
    }
}

fn has_one_pair<'a>(right: &Value<'a>, first: u16, second: u16) -> Result<Value<'a>, Failure>
    ensures { Answers val_of result (has_one_pair (val_of right.now) (first, second)) }
{
    match right {
        Value::PairSet(set) => Ok(Value::Bool(in_pairs(set, first, second))),
        Value::Clist(list) => Ok(Value::Bool(has_pair(list, first, second))),
        Value::ClistOf(list) => Ok(Value::Bool(has_pair(list, first, second))),
        _ => Err(Failure::Stuck),
    }
}

fn has_net<'a>(right: &Value<'a>, net: &Prefix) -> Result<Value<'a>, Failure>
    ensures { Answers val_of result (has_net (val_of right.now) net.now) }
{
    match right {
        Value::PrefixSet(set) => Ok(Value::Bool(in_nets(set, net))),
        Value::Prefix(other) => Ok(Value::Bool(covers(other, net))),
        _ => Err(Failure::Stuck),
    }
}

fn takes_path<'a>(right: &Value<'a>, path: &Path) -> Result<Value<'a>, Failure>
    ensures { Answers val_of result (takes_path (val_of right.now) path.now) }
{
    match right {
        Value::IntSet(set) => Ok(Value::Bool(some_in_ints(path, set))),
        Value::Mask(mask) => Ok(Value::Bool(mask_matches(mask, path))),
        _ => Err(Failure::Stuck),
    }
}

fn takes_clist<'a>(right: &Value<'a>, list: &Clist) -> Result<Value<'a>, Failure>
    ensures { Answers val_of result (takes_clist (val_of right.now) list.now) }
{
    let set = pair_set(right)?;
    Ok(Value::Bool(some_in_pairs(list, set)))
}
