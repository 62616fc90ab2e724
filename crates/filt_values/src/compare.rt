ghost use Rattle.std.specs.Prelude.{◌≡◌};
ghost use Rattle.filt_meaning.specs.Operators.{equal_of, not_equal_of, order_of, less_of, less_or_equal_of, greater_of, greater_or_equal_of};
ghost use Rattle.filt_meaning.specs.Seen.{val_of, Answers};

use crate::logic::contrary;
use crate::parts::{bool, clist, dest, int, ip, origin, pair, path, prefix, source, string};
use crate::same::{
    addr_order, dest_rank, origin_rank, pair_order, same_addr, same_bool, same_net, same_pair,
    source_rank,
};
use filt_meaning::{Failure, Value};
use std::cmp::Ordering;

/// `left = right`, of two of one sort other than sets and masks (BIRD User's Guide, "Operators").
/// Lists are equal in their order.
pub fn equal<'a>(left: &Value<'a>, right: &Value<'a>) -> Result<Value<'a>, Failure>
    ensures { Answers val_of result (equal_of (val_of left.now) (val_of right.now)) }
{
    match left {
        Value::Int(a) => Ok(Value::Bool(*a == int(right)?)),
        Value::Bool(a) => Ok(Value::Bool(same_bool(*a, bool(right)?))),
        Value::Ip(a) => Ok(Value::Bool(same_addr(a, &ip(right)?))),
        Value::Prefix(a) => Ok(Value::Bool(same_net(a, prefix(right)?))),
        Value::Pair(a, b) => Ok(Value::Bool(same_pair((*a, *b), pair(right)?))),
        Value::String(a) => Ok(Value::Bool(*a == string(right)?)),
        Value::Path(a) => Ok(Value::Bool(*a == *path(right)?)),
        Value::PathOf(a) => Ok(Value::Bool(**a == *path(right)?)),
        Value::Clist(a) => Ok(Value::Bool(*a == *clist(right)?)),
        Value::ClistOf(a) => Ok(Value::Bool(**a == *clist(right)?)),
        Value::Source(a) => Ok(Value::Bool(source_rank(*a) == source_rank(source(right)?))),
        Value::Dest(a) => Ok(Value::Bool(dest_rank(*a) == dest_rank(dest(right)?))),
        Value::Origin(a) => Ok(Value::Bool(origin_rank(*a) == origin_rank(origin(right)?))),
        Value::Mask(_) => Err(Failure::Stuck),
        Value::IntSet(_) => Err(Failure::Stuck),
        Value::PairSet(_) => Err(Failure::Stuck),
        Value::PrefixSet(_) => Err(Failure::Stuck),
    }
}

/// `left != right`, the contrary of `left = right`.
pub fn not_equal<'a>(left: &Value<'a>, right: &Value<'a>) -> Result<Value<'a>, Failure>
    ensures { Answers val_of result (not_equal_of (val_of left.now) (val_of right.now)) }
{
    let answer = equal(left, right)?;
    contrary(answer)
}

fn order<'a>(left: &Value<'a>, right: &Value<'a>) -> Result<Ordering, Failure>
    ensures { Answers (λ order. order) result (order_of (val_of left.now) (val_of right.now)) }
{
    match left {
        Value::Int(a) => {
            let b = int(right)?;
            Ok(a.cmp(&b))
        }
        Value::Pair(a, b) => {
            let other = pair(right)?;
            Ok(pair_order((*a, *b), other))
        }
        Value::Ip(a) => {
            let b = ip(right)?;
            Ok(addr_order(a, &b))
        }
        _ => Err(Failure::Stuck),
    }
}

/// `left < right` (BIRD User's Guide, "Operators"), of two numbers, of two pairs, by the first part
/// first, or of two addresses, IPv4 before IPv6.
pub fn less<'a>(left: &Value<'a>, right: &Value<'a>) -> Result<Value<'a>, Failure>
    ensures { Answers val_of result (less_of (val_of left.now) (val_of right.now)) }
{
    let order = order(left, right)?;
    Ok(Value::Bool(order.is_lt()))
}

/// `left <= right`, ordered as by `less`
pub fn less_or_equal<'a>(left: &Value<'a>, right: &Value<'a>) -> Result<Value<'a>, Failure>
    ensures { Answers val_of result (less_or_equal_of (val_of left.now) (val_of right.now)) }
{
    let order = order(left, right)?;
    Ok(Value::Bool(order.is_le()))
}

/// `left > right`, ordered as by `less`
pub fn greater<'a>(left: &Value<'a>, right: &Value<'a>) -> Result<Value<'a>, Failure>
    ensures { Answers val_of result (greater_of (val_of left.now) (val_of right.now)) }
{
    let order = order(left, right)?;
    Ok(Value::Bool(order.is_gt()))
}

/// `left >= right`, ordered as by `less`
pub fn greater_or_equal<'a>(left: &Value<'a>, right: &Value<'a>) -> Result<Value<'a>, Failure>
    ensures { Answers val_of result (greater_or_equal_of (val_of left.now) (val_of right.now)) }
{
    let order = order(left, right)?;
    Ok(Value::Bool(order.is_ge()))
}
