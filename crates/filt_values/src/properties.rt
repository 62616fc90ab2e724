ghost use Rattle.std.specs.Prelude.{◌≡◌};
ghost use Rattle.filt_meaning.specs.Operators.{first_of, ip_of, joined, last_of, len_of, pair_of};
ghost use Rattle.filt_meaning.specs.Seen.{val_of, Answers};

use crate::parts::{int, path, prefix};
use attrs::FilterFault;
use filt_meaning::{Failure, Value};

/// `(left, right)` (BIRD User's Guide, "Data types", `pair`). A part over 65535 is the fault
/// `PairPart`.
pub fn pair<'a>(left: &Value<'a>, right: &Value<'a>) -> Result<Value<'a>, Failure>
    ensures { Answers val_of result (pair_of (val_of left.now) (val_of right.now)) }
{
    let a = int(left)?;
    let b = int(right)?;
    joined(a, b)
}

fn joined<'a>(a: u32, b: u32) -> Result<Value<'a>, Failure>
    ensures { Answers val_of result (joined a b) }
{
    if a < 65536 && b < 65536 {
        Ok(Value::Pair(a as u16, b as u16))
    } else {
        Err(Failure::Fault(FilterFault::PairPart))
    }
}

/// `value.len`, of a prefix, a path or a list of communities (BIRD User's Guide, "Data types").
pub fn len<'a>(value: &Value<'a>) -> Result<Value<'a>, Failure>
    ensures { Answers val_of result (len_of (val_of value.now)) }
{
    match value {
        Value::Prefix(net) => Ok(Value::Int(u32::from(net.len()))),
        Value::Path(path) => Ok(Value::Int(path.as_slice().len() as u32)),
        Value::PathOf(path) => Ok(Value::Int(path.as_slice().len() as u32)),
        Value::Clist(list) => Ok(Value::Int(list.as_slice().len() as u32)),
        Value::ClistOf(list) => Ok(Value::Int(list.as_slice().len() as u32)),
        _ => Err(Failure::Stuck),
    }
}

/// `value.first`: the nearest number of a path, 0 where it is empty (BIRD User's Guide, "Data
/// types", `bgppath`).
pub fn first<'a>(value: &Value<'a>) -> Result<Value<'a>, Failure>
    ensures { Answers val_of result (first_of (val_of value.now)) }
{
    let path = path(value)?;
    Ok(Value::Int(path.as_slice().first().copied().unwrap_or(0)))
}

/// `value.last`: the farthest number of a path, 0 where it is empty (BIRD User's Guide, "Data
/// types", `bgppath`).
pub fn last<'a>(value: &Value<'a>) -> Result<Value<'a>, Failure>
    ensures { Answers val_of result (last_of (val_of value.now)) }
{
    let path = path(value)?;
    Ok(Value::Int(path.as_slice().last().copied().unwrap_or(0)))
}

/// `value.ip`: the address that a prefix begins with (BIRD User's Guide, "Data types", `prefix`).
pub fn ip<'a>(value: &Value<'a>) -> Result<Value<'a>, Failure>
    ensures { Answers val_of result (ip_of (val_of value.now)) }
{
    let net = prefix(value)?;
    Ok(Value::Ip(net.addr()))
}
