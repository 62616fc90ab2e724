//! What a value is, of one sort.

ghost use Rattle.std.specs.Prelude.{◌≡◌, Ok};
ghost use Rattle.filt_meaning.specs.Operators.{bool_in, dest_in, int_in, ip_in, origin_in};
ghost use Rattle.filt_meaning.specs.Seen.{val_of};
ghost use Rattle.filt_route.specs.Seen.{IsApplicable};

use attrs::{Dest, Origin};
use bits_ip::Addr;
use filt_meaning::Value;

pub(crate) fn int(value: &Value<'_>) -> u32
    requires { IsApplicable (int_in (val_of value.now)) }
    ensures { int_in (val_of value.now) ≡ Ok result }
{
    match value {
        Value::Int(number) => *number,
        _ => unreachable!(),
    }
}

pub fn bool(value: &Value<'_>) -> bool
    requires { IsApplicable (bool_in (val_of value.now)) }
    ensures { bool_in (val_of value.now) ≡ Ok result }
{
    match value {
        Value::Bool(truth) => *truth,
        _ => unreachable!(),
    }
}

pub(crate) fn ip(value: &Value<'_>) -> Addr
    requires { IsApplicable (ip_in (val_of value.now)) }
    ensures { ip_in (val_of value.now) ≡ Ok result }
{
    match value {
        Value::Ip(addr) => *addr,
        _ => unreachable!(),
    }
}

pub(crate) fn dest(value: &Value<'_>) -> Dest
    requires { IsApplicable (dest_in (val_of value.now)) }
    ensures { dest_in (val_of value.now) ≡ Ok result }
{
    match value {
        Value::Dest(dest) => *dest,
        _ => unreachable!(),
    }
}

pub(crate) fn origin(value: &Value<'_>) -> Origin
    requires { IsApplicable (origin_in (val_of value.now)) }
    ensures { origin_in (val_of value.now) ≡ Ok result }
{
    match value {
        Value::Origin(origin) => *origin,
        _ => unreachable!(),
    }
}
