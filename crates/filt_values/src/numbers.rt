ghost use Rattle.std.specs.Prelude.{◌≡◌};
ghost use Rattle.filt_meaning.specs.Operators.{plus_of, minus_of, times_of, over_of, quotient_of};
ghost use Rattle.filt_meaning.specs.Seen.{val_of, Answers};

use crate::parts::int;
use attrs::FilterFault;
use filt_meaning::{Failure, Value};

/// `left + right`, modulo 2 to the 32nd (BIRD User's Guide, "Operators").
pub fn plus<'a>(left: &Value<'a>, right: &Value<'a>) -> Result<Value<'a>, Failure>
    ensures { Answers val_of result (plus_of (val_of left.now) (val_of right.now)) }
{
    let a = int(left)?;
    let b = int(right)?;
    Ok(Value::Int(a.wrapping_add(b)))
}

/// `left - right`, modulo 2 to the 32nd (BIRD User's Guide, "Operators").
pub fn minus<'a>(left: &Value<'a>, right: &Value<'a>) -> Result<Value<'a>, Failure>
    ensures { Answers val_of result (minus_of (val_of left.now) (val_of right.now)) }
{
    let a = int(left)?;
    let b = int(right)?;
    Ok(Value::Int(a.wrapping_sub(b)))
}

/// `left * right`, modulo 2 to the 32nd (BIRD User's Guide, "Operators").
pub fn times<'a>(left: &Value<'a>, right: &Value<'a>) -> Result<Value<'a>, Failure>
    ensures { Answers val_of result (times_of (val_of left.now) (val_of right.now)) }
{
    let a = int(left)?;
    let b = int(right)?;
    Ok(Value::Int(a.wrapping_mul(b)))
}

/// `left / right` (BIRD User's Guide, "Operators"). By 0 it is the fault `ZeroDivisor`.
pub fn over<'a>(left: &Value<'a>, right: &Value<'a>) -> Result<Value<'a>, Failure>
    ensures { Answers val_of result (over_of (val_of left.now) (val_of right.now)) }
{
    let a = int(left)?;
    let b = int(right)?;
    quotient(a, b)
}

fn quotient<'a>(a: u32, b: u32) -> Result<Value<'a>, Failure>
    ensures { Answers val_of result (quotient_of a b) }
{
    if b == 0 {
        return Err(Failure::Fault(FilterFault::ZeroDivisor));
    }
    Ok(Value::Int(a / b))
}
