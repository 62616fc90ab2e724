ghost use Rattle.std.specs.Prelude.{◌≡◌};
ghost use Rattle.filt_meaning.specs.Operators.{not_of, truth_of};
ghost use Rattle.filt_meaning.specs.Seen.{val_of, Answers};

use crate::parts::bool;
use filt_meaning::{Failure, Value};

/// The value, where it is a truth value, as conditions want it (BIRD User's Guide, "Control
/// structures").
pub fn truth<'a>(value: &Value<'a>) -> Result<Value<'a>, Failure>
    ensures { Answers val_of result (truth_of (val_of value.now)) }
{
    let truth = bool(value)?;
    Ok(Value::Bool(truth))
}

/// `!value` (BIRD User's Guide, "Operators")
pub fn not<'a>(value: &Value<'a>) -> Result<Value<'a>, Failure>
    ensures { Answers val_of result (not_of (val_of value.now)) }
{
    let truth = bool(value)?;
    Ok(Value::Bool(!truth))
}

/// The contrary of an answer.
pub(crate) fn contrary<'a>(answer: Value<'a>) -> Result<Value<'a>, Failure>
    ensures { Answers val_of result (not_of (val_of answer.entry)) }
{
    not(&answer)
}
