//! Labels of the arms of a `case`.

ghost use Rattle.std.specs.Prelude.{◌≤◌, length, IfOk};
ghost use Rattle.filt_code.specs.Codes.{arms_before, labels_of};
ghost use Rattle.filt_meaning.specs.Items.{among};
ghost use Rattle.filt_meaning.specs.Trees as trees;
ghost use Rattle.filt_meaning.specs.Operators.{and_then, bool_in, matches_of};
ghost use Rattle.filt_meaning.specs.Seen.{val_of};
ghost use Rattle.filt_meaning.specs.Values.{VIntSet, VPairSet, VPrefixSet};
ghost use Rattle.filt_route.specs.Seen.{Gives, IsApplicable};

use crate::halt::{Halt, halted};
use crate::parts::bool;
use filt_meaning::{Labels, TArm, TStmt, Value};
use filt_sets::{IntSet, PairSet, PrefixSet};
use filt_values::matches;

/// How many arms stand before the first one whose labels have the value, or how many there are.
pub fn arms_before<'a>(arms: &'a [TArm<TStmt>], value: &Value<'a>) -> Result<usize, Halt>
    requires { IsApplicable (arms_before (labels_of arms.now) (val_of value.now)) }
    ensures before { Gives (λ n. n) result
        (arms_before (labels_of arms.now) (val_of value.now)) }
    ensures few { IfOk result (λ n. n ≤ length arms.now) }
{
    for n in 0..arms.len() {
        if has(&arms[n].labels, value)? {
            return Ok(n);
        }
    }
    Ok(arms.len())
}

/// Whether the value is among the labels.
fn has<'a>(labels: &'a Labels, value: &Value<'a>) -> Result<bool, Halt>
    requires { IsApplicable (trees.has labels.now (val_of value.now)) }
    ensures { Gives (λ b. b) result (trees.has labels.now (val_of value.now)) }
{
    match labels {
        Labels::Ints(set) => among_ints(set, value),
        Labels::Pairs(set) => among_pairs(set, value),
        Labels::Prefixes(set) => among_prefixes(set, value),
        Labels::Stuck => unreachable!(),
    }
}

fn among_ints<'a>(set: &'a IntSet, value: &Value<'a>) -> Result<bool, Halt>
    requires { IsApplicable (among (VIntSet set.now) (val_of value.now)) }
    ensures { Gives (λ b. b) result (among (VIntSet set.now) (val_of value.now)) }
{
    match value {
        Value::Int(_) => is_element(value, &Value::IntSet(set)),
        _ => unreachable!(),
    }
}

fn among_pairs<'a>(set: &'a PairSet, value: &Value<'a>) -> Result<bool, Halt>
    requires { IsApplicable (among (VPairSet set.now) (val_of value.now)) }
    ensures { Gives (λ b. b) result (among (VPairSet set.now) (val_of value.now)) }
{
    match value {
        Value::Pair(_, _) => is_element(value, &Value::PairSet(set)),
        _ => unreachable!(),
    }
}

fn among_prefixes<'a>(set: &'a PrefixSet, value: &Value<'a>) -> Result<bool, Halt>
    requires { IsApplicable (among (VPrefixSet set.now) (val_of value.now)) }
    ensures { Gives (λ b. b) result (among (VPrefixSet set.now) (val_of value.now)) }
{
    match value {
        Value::Prefix(_) => is_element(value, &Value::PrefixSet(set)),
        _ => unreachable!(),
    }
}

pub(crate) fn is_element<'a>(value: &Value<'a>, set: &Value<'a>) -> Result<bool, Halt>
    requires { IsApplicable (and_then (matches_of (val_of value.now) (val_of set.now)) bool_in) }
    ensures { Gives (λ b. b) result
        (and_then (matches_of (val_of value.now) (val_of set.now)) bool_in) }
{
    let answer = matches(value, set).map_err(halted)?;
    Ok(bool(&answer))
}
