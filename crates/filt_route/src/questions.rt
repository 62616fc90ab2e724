//! Conditions that need no operands. Most of them are over what is there already, and are answered
//! without a value; where an attribute isn't there, the operators answer.

ghost use Rattle.std.specs.Prelude.{◌≡◌, [], Err, Ok, IfSome, MatchOption};
ghost use Rattle.attrs.specs.Clist.{has_pair, same_pair};
ghost use Rattle.attrs.specs.declared.judge.FilterFault.TheVariants as faults;
ghost use Rattle.filt_code.specs.Codes.{number_in, question, within};
ghost use Rattle.filt_meaning.specs.Attributes.{attribute_of};
ghost use Rattle.filt_meaning.specs.Flow.{Done, Frame, and_then, plainly};
ghost use Rattle.filt_meaning.specs.Meaning.{compare_of, property_of};
ghost use Rattle.filt_meaning.specs.Names.{Around};
ghost use Rattle.filt_meaning.specs.Trees as trees;
ghost use Rattle.filt_meaning.specs.declared.value.Failure.TheVariants.{Fault};
ghost use Rattle.filt_meaning.specs.Operators as operators;
ghost use Rattle.filt_meaning.specs.Operators.{bool_in, matches_of};
ghost use Rattle.filt_meaning.specs.Seen.{val_of};
ghost use Rattle.filt_meaning.specs.Values.{VBool, VInt, VPair, VPrefix, VPrefixSet};
ghost use Rattle.filt_route.specs.Seen.{around_in, test_in, Gives, IsApplicable, IsUnstuck, Yields};

use crate::halt::Halt;
use crate::labels::is_element;
use crate::operators::{apply_compare, apply_one};
use crate::parts::bool;
use crate::running::Running;
use crate::surroundings::Surroundings;
use attrs::{Clist, FilterFault};
use bits_ip::Prefix;
use conf_ast::filters::{Attribute, CompareOp, Property};
use filt_code::{Number, OfOne, Question};
use filt_meaning::{TTest, Value};
use filt_sets::PrefixSet;

/// The answer.
pub fn asked<'a>(
    around: &Surroundings<'a>,
    what: Question<'a>,
    attrs: &Running<'a>,
) -> Result<bool, Halt>
    requires { IsUnstuck (and_then (question (around_in around.now) what [] attrs.now)
        (λ v attrs. plainly (bool_in v) attrs)) }
    ensures { (vals : Frame) → Yields (λ b. b) result attrs.now
        (and_then (question (around_in around.now) what.entry vals attrs.now)
        (λ v attrs. plainly (bool_in v) attrs)) }
{
    match what {
        Question::Within(number, low, high) => is_within(around, number, low, high, attrs),
        Question::Test(test) => tested(around, &test, attrs),
        Question::NetIn(set) => net_in(set, around.net),
        Question::Defined(a) => Ok(attrs.is_defined(a)),
    }
}

/// The answer, where it is one that most conditions ask for, and is there.
#[inline(always)]
pub fn answered<'a>(
    around: &Surroundings<'a>,
    what: &Question<'a>,
    attrs: &Running<'a>,
) -> Option<bool>
    ensures { (vals : Frame) → IfSome result (λ b. question (around_in around.now) what.now vals
        attrs.now
        ≡ Done (VBool b) attrs.now) }
{
    match what {
        Question::Within(number, low, high) => {
            let found = held(around, *number, attrs)?;
            Some(within(*low, *high, found))
        }
        Question::Test(test) => {
            let holds = test_truth(test, attrs)?;
            Some(holds)
        }
        _ => None,
    }
}

/// Whether a number that the route holds is within these.
fn is_within<'a>(
    around: &Surroundings<'a>,
    number: Number,
    low: u32,
    high: u32,
    attrs: &Running<'a>,
) -> Result<bool, Halt>
    ensures { Gives (λ b. b) result (operators.and_then
        (number_in (around_in around.now) number attrs.now)
        (λ n. Ok (within low high n))) }
{
    match held(around, number, attrs) {
        Some(found) => Ok(within(low, high, found)),
        None => Err(Halt::Fault(FilterFault::Undefined)),
    }
}

fn net_in<'a>(set: &'a PrefixSet, net: &Prefix) -> Result<bool, Halt>
    ensures { Gives (λ b. b) result
        (operators.and_then (matches_of (VPrefix net.now) (VPrefixSet set.now)) bool_in) }
{
    is_element(&Value::Prefix(*net), &Value::PrefixSet(set))
}

fn tested<'a>(around: &Surroundings<'a>, what: &TTest, attrs: &Running<'a>) -> Result<bool, Halt>
    requires { IsUnstuck (and_then (trees.test (around_in around.now) what.now [] attrs.now)
        (λ v attrs. plainly (bool_in v) attrs)) }
    ensures { (vals : Frame) → Yields (λ b. b) result attrs.now
        (and_then (trees.test (around_in around.now) what.now vals attrs.now)
        (λ v attrs. plainly (bool_in v) attrs)) }
{
    match test_truth(what, attrs) {
        Some(holds) => Ok(holds),
        None => tested_by_operators(around, *what, attrs),
    }
}

#[inline(never)]
fn tested_by_operators<'a>(
    around: &Surroundings<'a>,
    what: TTest,
    attrs: &Running<'a>,
) -> Result<bool, Halt>
    requires { IsApplicable
        (operators.and_then (test_in (around_in around.now) what attrs.now) bool_in) }
    ensures { Gives (λ b. b) result
        (operators.and_then (test_in (around_in around.now) what attrs.now) bool_in) }
{
    let found = test(around, what, attrs)?;
    Ok(bool(&found))
}

/// What a comparison of what the route holds comes to.
fn test<'a>(around: &Surroundings<'a>, what: TTest, attrs: &Running<'a>) -> Result<Value<'a>, Halt>
    requires { IsApplicable (test_in (around_in around.now) what attrs.now) }
    ensures { Gives val_of result (test_in (around_in around.now) what attrs.now) }
{
    match what {
        TTest::Attribute(a, op, number) => attribute_test(around, a, op, number, attrs),
        TTest::Property(a, property, op, number) => {
            property_test(around, a, property, op, number, attrs)
        }
        TTest::Pair(first, second, op, a) => pair_test(around, first, second, op, a, attrs),
    }
}

fn attribute_test<'a>(
    around: &Surroundings<'a>,
    a: Attribute,
    op: CompareOp,
    number: u32,
    attrs: &Running<'a>,
) -> Result<Value<'a>, Halt>
    requires { IsApplicable (operators.and_then
        (attribute_of (around_in around.now) a attrs.now)
        (λ v. compare_of op v (VInt number))) }
    ensures { Gives val_of result (operators.and_then
        (attribute_of (around_in around.now) a attrs.now)
        (λ v. compare_of op v (VInt number))) }
{
    let held = attrs.read(around, a)?;
    apply_compare(op, &held, &Value::Int(number))
}

fn property_test<'a>(
    around: &Surroundings<'a>,
    a: Attribute,
    property: Property,
    op: CompareOp,
    number: u32,
    attrs: &Running<'a>,
) -> Result<Value<'a>, Halt>
    requires { IsApplicable (operators.and_then
        (attribute_of (around_in around.now) a attrs.now)
        (λ v. operators.and_then (property_of property v) (λ w. compare_of op w (VInt number)))) }
    ensures { Gives val_of result (operators.and_then
        (attribute_of (around_in around.now) a attrs.now)
        (λ v. operators.and_then (property_of property v) (λ w. compare_of op w (VInt number)))) }
{
    let held = attrs.read(around, a)?;
    let part = apply_one(around.alloc, OfOne::Property(property), &held)?;
    apply_compare(op, &part, &Value::Int(number))
}

fn pair_test<'a>(
    around: &Surroundings<'a>,
    first: u16,
    second: u16,
    op: CompareOp,
    a: Attribute,
    attrs: &Running<'a>,
) -> Result<Value<'a>, Halt>
    requires { IsApplicable (operators.and_then
        (attribute_of (around_in around.now) a attrs.now)
        (λ v. compare_of op (VPair (first, second)) v)) }
    ensures { Gives val_of result (operators.and_then
        (attribute_of (around_in around.now) a attrs.now)
        (λ v. compare_of op (VPair (first, second)) v)) }
{
    let held = attrs.read(around, a)?;
    apply_compare(op, &Value::Pair(first, second), &held)
}

/// Whether a test holds, where it asks for a pair among the communities.
#[inline(always)]
fn test_truth<'a>(what: &TTest, attrs: &Running<'a>) -> Option<bool>
    ensures { (place : Around) (vals : Frame) → IfSome result (λ b. trees.test place what.now
        vals attrs.now
        ≡ Done (VBool b) attrs.now) }
{
    match what {
        TTest::Pair(first, second, compare, a) => {
            let is = pair_holds(*first, *second, *compare, *a, attrs)?;
            Some(is)
        }
        _ => None,
    }
}

/// Whether a pair is in the list of communities.
#[inline(always)]
fn pair_holds(
    first: u16,
    second: u16,
    compare: CompareOp,
    a: Attribute,
    attrs: &Running<'_>,
) -> Option<bool>
    ensures { (place : Around) → IfSome result (λ b. and_then
        (plainly (attribute_of place a attrs.now) attrs.now)
        (λ list attrs. plainly (compare_of compare (VPair (first, second)) list) attrs)
        ≡ Done (VBool b) attrs.now) }
{
    match a {
        Attribute::BgpCommunity => {
            let is = has_pair(attrs.list(), first, second);
            match compare {
                CompareOp::Matches => Some(is),
                CompareOp::MatchesNot => Some(!is),
                _ => None,
            }
        }
        _ => None,
    }
}

/// A number that the route holds, where it does.
#[inline(always)]
fn held<'a>(around: &Surroundings<'a>, number: Number, attrs: &Running<'a>) -> Option<u32>
    ensures { MatchOption result
        (number_in (around_in around.now) number attrs.now ≡ Err (Fault faults.Undefined))
        (λ n. number_in (around_in around.now) number attrs.now ≡ Ok n) }
{
    match number {
        Number::NetLength => Some(u32::from(around.net.len())),
        Number::Preference => Some(attrs.pref()),
        Number::Med => attrs.med(),
        Number::LocalPref => attrs.lp(),
        Number::IgpMetric => attrs.igp(),
        Number::PathLength => Some(attrs.path().as_slice().len() as u32),
        Number::First => Some(attrs.path().as_slice().first().copied().unwrap_or(0)),
        Number::Last => Some(attrs.path().as_slice().last().copied().unwrap_or(0)),
        Number::Communities => Some(attrs.list().as_slice().len() as u32),
    }
}

#[inline(always)]
fn within(low: u32, high: u32, number: u32) -> bool
    ensures { result ≡ within low high number }
{
    low <= number && number <= high
}

#[inline(always)]
fn has_pair(list: &Clist, first: u16, second: u16) -> bool
    ensures { result ≡ has_pair list.now (first, second) }
{
    let pairs = list.as_slice();
    pairs.iter().any(|pair| is_pair(pair, first, second))
}

#[inline(always)]
fn is_pair(pair: &(u16, u16), first: u16, second: u16) -> bool
    ensures { result ≡ same_pair pair.now (first, second) }
{
    pair.0 == first && pair.1 == second
}
