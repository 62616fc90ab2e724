//! What operators give.

ghost use Rattle.filt_code.specs.Codes.{one_of, two_of};
ghost use Rattle.filt_meaning.specs.Meaning.{compare_of, factor_of, method_of, term_of};
ghost use Rattle.filt_meaning.specs.Seen.{val_of, Answers, Builds};
ghost use Rattle.filt_route.specs.Seen.{Gives, IsApplicable};

use crate::halt::{Halt, halted, list_halted};
use conf_ast::filters::{AddOp, CompareOp, MethodKind, MulOp, Property};
use filt_code::{OfOne, OfTwo};
use filt_meaning::{Failure, ListFailure, Value};
use filt_values::{
    add, delete, empty, equal, filter, first, greater, greater_or_equal, ip, last, len, less,
    less_or_equal, matches, matches_not, minus, not, not_equal, over, pair, plus, prepend, times,
    truth,
};
use std::alloc::Global;

/// What an operator gives of a value that it takes.
pub fn apply_one<'a>(alloc: Global, operator: OfOne, value: &Value<'a>) -> Result<Value<'a>, Halt>
    requires { IsApplicable (one_of operator (val_of value.now)) }
    ensures { Gives val_of result (one_of operator (val_of value.now)) }
{
    one(alloc, operator, value).map_err(halted)
}

fn one<'a>(alloc: Global, operator: OfOne, value: &Value<'a>) -> Result<Value<'a>, Failure>
    ensures { Answers val_of result (one_of operator (val_of value.now)) }
{
    match operator {
        OfOne::Not => not(value),
        OfOne::Truth => truth(value),
        OfOne::Empty => empty(alloc, value),
        OfOne::Property(Property::Len) => len(value),
        OfOne::Property(Property::First) => first(value),
        OfOne::Property(Property::Last) => last(value),
        OfOne::Property(Property::Ip) => ip(value),
    }
}

/// What an operator gives of two values that it takes.
pub fn apply_two<'a>(operator: OfTwo, left: Value<'a>, right: &Value<'a>) -> Result<Value<'a>, Halt>
    requires { IsApplicable (two_of operator (val_of left) (val_of right.now)) }
    ensures { Gives val_of result (two_of operator (val_of left.entry) (val_of right.now)) }
{
    two(operator, left, right).map_err(list_halted)
}

fn two<'a>(operator: OfTwo, left: Value<'a>, right: &Value<'a>) -> Result<Value<'a>, ListFailure>
    ensures { Builds val_of result (two_of operator (val_of left.entry) (val_of right.now)) }
{
    match operator {
        OfTwo::Method(kind) => method(kind, left, right),
        OfTwo::Pair => Ok(pair(&left, right)?),
        OfTwo::Factor(op) => Ok(factor(op, &left, right)?),
        OfTwo::Term(op) => Ok(term(op, &left, right)?),
        OfTwo::Compare(op) => Ok(compare(op, &left, right)?),
    }
}

fn method<'a>(
    kind: MethodKind,
    list: Value<'a>,
    argument: &Value<'a>,
) -> Result<Value<'a>, ListFailure>
    ensures { Builds val_of result (method_of kind (val_of list.entry) (val_of argument.now)) }
{
    match kind {
        MethodKind::Prepend => prepend(list, argument),
        MethodKind::Add => add(list, argument),
        MethodKind::Delete => delete(list, argument),
        MethodKind::Filter => filter(list, argument),
    }
}

fn factor<'a>(op: MulOp, left: &Value<'a>, right: &Value<'a>) -> Result<Value<'a>, Failure>
    ensures { Answers val_of result (factor_of op (val_of left.now) (val_of right.now)) }
{
    match op {
        MulOp::Times => times(left, right),
        MulOp::Over => over(left, right),
    }
}

fn term<'a>(op: AddOp, left: &Value<'a>, right: &Value<'a>) -> Result<Value<'a>, Failure>
    ensures { Answers val_of result (term_of op (val_of left.now) (val_of right.now)) }
{
    match op {
        AddOp::Plus => plus(left, right),
        AddOp::Minus => minus(left, right),
    }
}

pub(crate) fn apply_compare<'a>(
    op: CompareOp,
    left: &Value<'a>,
    right: &Value<'a>,
) -> Result<Value<'a>, Halt>
    requires { IsApplicable (compare_of op (val_of left.now) (val_of right.now)) }
    ensures { Gives val_of result (compare_of op (val_of left.now) (val_of right.now)) }
{
    compare(op, left, right).map_err(halted)
}

fn compare<'a>(op: CompareOp, left: &Value<'a>, right: &Value<'a>) -> Result<Value<'a>, Failure>
    ensures { Answers val_of result (compare_of op (val_of left.now) (val_of right.now)) }
{
    match op {
        CompareOp::Equal => equal(left, right),
        CompareOp::NotEqual => not_equal(left, right),
        CompareOp::Less => less(left, right),
        CompareOp::LessOrEqual => less_or_equal(left, right),
        CompareOp::Greater => greater(left, right),
        CompareOp::GreaterOrEqual => greater_or_equal(left, right),
        CompareOp::Matches => matches(left, right),
        CompareOp::MatchesNot => matches_not(left, right),
    }
}
