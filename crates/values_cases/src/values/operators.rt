//! The operators that cases ask for.
use crate::values::asked::{Method, OfOne, OfTwo};
use filt_meaning::{Failure, ListFailure, Value};
use filt_values::{
    add, delete, empty, equal, filter, first, greater, greater_or_equal, ip, last, len, less,
    less_or_equal, matches, matches_not, minus, not, not_equal, over, pair, plus, prepend, times,
    truth,
};
use std::alloc::Global;

pub fn of_one<'a>(alloc: Global, operator: OfOne, value: &Value<'a>) -> Result<Value<'a>, Failure> {
    match operator {
        OfOne::If => truth(value),
        OfOne::Not => not(value),
        OfOne::Len => len(value),
        OfOne::First => first(value),
        OfOne::Last => last(value),
        OfOne::Ip => ip(value),
        OfOne::Empty => empty(alloc, value),
    }
}

pub fn of_two<'a>(
    operator: OfTwo,
    left: &Value<'a>,
    right: &Value<'a>,
) -> Result<Value<'a>, Failure> {
    match operator {
        OfTwo::Matches => matches(left, right),
        OfTwo::MatchesNot => matches_not(left, right),
        OfTwo::Equal => equal(left, right),
        OfTwo::NotEqual => not_equal(left, right),
        OfTwo::Less => less(left, right),
        OfTwo::LessOrEqual => less_or_equal(left, right),
        OfTwo::Greater => greater(left, right),
        OfTwo::GreaterOrEqual => greater_or_equal(left, right),
        OfTwo::Plus => plus(left, right),
        OfTwo::Minus => minus(left, right),
        OfTwo::Times => times(left, right),
        OfTwo::Over => over(left, right),
        OfTwo::Pair => pair(left, right),
    }
}

pub fn of_method<'a>(
    method: Method,
    list: Value<'a>,
    argument: &Value<'a>,
) -> Result<Value<'a>, ListFailure> {
    match method {
        Method::Prepend => prepend(list, argument),
        Method::Add => add(list, argument),
        Method::Delete => delete(list, argument),
        Method::Filter => filter(list, argument),
    }
}
