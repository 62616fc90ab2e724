// What is refused of the operands of operators.

ghost use Rattle.std.specs.Prelude.{◌≡◌};
ghost use Rattle.filt_types.specs.declared.refusal.Cause.TheVariants as causes;
ghost use Rattle.filt_types.specs.Expressions as expressions;
ghost use Rattle.filt_types.specs.Expressions.{is_other, is_taken, wants, gives_where, are_taken};
ghost use Rattle.filt_types.specs.Items.{sort_where};
ghost use Rattle.filt_types.specs.Refusals.{first_in, refused_if};
ghost use Rattle.filt_meaning.specs.Rules as rules;
ghost use Rattle.filt_meaning.specs.Rules.{rule_of, rule_of_one};
ghost use Rattle.filt_types.specs.Walk.{bare, said_of};

use crate::judged::Judged;
use crate::refusal::{Cause, Refusal, note_if};
use filt_meaning::Sort;
use filt_meaning::sorts::{
    Operator, Single, takes, takes_left, takes_one, takes_right, value_sort, value_sort_of_one,
};

// ---- two operands

fn given(operator: Operator, left: Option<Sort>, right: Option<Sort>) -> Option<Sort>
    ensures { result
        ≡ gives_where (are_taken (rule_of operator).takes left right) (rule_of operator).gives
        left }
{
    match left {
        None => None,
        Some(left) => match right {
            None => None,
            Some(right) => {
                if takes(operator, left, right) {
                    return Some(value_sort(operator, left));
                }
                None
            }
        },
    }
}

fn disagree(operator: Operator, left: Option<Sort>, right: Option<Sort>) -> bool
    ensures { result ≡ expressions.disagree (rule_of operator).takes left right }
{
    match left {
        None => false,
        Some(left) => match right {
            None => false,
            Some(right) => {
                let each = takes_left(operator, left) & takes_right(operator, right);
                each & !takes(operator, left, right)
            }
        },
    }
}

fn is_other_left(operator: Operator, sort: Option<Sort>) -> bool
    ensures { result ≡ is_other (rules.left_of (rule_of operator).takes) sort }
{
    match sort {
        None => false,
        Some(sort) => !takes_left(operator, sort),
    }
}

fn is_other_right(operator: Operator, sort: Option<Sort>) -> bool
    ensures { result ≡ is_other (rules.right_of (rule_of operator).takes) sort }
{
    match sort {
        None => false,
        Some(sort) => !takes_right(operator, sort),
    }
}

pub(crate) fn want_left(operator: Operator, judged: Judged, first: &mut Option<Refusal>)
    ensures { first.new
        ≡ first_in first.old (wants (rules.left_of (rule_of operator).takes) (bare judged)) }
{
    let is_refused = is_other_left(operator, judged.sort);
    note_if(first, is_refused, judged.at, Cause::Mismatch);
}

pub(crate) fn want_right(operator: Operator, judged: Judged, first: &mut Option<Refusal>)
    ensures { first.new
        ≡ first_in first.old (wants (rules.right_of (rule_of operator).takes) (bare judged)) }
{
    let is_refused = is_other_right(operator, judged.sort);
    note_if(first, is_refused, judged.at, Cause::Mismatch);
}

/// The whole of an operator and its operands.
pub(crate) fn of_two(
    at: usize,
    operator: Operator,
    left: Judged,
    right: Judged,
    first: &mut Option<Refusal>,
) -> Judged
    ensures judged { result
        ≡ said_of (expressions.of_two at (rule_of operator) (bare left) (bare right)) }
    ensures first { first.new
        ≡ first_in first.old (refused_if (expressions.disagree (rule_of operator).takes left.sort
        right.sort) at causes.Mismatch) }
{
    let is_refused = disagree(operator, left.sort, right.sort);
    note_if(first, is_refused, at, Cause::Mismatch);
    let sort = given(operator, left.sort, right.sort);
    Judged { at, sort }
}

// ---- one operand

/// The whole of an operator and its operand.
pub(crate) fn of_one(
    at: usize,
    operator: Single,
    operand: Judged,
    first: &mut Option<Refusal>,
) -> Judged
    ensures judged { result
        ≡ said_of (expressions.of_one at (rule_of_one operator) (bare operand)) }
    ensures first { first.new
        ≡ first_in first.old (expressions.of_one at (rule_of_one operator)
        (bare operand)).refusals }
{
    match operand.sort {
        None => Judged { at, sort: None },
        Some(sort) => {
            let is_taken = takes_one(operator, sort);
            note_if(first, !is_taken, operand.at, Cause::Mismatch);
            Judged {
                at,
                sort: sort_if(is_taken, value_sort_of_one(operator, sort)),
            }
        }
    }
}

/// The sort where something holds.
pub(crate) fn sort_if(test: bool, sort: Sort) -> Option<Sort>
    ensures { result ≡ sort_where test sort }
{
    if test { Some(sort) } else { None }
}
