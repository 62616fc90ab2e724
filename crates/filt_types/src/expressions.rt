// The pass over expressions: the sort of each, and the first refusal of all.

ghost use Rattle.std.specs.Prelude.{◌≡◌, ◌++◌, Some, drop};
ghost use Rattle.conf_ast.specs.Filters.{expression_of, accessed, multiplied, added, joined, Named};
ghost use Rattle.conf_ast.specs.Filters.{Paired, Plain};
ghost use Rattle.filt_types.specs.Expressions as expressions;
ghost use Rattle.filt_types.specs.Expressions.{all_refusals, arguments_wanted, arguments_fit};
ghost use Rattle.filt_types.specs.Expressions.{given_sort, is_other, is_taken, wants};
ghost use Rattle.filt_types.specs.Refusals.{first_in};
ghost use Rattle.filt_meaning.specs.Rules as rules;
ghost use Rattle.filt_meaning.specs.Rules.{same_sort};
ghost use Rattle.filt_types.specs.Scenes.{Scene, Variables, function_of};
ghost use Rattle.filt_types.specs.Seen.{scene_in, variables_in, signature_of};
ghost use Rattle.filt_types.specs.Walk.{access_of, accesses_of, all_judged, bare, call_at};
ghost use Rattle.filt_types.specs.Walk.{front_of, function_seen, is_of_parameter, judged};
ghost use Rattle.filt_types.specs.Walk.{judged_of, operands_of, said_of, wants_parameter};
ghost use Rattle.filt_meaning.specs.Rules.{rule_of};
ghost use Rattle.filt_types.specs.Walk.{where_alone, with_access};

use crate::items::{is_over, number_in};
use crate::judged::Judged;
use crate::refusal::{Cause, Refusal, note, note_if};
use crate::rules::{of_one, of_two, want_left, want_right};
use crate::scene::{Seen, constant_named, function_named, variable_named};
use crate::words::{and_known, mask, named, plain, set, sound};
use conf_ast::Name;
use conf_ast::filters::{Access, AddOp, Atom, Constant, Expr, LogicalOp, Method, MulOp};
use filt_meaning::sorts::{Operator, Single, is};
use filt_meaning::{Sort, TFunction};

/// The judgement of an expression. It keeps the first of what is refused in it.
#[cycle(expressions)]
pub fn judge(seen: Seen<'_>, e: &Expr, first: &mut Option<Refusal>) -> Judged
    ensures judged { result ≡ said_of (judged_of seen.entry e.now) }
    ensures first { first.new ≡ first_in first.old (judged_of seen.entry e.now).refusals }
{
    match e {
        Expr::Atom(word) => plain(*word),
        Expr::Name(name) => named(seen, *name, first),
        Expr::Call {
            name,
            arguments,
            ..
        } => called(seen, *name, arguments, first),
        Expr::Group { at, inner } => grouped(*at, judge(seen, inner, first)),
        Expr::Pair {
            at,
            first: left,
            second,
        } => pair(seen, *at, left, second, first),
        Expr::Set { at, items } => set(seen, *at, items, first),
        Expr::Mask { at, items } => mask(seen, *at, items, first),
        Expr::Defined { at, .. } => sound(*at, Sort::Bool),
        Expr::MethodCall {
            method,
            list,
            argument,
            ..
        } => method_call(seen, *method, list, argument, first),
        Expr::Postfix(operand, more) => accesses(seen, operand, more, first),
        Expr::Not { at, operand } => {
            let operand = judge(seen, operand, first);
            of_one(*at, Single::Negating, operand, first)
        }
        Expr::Product(operand, more) => factors(seen, operand, more, first),
        Expr::Sum(operand, more) => terms(seen, operand, more, first),
        Expr::Compare(compare, left, right) => {
            let left = judge(seen, left, first);
            let operator = Operator::Comparing(*compare);
            with_right(seen, left.at, operator, left, right, first)
        }
        Expr::Logical(operand, more) => joints(seen, operand, more, first),
    }
}

/// `method(list, argument)`
#[cycle(expressions)]
fn method_call(
    seen: Seen<'_>,
    method: Method,
    list: &Expr,
    argument: &Expr,
    first: &mut Option<Refusal>,
) -> Judged
    ensures judged { result
        ≡ said_of (expressions.of_two method.at (rules.method method.kind)
        (judged_of seen.entry list.now) (judged_of seen.entry argument.now)) }
    ensures first { first.new
        ≡ first_in first.old (expressions.of_two method.at (rules.method method.kind)
        (judged_of seen.entry list.now) (judged_of seen.entry argument.now)).refusals }
{
    let list = judge(seen, list, first);
    let operator = Operator::Method(method.kind);
    with_right(seen, method.at, operator, list, argument, first)
}

fn grouped(at: usize, inner: Judged) -> Judged
    ensures { result ≡ said_of (expressions.grouped at (bare inner)) }
{
    Judged {
        at,
        sort: inner.sort,
    }
}

/// An operator with its left operand, which is judged already, and its right one.
#[cycle(expressions)]
pub fn with_right(
    seen: Seen<'_>,
    at: usize,
    operator: Operator,
    left: Judged,
    e: &Expr,
    first: &mut Option<Refusal>,
) -> Judged
    ensures judged { result
        ≡ said_of (expressions.of_two at (rule_of operator) (bare left)
        (judged_of seen.entry e.now)) }
    ensures first { first.new
        ≡ first_in first.old (expressions.of_two at (rule_of operator) (bare left)
        (judged_of seen.entry e.now)).refusals }
{
    want_left(operator, left, first);
    let right = judge(seen, e, first);
    want_right(operator, right, first);
    of_two(at, operator, left, right, first)
}

// ---- chains

#[cycle(expressions)]
fn factors(
    seen: Seen<'_>,
    operand: &Expr,
    more: &[(MulOp, Expr)],
    first: &mut Option<Refusal>,
) -> Judged
    ensures judged { result
        ≡ said_of (judged seen.entry (multiplied (expression_of operand.now)
        (operands_of more.now))) }
    ensures first { first.new
        ≡ first_in first.old (judged seen.entry (multiplied (expression_of operand.now)
        (operands_of more.now))).refusals }
{
    let mut left = judge(seen, operand, first);
    for x in more {
        left = with_right(seen, left.at, Operator::Arithmetic, left, &x.1, first);
    }
    left
}

#[cycle(expressions)]
fn terms(
    seen: Seen<'_>,
    operand: &Expr,
    more: &[(AddOp, Expr)],
    first: &mut Option<Refusal>,
) -> Judged
    ensures judged { result
        ≡ said_of (judged seen.entry (added (expression_of operand.now) (operands_of more.now))) }
    ensures first { first.new
        ≡ first_in first.old (judged seen.entry (added (expression_of operand.now)
        (operands_of more.now))).refusals }
{
    let mut left = judge(seen, operand, first);
    for x in more {
        left = with_right(seen, left.at, Operator::Arithmetic, left, &x.1, first);
    }
    left
}

#[cycle(expressions)]
fn joints(
    seen: Seen<'_>,
    operand: &Expr,
    more: &[(LogicalOp, Expr)],
    first: &mut Option<Refusal>,
) -> Judged
    ensures judged { result
        ≡ said_of (judged seen.entry (joined (expression_of operand.now) (operands_of more.now))) }
    ensures first { first.new
        ≡ first_in first.old (judged seen.entry (joined (expression_of operand.now)
        (operands_of more.now))).refusals }
{
    let mut left = judge(seen, operand, first);
    for x in more {
        left = with_right(seen, left.at, Operator::Joining, left, &x.1, first);
    }
    left
}

/// What stands behind an operand's dots.
#[cycle(expressions)]
fn accesses(
    seen: Seen<'_>,
    operand: &Expr,
    more: &[Access<Expr>],
    first: &mut Option<Refusal>,
) -> Judged
    ensures judged { result
        ≡ said_of (judged seen.entry (accessed (expression_of operand.now)
        (accesses_of more.now))) }
    ensures first { first.new
        ≡ first_in first.old (judged seen.entry (accessed (expression_of operand.now)
        (accesses_of more.now))).refusals }
{
    let mut left = judge(seen, operand, first);
    for x in more {
        left = access(seen, left, x, first);
    }
    left
}

#[cycle(expressions)]
fn access(
    seen: Seen<'_>,
    operand: Judged,
    part: &Access<Expr>,
    first: &mut Option<Refusal>,
) -> Judged
    ensures judged { result
        ≡ said_of (with_access (scene_in seen.entry) (variables_in seen.entry) (bare operand)
        (access_of part.now)) }
    ensures first { first.new
        ≡ first_in first.old (with_access (scene_in seen.entry) (variables_in seen.entry)
        (bare operand) (access_of part.now)).refusals }
{
    match part {
        Access::Property(property) => {
            of_one(operand.at, Single::Property(*property), operand, first)
        }
        Access::Method {
            method,
            argument,
            ..
        } => {
            let operator = Operator::Method(method.kind);
            with_right(seen, operand.at, operator, operand, argument, first)
        }
    }
}

// ---- pairs

/// `(a, b)`
#[cycle(expressions)]
fn pair(seen: Seen<'_>, at: usize, left: &Expr, right: &Expr, first: &mut Option<Refusal>) -> Judged
    ensures judged { result
        ≡ said_of (judged seen.entry (Paired at (expression_of left.now)
        (expression_of right.now))) }
    ensures first { first.new
        ≡ first_in first.old (judged seen.entry (Paired at (expression_of left.now)
        (expression_of right.now))).refusals }
{
    let a = judge(seen, left, first);
    want_left(Operator::Pairing, a, first);
    let b = judge(seen, right, first);
    want_right(Operator::Pairing, b, first);
    let whole = of_two(at, Operator::Pairing, a, b, first);
    over_16_bits(written(seen, left), a.at, first);
    over_16_bits(written(seen, right), b.at, first);
    whole
}

fn over_16_bits(number: Option<u32>, at: usize, first: &mut Option<Refusal>)
    ensures { first.new ≡ first_in first.old (expressions.over_16_bits number at) }
{
    let is_refused = is_over(65535, number);
    note_if(first, is_refused, at, Cause::Limit);
}

/// The number that an expression is written as, or that the constant is which it names.
#[cycle(written)]
fn written(seen: Seen<'_>, e: &Expr) -> Option<u32>
    ensures { result
        ≡ expressions.written (scene_in seen.entry) (variables_in seen.entry)
        (expression_of e.now) }
{
    match e {
        Expr::Atom(word) => written_word(*word),
        Expr::Name(name) => written_name(seen, *name),
        Expr::Call { .. } => None,
        Expr::Group { .. } => None,
        Expr::Pair { .. } => None,
        Expr::Set { .. } => None,
        Expr::Mask { .. } => None,
        Expr::Defined { .. } => None,
        Expr::MethodCall { .. } => None,
        Expr::Postfix(operand, more) => written_alone(seen, operand, more.is_empty()),
        Expr::Not { .. } => None,
        Expr::Product(operand, more) => written_alone(seen, operand, more.is_empty()),
        Expr::Sum(operand, more) => written_alone(seen, operand, more.is_empty()),
        Expr::Compare(_, _, _) => None,
        Expr::Logical(operand, more) => written_alone(seen, operand, more.is_empty()),
    }
}

#[cycle(written)]
fn written_alone(seen: Seen<'_>, e: &Expr, is_alone: bool) -> Option<u32>
    ensures { result
        ≡ where_alone is_alone (expressions.written (scene_in seen.entry) (variables_in seen.entry)
        (expression_of e.now)) }
{
    if is_alone {
        return written(seen, e);
    }
    None
}

fn written_word(word: Atom) -> Option<u32>
    ensures { (scene : Scene) (vs : Variables) → result
        ≡ expressions.written scene vs (Plain word) }
{
    match word {
        Atom::Number { value, .. } => Some(value),
        _ => None,
    }
}

fn written_name(seen: Seen<'_>, name: Name) -> Option<u32>
    ensures { result
        ≡ expressions.written (scene_in seen.entry) (variables_in seen.entry) (Named name) }
{
    match variable_named(seen, name) {
        Some(_) => None,
        None => number_in(constant_named(seen, name)),
    }
}

// ---- calls

/// A call for its value.
#[cycle(expressions)]
fn called(seen: Seen<'_>, name: Name, arguments: &[Expr], first: &mut Option<Refusal>) -> Judged
    ensures judged { result
        ≡ said_of (expressions.called name (function_of (scene_in seen.entry) name)
        (all_judged seen.entry arguments.now)) }
    ensures first { first.new
        ≡ first_in first.old (expressions.called name (function_of (scene_in seen.entry) name)
        (all_judged seen.entry arguments.now)).refusals }
{
    let is_refused = gives_nothing(function_named(seen, name));
    note_if(first, is_refused, name.at, Cause::Mismatch);
    let sort = call(seen, name, arguments, first);
    Judged { at: name.at, sort }
}

fn gives_nothing(function: Option<&TFunction>) -> bool
    ensures { result ≡ expressions.gives_nothing (function_seen function.entry) }
{
    match function {
        None => false,
        Some(function) => function.gives.is_none(),
    }
}

/// The sort of what a call gives, and what is refused of it where its value is not wanted.
#[cycle(expressions)]
pub fn call(
    seen: Seen<'_>,
    name: Name,
    arguments: &[Expr],
    first: &mut Option<Refusal>,
) -> Option<Sort>
    ensures sort { result
        ≡ given_sort (function_of (scene_in seen.entry) name)
        (all_judged seen.entry arguments.now) }
    ensures first { first.new
        ≡ first_in first.old (expressions.call name (function_of (scene_in seen.entry) name)
        (all_judged seen.entry arguments.now)) }
{
    match function_named(seen, name) {
        None => {
            note(first, name.at, Cause::UnknownName);
            judge_each(seen, arguments, first);
            None
        }
        Some(function) => call_of(seen, name.at, function, arguments, first),
    }
}

#[cycle(expressions)]
fn call_of(
    seen: Seen<'_>,
    at: usize,
    function: &TFunction,
    arguments: &[Expr],
    first: &mut Option<Refusal>,
) -> Option<Sort>
    ensures sort { result
        ≡ given_sort (Some (signature_of function.now)) (all_judged seen.entry arguments.now) }
    ensures first { first.new
        ≡ first_in first.old (call_at at (signature_of function.now)
        (all_judged seen.entry arguments.now)) }
{
    if function.parameters.len() == arguments.len() {
        let fit = arguments_are(seen, &function.parameters, arguments, first);
        return and_known(fit, function.gives);
    }
    note(first, at, Cause::Mismatch);
    judge_each(seen, arguments, first);
    None
}

/// What is refused of expressions between commas.
#[cycle(expressions)]
pub fn judge_each(seen: Seen<'_>, es: &[Expr], first: &mut Option<Refusal>)
    ensures { first.new ≡ first_in first.old (all_refusals (all_judged seen.entry es.now)) }
{
    for e in es {
        let _judged = judge(seen, e, first);
    }
}

/// Whether the arguments are of their parameters' sorts.
#[cycle(expressions)]
fn arguments_are(
    seen: Seen<'_>,
    parameters: &[Sort],
    arguments: &[Expr],
    first: &mut Option<Refusal>,
) -> bool
    ensures fit { result ≡ arguments_fit parameters.now (all_judged seen.entry arguments.now) }
    ensures first { first.new
        ≡ first_in first.old (all_refusals (all_judged seen.entry arguments.now) ++
        arguments_wanted parameters.now (all_judged seen.entry arguments.now)) }
{
    let mut fit = true;
    let mut rest = parameters;
    for e in arguments {
        let judged = judge(seen, e, first);
        let fits = argument_is(front(rest), judged, first);
        fit &= fits;
        rest = behind(rest);
    }
    fit & rest.is_empty()
}

fn front(sorts: &[Sort]) -> Option<Sort>
    ensures { result ≡ front_of sorts.now }
{
    match sorts {
        [] => None,
        [sort, ..] => Some(*sort),
    }
}

fn behind(sorts: &[Sort]) -> &[Sort]
    ensures { result.now ≡ drop 1 sorts.now }
{
    match sorts {
        [] => sorts,
        [_, rest @ ..] => rest,
    }
}

fn argument_is(parameter: Option<Sort>, judged: Judged, first: &mut Option<Refusal>) -> bool
    ensures fits { result ≡ is_of_parameter parameter judged.sort }
    ensures first { first.new ≡ first_in first.old (wants_parameter parameter (bare judged)) }
{
    match parameter {
        None => false,
        Some(sort) => {
            want_sort(sort, judged, first);
            has_sort(sort, judged.sort)
        }
    }
}

/// The place of what was judged takes one sort.
pub fn want_sort(sort: Sort, judged: Judged, first: &mut Option<Refusal>)
    ensures { first.new ≡ first_in first.old (wants (same_sort sort) (bare judged)) }
{
    let is_refused = has_other_sort(sort, judged.sort);
    note_if(first, is_refused, judged.at, Cause::Mismatch);
}

/// Whether there is a sort, which is another one.
pub fn has_other_sort(sort: Sort, found: Option<Sort>) -> bool
    ensures { result ≡ is_other (same_sort sort) found }
{
    match found {
        None => false,
        Some(found) => !is(sort, found),
    }
}

fn has_sort(sort: Sort, found: Option<Sort>) -> bool
    ensures { result ≡ is_taken (same_sort sort) found }
{
    match found {
        None => false,
        Some(found) => is(sort, found),
    }
}

// ---- constants by their words

/// The constant of an attribute's values that an expression is, in parentheses or not.
#[cycle(constant)]
pub fn constant_word(e: &Expr) -> Option<Constant>
    ensures { result ≡ expressions.constant_word (expression_of e.now) }
{
    match e {
        Expr::Atom(word) => word_constant(*word),
        Expr::Name(_) => None,
        Expr::Call { .. } => None,
        Expr::Group { inner, .. } => constant_word(inner),
        Expr::Pair { .. } => None,
        Expr::Set { .. } => None,
        Expr::Mask { .. } => None,
        Expr::Defined { .. } => None,
        Expr::MethodCall { .. } => None,
        Expr::Postfix(operand, more) => constant_alone(operand, more.is_empty()),
        Expr::Not { .. } => None,
        Expr::Product(operand, more) => constant_alone(operand, more.is_empty()),
        Expr::Sum(operand, more) => constant_alone(operand, more.is_empty()),
        Expr::Compare(_, _, _) => None,
        Expr::Logical(operand, more) => constant_alone(operand, more.is_empty()),
    }
}

#[cycle(constant)]
fn constant_alone(e: &Expr, is_alone: bool) -> Option<Constant>
    ensures { result ≡ where_alone is_alone (expressions.constant_word (expression_of e.now)) }
{
    if is_alone {
        return constant_word(e);
    }
    None
}

fn word_constant(word: Atom) -> Option<Constant>
    ensures { result ≡ expressions.constant_word (Plain word) }
{
    match word {
        Atom::Constant { constant, .. } => Some(constant),
        _ => None,
    }
}
