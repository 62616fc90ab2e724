// Expressions. Each function answers a tree and the words after it; `depth_left` is how many more
// levels may be opened.

ghost use Rattle.std.specs.Prelude.{◌≡◌, ◌∷◌, ◌≤◌, IfOk};
ghost use Rattle.conf_lex.specs.declared.symbol.Symbol.TheVariants as sym;
ghost use Rattle.conf_lex.specs.declared.word.Word.{Word};
ghost use Rattle.conf_lex.specs.Agrees.{Agrees};
ghost use Rattle.expr_syntax.specs.Levels.{arguments_level};
ghost use Rattle.expr_syntax.specs.View.{derivations, method_tree, method_word};
ghost use Rattle.expr_syntax.specs.Inside.{access_of};
ghost use Rattle.expr_syntax.specs.View.{in_parentheses, arguments_tree, expr_trees};
ghost use Rattle.expr_syntax.specs.Readers.{expr_at, comparison_at, sum_at, product_at, unary_at};
ghost use Rattle.expr_syntax.specs.Readers.{postfix_at};
ghost use Rattle.expr_syntax.specs.Readers.{primary_at, behind_dot_at, method_at, named_at};
ghost use Rattle.expr_syntax.specs.Readers.{level_at};

use crate::bracket::{defined, mask, open, set};
use crate::operators::{
    next_add_op, next_atom, next_compare_op, next_logical_op, next_method, next_mul_op,
    next_property,
};
use conf_ast::Name;
use conf_ast::filters::{Access, Expr, Method};
use conf_lex::parsing::{after, after_placed, expect, level_below, next_name};
use conf_lex::{Refusal, Symbol, Word, push_tight};
use std::alloc::Global;

/// The longest expression.
#[cycle(expression)]
pub fn expression<'a>(
    alloc: Global,
    words: &'a [Word],
    depth_left: u32,
) -> Result<(Expr, &'a [Word]), Refusal<'a>>
    ensures { Agrees (λ e. (derivations e).expr) result (expr_at depth_left words.now) }
{
    let (value, mut rest) = comparison(alloc, words, depth_left)?;
    let Some(_) = next_logical_op(rest) else {
        return Ok((value, rest));
    };
    let first = Box::new(alloc, value)?;
    let mut more = Vec::new(alloc);
    while let Some((logical_op, next)) = next_logical_op(rest) {
        let (operand, end) = comparison(alloc, next, depth_left)?;
        push_tight(&mut more, (logical_op, operand))?;
        rest = end;
    }
    Ok((Expr::Logical(first, more), rest))
}

// An expression, in a box.
#[cycle(expression)]
fn boxed<'a>(
    alloc: Global,
    words: &'a [Word],
    depth_left: u32,
) -> Result<(Box<Expr>, &'a [Word]), Refusal<'a>>
    ensures { Agrees (λ e. (derivations e.value).expr) result (expr_at depth_left words.now) }
{
    let (value, rest) = expression(alloc, words, depth_left)?;
    let boxed = Box::new(alloc, value)?;
    Ok((boxed, rest))
}

#[cycle(expression)]
fn comparison<'a>(
    alloc: Global,
    words: &'a [Word],
    depth_left: u32,
) -> Result<(Expr, &'a [Word]), Refusal<'a>>
    ensures tree { Agrees (λ e. (derivations e).comparison) result
        (comparison_at depth_left words.now) }
    ensures precedence { IfOk result (λ found. (derivations found.0).precedence ≤ 5) }
{
    let (value, rest) = sum(alloc, words, depth_left)?;
    match next_compare_op(rest) {
        Some((compare_op, rest)) => {
            let first = Box::new(alloc, value)?;
            let (operand, rest) = sum(alloc, rest, depth_left)?;
            let second = Box::new(alloc, operand)?;
            Ok((Expr::Compare(compare_op, first, second), rest))
        }
        None => Ok((value, rest)),
    }
}

#[cycle(expression)]
fn sum<'a>(
    alloc: Global,
    words: &'a [Word],
    depth_left: u32,
) -> Result<(Expr, &'a [Word]), Refusal<'a>>
    ensures tree { Agrees (λ e. (derivations e).sum) result (sum_at depth_left words.now) }
    ensures precedence { IfOk result (λ found. (derivations found.0).precedence ≤ 4) }
{
    let (value, mut rest) = product(alloc, words, depth_left)?;
    let Some(_) = next_add_op(rest) else {
        return Ok((value, rest));
    };
    let first = Box::new(alloc, value)?;
    let mut more = Vec::new(alloc);
    while let Some((add_op, next)) = next_add_op(rest) {
        let (operand, end) = product(alloc, next, depth_left)?;
        push_tight(&mut more, (add_op, operand))?;
        rest = end;
    }
    Ok((Expr::Sum(first, more), rest))
}

#[cycle(expression)]
fn product<'a>(
    alloc: Global,
    words: &'a [Word],
    depth_left: u32,
) -> Result<(Expr, &'a [Word]), Refusal<'a>>
    ensures tree { Agrees (λ e. (derivations e).product) result (product_at depth_left words.now) }
    ensures precedence { IfOk result (λ found. (derivations found.0).precedence ≤ 3) }
{
    let (value, mut rest) = unary(alloc, words, depth_left)?;
    let Some(_) = next_mul_op(rest) else {
        return Ok((value, rest));
    };
    let first = Box::new(alloc, value)?;
    let mut more = Vec::new(alloc);
    while let Some((mul_op, next)) = next_mul_op(rest) {
        let (second, end) = unary(alloc, next, depth_left)?;
        push_tight(&mut more, (mul_op, second))?;
        rest = end;
    }
    Ok((Expr::Product(first, more), rest))
}

#[cycle(expression)]
fn unary<'a>(
    alloc: Global,
    words: &'a [Word],
    depth_left: u32,
) -> Result<(Expr, &'a [Word]), Refusal<'a>>
    ensures tree { Agrees (λ e. (derivations e).unary) result (unary_at depth_left words.now) }
    ensures precedence { IfOk result (λ found. (derivations found.0).precedence ≤ 2) }
{
    match after_placed(words, Symbol::Not) {
        Some((at, inside)) => {
            let below = level_below(words, depth_left)?;
            let (inner, rest) = unary(alloc, inside, below)?;
            let operand = Box::new(alloc, inner)?;
            Ok((Expr::Not { at, operand }, rest))
        }
        None => postfix(alloc, words, depth_left),
    }
}

// An operand, and what stands behind its dots.
#[cycle(expression)]
fn postfix<'a>(
    alloc: Global,
    words: &'a [Word],
    depth_left: u32,
) -> Result<(Expr, &'a [Word]), Refusal<'a>>
    ensures tree { Agrees (λ e. (derivations e).postfix) result (postfix_at depth_left words.now) }
    ensures precedence { IfOk result (λ found. (derivations found.0).precedence ≤ 1) }
{
    let (value, mut rest) = primary(alloc, words, depth_left)?;
    let Some(_) = after(rest, Symbol::Dot) else {
        return Ok((value, rest));
    };
    let first = Box::new(alloc, value)?;
    let mut more = Vec::new(alloc);
    while let Some(next) = after(rest, Symbol::Dot) {
        let (postfix, end) = access(alloc, next, depth_left)?;
        push_tight(&mut more, postfix)?;
        rest = end;
    }
    Ok((Expr::Postfix(first, more), rest))
}

// What stands behind a dot.
#[cycle(expression)]
fn access<'a>(
    alloc: Global,
    words: &'a [Word],
    depth_left: u32,
) -> Result<(Access<Expr>, &'a [Word]), Refusal<'a>>
    ensures { Agrees (λ a. (access_of a).1) result (behind_dot_at depth_left words.now) }
{
    match next_property(words) {
        Some((property, rest)) => Ok((Access::Property(property), rest)),
        None => {
            let ((method, argument, open), rest) = method(alloc, words, depth_left)?;
            let method = Access::Method {
                method,
                open,
                argument,
            };
            Ok((method, rest))
        }
    }
}

/// A method, its argument, and the place of the parenthesis before that.
#[cycle(expression)]
pub fn method<'a>(
    alloc: Global,
    words: &'a [Word],
    depth_left: u32,
) -> Result<((Method, Expr, usize), &'a [Word]), Refusal<'a>>
    ensures { Agrees (λ found. method_tree found.0 found.2 (derivations found.1).expr)
        result (method_at depth_left words.now) }
{
    let Some((method, next)) = next_method(words) else {
        return Err(Refusal::Bad(words));
    };
    let (below, open, inside) = open(next, depth_left)?;
    let (argument, end) = expression(alloc, inside, below)?;
    let rest = expect(end, Symbol::CloseParenthesis)?;
    Ok(((method, argument, open), rest))
}

#[cycle(expression)]
fn primary<'a>(
    alloc: Global,
    words: &'a [Word],
    depth_left: u32,
) -> Result<(Expr, &'a [Word]), Refusal<'a>>
    ensures tree { Agrees (λ e. (derivations e).primary) result (primary_at depth_left words.now) }
    ensures precedence { IfOk result (λ found. (derivations found.0).precedence ≤ 0) }
{
    if let Some((atom, rest)) = next_atom(words) {
        return Ok((Expr::Atom(atom), rest));
    }
    if let Some((name, rest)) = next_name(words) {
        return call(alloc, name, rest, depth_left);
    }
    if let Some((at, inside)) = after_placed(words, Symbol::OpenParenthesis) {
        return group(alloc, words, at, inside, depth_left);
    }
    if let Some((at, inside)) = after_placed(words, Symbol::OpenBracket) {
        return set(alloc, words, at, inside, depth_left);
    }
    if let Some((at, inside)) = after_placed(words, Symbol::OpenMask) {
        return mask(alloc, words, at, inside, depth_left);
    }
    if let Some((at, next)) = after_placed(words, Symbol::Defined) {
        return defined(words, at, next, depth_left);
    }
    match next_method(words) {
        Some((method, next)) => method_call(alloc, words, method, next, depth_left),
        None => Err(Refusal::Bad(words)),
    }
}

// An expression in parentheses, or a pair, behind the first of them.
#[cycle(expression)]
fn group<'a>(
    alloc: Global,
    words: &'a [Word],
    at: usize,
    inside: &'a [Word],
    depth_left: u32,
) -> Result<(Expr, &'a [Word]), Refusal<'a>>
    requires { words.now ≡ Word.Placed at sym.OpenParenthesis ∷ inside.now }
    ensures tree { Agrees (λ e. (derivations e).primary) result (primary_at depth_left words.now) }
    ensures precedence { IfOk result (λ found. (derivations found.0).precedence ≤ 0) }
{
    let below = level_below(words, depth_left)?;
    let (first, end) = boxed(alloc, inside, below)?;
    match after(end, Symbol::Comma) {
        None => {
            let rest = expect(end, Symbol::CloseParenthesis)?;
            Ok((Expr::Group { at, inner: first }, rest))
        }
        Some(next) => {
            let (second, end) = boxed(alloc, next, below)?;
            let rest = expect(end, Symbol::CloseParenthesis)?;
            Ok((Expr::Pair { at, first, second }, rest))
        }
    }
}

// A method with its list and its argument, behind the method's word.
#[cycle(expression)]
fn method_call<'a>(
    alloc: Global,
    words: &'a [Word],
    method: Method,
    next: &'a [Word],
    depth_left: u32,
) -> Result<(Expr, &'a [Word]), Refusal<'a>>
    requires { words.now ≡ method_word method ∷ next.now }
    ensures tree { Agrees (λ e. (derivations e).primary) result (primary_at depth_left words.now) }
    ensures precedence { IfOk result (λ found. (derivations found.0).precedence ≤ 0) }
{
    let (below, open, inside) = open(next, depth_left)?;
    let (list, end) = boxed(alloc, inside, below)?;
    let second = expect(end, Symbol::Comma)?;
    let (argument, end) = boxed(alloc, second, below)?;
    let rest = expect(end, Symbol::CloseParenthesis)?;
    let called = Expr::MethodCall {
        method,
        open,
        list,
        argument,
    };
    Ok((called, rest))
}

// A name, or a call of it, by the words after it.
#[cycle(expression)]
fn call<'a>(
    alloc: Global,
    name: Name,
    words: &'a [Word],
    depth_left: u32,
) -> Result<(Expr, &'a [Word]), Refusal<'a>>
    ensures tree { Agrees (λ e. (derivations e).primary) result
        (named_at depth_left name words.now) }
    ensures precedence { IfOk result (λ found. (derivations found.0).precedence ≤ 0) }
{
    match after_placed(words, Symbol::OpenParenthesis) {
        None => Ok((Expr::Name(name), words)),
        Some(_) => {
            let ((arguments, open), rest) = arguments(alloc, words, depth_left)?;
            let called = Expr::Call {
                name,
                open,
                arguments,
            };
            Ok((called, rest))
        }
    }
}

/// The arguments of a call, in their parentheses, and the place of the first of these.
#[cycle(expression)]
pub fn arguments<'a>(
    alloc: Global,
    words: &'a [Word],
    depth_left: u32,
) -> Result<((Vec<Expr>, usize), &'a [Word]), Refusal<'a>>
    ensures { Agrees (λ found. in_parentheses found.1 (arguments_tree (expr_trees found.0.items)))
        result (level_at arguments_level depth_left words.now) }
{
    let (below, open, inside) = open(words, depth_left)?;
    let mut found = Vec::new(alloc);
    if let Some(rest) = after(inside, Symbol::CloseParenthesis) {
        return Ok(((found, open), rest));
    }
    let (first, mut rest) = expression(alloc, inside, below)?;
    push_tight(&mut found, first)?;
    while let Some(next) = after(rest, Symbol::Comma) {
        let (argument, end) = expression(alloc, next, below)?;
        push_tight(&mut found, argument)?;
        rest = end;
    }
    let rest = expect(rest, Symbol::CloseParenthesis)?;
    Ok(((found, open), rest))
}
