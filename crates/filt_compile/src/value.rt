//! The values of expressions.

ghost use Rattle.std.specs.Prelude.{◌+◌, OnOk};
ghost use Rattle.filt_meaning.specs.Meaning.{given};
ghost use Rattle.filt_meaning.specs.Names.{there};
ghost use Rattle.filt_meaning.specs.Trees as trees;
ghost use Rattle.std.specs.Prelude.{slice_get};
ghost use Rattle.filt_meaning.specs.Meaning.{called_value};
ghost use Rattle.filt_compile.specs.Emits.{ahead, AddsAtMost, Makes, Puts, PutsAll};
ghost use Rattle.filt_compile.specs.Parts.{made_by, made_by_all, part_of, part_steps, parts_of, parts_steps, Joined};
ghost use Rattle.filt_meaning.specs.Steps.{expr_steps, exprs_steps};
ghost use Rattle.filt_meaning.specs.Flow.{and_then};

use crate::emitted::push;
use crate::rest::{Rest, Step};
use crate::seen::Seen;
use bits_ip::OutOfMemory;
use conf_ast::filters::LogicalOp;
use filt_code::{Effect, Instr, OfOne, Question};
use filt_meaning::{Sort, TExpr, TTest};

/// What puts an expression's value.
#[cycle(emit)]
pub(crate) fn value<'a>(
    seen: &Seen<'_, 'a>,
    e: &'a TExpr,
    out: &mut Vec<Instr<'a>>,
) -> Result<(), OutOfMemory>
    ensures { OnOk result (Puts seen.now (λ t. trees.expr e.now t) (ahead out.old) (ahead out.new)
        × AddsAtMost (λ called. expr_steps called e.now) (ahead out.old) (ahead out.new)) }
{
    match e {
        TExpr::Value(known) => push(out, Instr::Do(Effect::Push(known))),
        TExpr::Constant(number) => constant(seen, *number, out),
        TExpr::Local(place) => push(out, Instr::Do(Effect::Local(*place))),
        TExpr::Attribute(a) => push(out, Instr::Do(Effect::Attribute(*a))),
        TExpr::Defined(a) => push(out, Instr::Do(Effect::Defined(*a))),
        TExpr::Default(sort) => push(out, Instr::Do(Effect::Default(*sort))),
        TExpr::Call(number, es) => call(seen, *number, es, out),
        TExpr::Pair(a, b) => chain(seen, a, Rest::Pair(b), out),
        TExpr::Method(kind, a, b) => chain(seen, a, Rest::Method(*kind, b), out),
        TExpr::Empty(a) => chain(seen, a, Rest::Empty, out),
        TExpr::Access(a, more) => chain(seen, a, Rest::Accesses(more), out),
        TExpr::Not(a) => chain(seen, a, Rest::Not, out),
        TExpr::Product(a, more) => chain(seen, a, Rest::Factors(more), out),
        TExpr::Sum(a, more) => chain(seen, a, Rest::Terms(more), out),
        TExpr::Compare(compare, a, b) => chain(seen, a, Rest::Compare(*compare, b), out),
        TExpr::Test(what) => test(seen, *what, out),
        TExpr::Joint(a, more) => chain(seen, a, Rest::Joints(more), out),
        TExpr::Stuck => push(out, Instr::Stuck),
    }
}

/// An operand, and the operators behind it.
#[cycle(emit)]
fn chain<'a>(
    seen: &Seen<'_, 'a>,
    first: &'a TExpr,
    rest: Rest<'a>,
    out: &mut Vec<Instr<'a>>,
) -> Result<(), OutOfMemory>
    ensures { OnOk result (Puts seen.now (λ t vals attrs. and_then
        (trees.expr first.now t vals attrs)
        (λ v attrs. made_by_all t (parts_of rest.entry) v vals attrs)) (ahead out.old) (ahead out.new)
        × AddsAtMost (λ called. expr_steps called first.now + parts_steps called (parts_of rest.entry))
        (ahead out.old) (ahead out.new)) }
{
    let mut n = rest.len();
    while n > 0 {
        n -= 1;
        apply(seen, rest.step(n), out)?;
    }
    value(seen, first, out)
}

/// An operator, behind its left operand.
#[cycle(emit)]
fn apply<'a>(
    seen: &Seen<'_, 'a>,
    step: Step<'a>,
    out: &mut Vec<Instr<'a>>,
) -> Result<(), OutOfMemory>
    ensures { OnOk result (Makes seen.now (λ t. made_by t (part_of step.entry)) (ahead out.old) (ahead out.new)
        × AddsAtMost (λ called. part_steps called (part_of step.entry)) (ahead out.old) (ahead out.new)) }
{
    match step {
        Step::One(operator) => push(out, Instr::Do(Effect::One(operator))),
        Step::Two(operator, right) => {
            push(out, Instr::Do(Effect::Two(operator)))?;
            value(seen, right, out)
        }
        Step::Joined(joint, right) => join(seen, joint, right, out),
    }
}

/// `&&` or `||` behind its left side, which passes over the right one where it decides.
#[cycle(emit)]
fn join<'a>(
    seen: &Seen<'_, 'a>,
    joint: LogicalOp,
    right: &'a TExpr,
    out: &mut Vec<Instr<'a>>,
) -> Result<(), OutOfMemory>
    ensures { OnOk result (Makes seen.now (λ t. made_by t (Joined joint right.now))
        (ahead out.old) (ahead out.new)
        × AddsAtMost (λ called. 2 + expr_steps called right.now) (ahead out.old) (ahead out.new)) }
{
    let before = out.len();
    push(out, Instr::Do(Effect::One(OfOne::Truth)))?;
    value(seen, right, out)?;
    let passed = out.len().saturating_sub(before);
    push(out, Instr::JumpIfDecided(joint, passed))
}

/// Values between commas.
#[cycle(emit)]
pub(crate) fn values<'a>(
    seen: &Seen<'_, 'a>,
    es: &'a [TExpr],
    out: &mut Vec<Instr<'a>>,
) -> Result<(), OutOfMemory>
    ensures { OnOk result (PutsAll seen.now (λ t. trees.all_values (trees.exprs t es.now))
        (ahead out.old) (ahead out.new)
        × AddsAtMost (λ called. exprs_steps called es.now) (ahead out.old) (ahead out.new)) }
{
    let mut n = es.len();
    while n > 0 {
        n -= 1;
        value(seen, &es[n], out)?;
    }
    Ok(())
}

/// A call of a function that gives a value.
#[cycle(emit)]
fn call<'a>(
    seen: &Seen<'_, 'a>,
    number: usize,
    es: &'a [TExpr],
    out: &mut Vec<Instr<'a>>,
) -> Result<(), OutOfMemory>
    ensures { OnOk result (Puts seen.now (λ t. called_value (slice_get t.functions number)
        (trees.all_values (trees.exprs t es.now))) (ahead out.old) (ahead out.new)
        × AddsAtMost (λ called. 2 + called number + exprs_steps called es.now)
        (ahead out.old) (ahead out.new)) }
{
    if number < seen.routines.len() {
        push(out, Instr::Call(number, es.len()))?;
        return values(seen, es, out);
    }
    push(out, Instr::Stuck)
}

fn constant<'a>(
    seen: &Seen<'_, 'a>,
    number: usize,
    out: &mut Vec<Instr<'a>>,
) -> Result<(), OutOfMemory>
    ensures { OnOk result (Puts seen.now (λ t. given (there (slice_get t.constants number)))
        (ahead out.old) (ahead out.new) × AddsAtMost (λ called. 1) (ahead out.old) (ahead out.new)) }
{
    let constants = seen.constants;
    match constants.get(number) {
        Some(constant) => push(out, Instr::Do(Effect::Push(constant))),
        None => push(out, Instr::Stuck),
    }
}

/// The answer to a question, by two ways to it.
fn test<'a>(seen: &Seen<'_, 'a>, what: TTest, out: &mut Vec<Instr<'a>>) -> Result<(), OutOfMemory>
    ensures { OnOk result (Puts seen.now (λ t. trees.test t.around what) (ahead out.old) (ahead out.new)
        × AddsAtMost (λ called. 3) (ahead out.old) (ahead out.new)) }
{
    push(out, Instr::Do(Effect::One(OfOne::Not)))?;
    push(out, Instr::Do(Effect::Default(Sort::Bool)))?;
    push(out, Instr::Jump(2))?;
    push(out, Instr::Do(Effect::Default(Sort::Bool)))?;
    push(out, Instr::JumpIfAsked(true, Question::Test(what), 2))
}
