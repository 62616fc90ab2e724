//! Conditions.

ghost use Rattle.std.specs.Prelude.{◌≡◌, ◌<◌, ◌+◌, length, slice_get, OnOk, Some};
ghost use Rattle.filt_meaning.specs.Trees as trees;
ghost use Rattle.filt_meaning.specs.declared.tree.TExpr.{TExpr};
ghost use Rattle.filt_code.specs.declared.instr.Question.TheVariants as questions;
ghost use Rattle.filt_compile.specs.Ranges.{sense};
ghost use Rattle.filt_compile.specs.Emits.{ahead, decider, landing, Asks, AsksAtMost, IsQuestion};
ghost use Rattle.filt_compile.specs.Emits.{Leads, LeadsAtMost};
ghost use Rattle.filt_compile.specs.Parts.{sides_steps};
ghost use Rattle.filt_meaning.specs.Steps.{expr_steps};

use crate::emitted::push;
use crate::questions::question_of;
use crate::ranges::{Range, ranged};
use crate::seen::Seen;
use crate::value::value;
use bits_ip::OutOfMemory;
use conf_ast::filters::LogicalOp;
use filt_code::{Instr, Question};
use filt_meaning::{TExpr, TTest};

/// What jumps where a condition's truth value is this one, to the place that has so much code from
/// it on. What `&&`, `||` and `!` join isn't put: each of their sides jumps by itself.
#[cycle(conditions)]
pub(crate) fn condition<'a>(
    seen: &Seen<'_, 'a>,
    e: &'a TExpr,
    is: bool,
    to: usize,
    out: &mut Vec<Instr<'a>>,
) -> Result<(), OutOfMemory>
    ensures { OnOk result (Leads seen.now is to (λ t. trees.expr e.now t)
        (ahead out.old) (ahead out.new)
        × LeadsAtMost (λ called. expr_steps called e.now) to (ahead out.old) (ahead out.new)) }
{
    match e {
        TExpr::Not(a) => condition(seen, a, !is, to, out),
        TExpr::Joint(first, more) => joined(seen, first, more, is, to, out),
        _ => {
            let over = out.len().saturating_sub(to);
            asked(seen, e, is, over, out)
        }
    }
}

/// An operand, and what is joined to it by `&&` and `||`.
#[cycle(conditions)]
fn joined<'a>(
    seen: &Seen<'_, 'a>,
    first: &'a TExpr,
    more: &'a [(LogicalOp, TExpr)],
    is: bool,
    to: usize,
    out: &mut Vec<Instr<'a>>,
) -> Result<(), OutOfMemory>
    ensures { OnOk result (Leads seen.now is to (λ t. trees.joints (trees.expr first.now t)
        (trees.parts t more.now)) (ahead out.old) (ahead out.new)
        × LeadsAtMost (λ called. expr_steps called first.now + sides_steps called more.now) to
        (ahead out.old) (ahead out.new)) }
{
    let mut n = more.len();
    let mut wanted = is;
    let mut place = to;
    while n > 0 {
        n -= 1;
        let part = part_at(more, n);
        let behind = out.len();
        condition(seen, &part.1, wanted, place, out)?;
        let deciding = decider(part.0);
        place = landing(deciding, wanted, place, behind);
        wanted = deciding;
    }
    condition(seen, first, wanted, place, out)
}

fn part_at(more: &[(LogicalOp, TExpr)], n: usize) -> &(LogicalOp, TExpr)
    requires { n < length more.now }
    ensures { slice_get more.now n ≡ Some result.now }
{
    &more[n]
}

/// The value of the left side of `&&` or `||` that decides.
fn decider(joint: LogicalOp) -> bool
    ensures { result ≡ decider joint }
{
    match joint {
        LogicalOp::And => false,
        LogicalOp::Or => true,
    }
}

/// Where a left side leads that decides: to the place, where its value is wanted, else behind the
/// right one.
fn landing(deciding: bool, wanted: bool, place: usize, behind: usize) -> usize
    ensures { result ≡ landing deciding wanted place behind }
{
    match (deciding, wanted) {
        (true, true) => place,
        (true, false) => behind,
        (false, true) => behind,
        (false, false) => place,
    }
}

/// What passes over so many instructions where a condition's truth value is this one.
fn asked<'a>(
    seen: &Seen<'_, 'a>,
    e: &'a TExpr,
    is: bool,
    over: usize,
    out: &mut Vec<Instr<'a>>,
) -> Result<(), OutOfMemory>
    ensures { OnOk result (Asks seen.now is over (λ t. trees.expr e.now t)
        (ahead out.old) (ahead out.new)
        × AsksAtMost (λ called. expr_steps called e.now) over (ahead out.old) (ahead out.new)) }
{
    if let Some(question) = question_of(seen, e) {
        return question_asked(seen, question, is, over, out);
    }
    match e {
        TExpr::Test(what) => tested(seen, *what, is, over, out),
        TExpr::Defined(a) => push(out, Instr::JumpIfAsked(is, Question::Defined(*a), over)),
        _ => {
            push(out, Instr::JumpIf(is, over))?;
            value(seen, e, out)
        }
    }
}

/// The same of an expression that is a question.
fn question_asked<'a>(
    seen: &Seen<'_, 'a>,
    question: Question<'a>,
    is: bool,
    over: usize,
    out: &mut Vec<Instr<'a>>,
) -> Result<(), OutOfMemory>
    ensures { OnOk result ((x : TExpr) → IsQuestion seen.now x question.entry
        → Asks seen.now is over (λ t. trees.expr x t) (ahead out.old) (ahead out.new)
        × AsksAtMost (λ called. expr_steps called x) over (ahead out.old) (ahead out.new)) }
{
    match question {
        Question::Test(what) => tested(seen, what, is, over, out),
        _ => push(out, Instr::JumpIfAsked(is, question, over)),
    }
}

/// The same of a test. One of a number asks whether it is within a range.
fn tested<'a>(
    seen: &Seen<'_, 'a>,
    what: TTest,
    is: bool,
    over: usize,
    out: &mut Vec<Instr<'a>>,
) -> Result<(), OutOfMemory>
    ensures { OnOk result (Asks seen.now is over (λ t. trees.test t.around what)
        (ahead out.old) (ahead out.new)
        × AsksAtMost (λ called. 0) over (ahead out.old) (ahead out.new)) }
{
    match ranged(what) {
        Some(range) => push(
            out,
            Instr::JumpIfAsked(sense(range.inside, is), within(range), over),
        ),
        None => push(out, Instr::JumpIfAsked(is, Question::Test(what), over)),
    }
}

fn within<'a>(range: Range) -> Question<'a>
    ensures { result ≡ questions.Within range.number range.low range.high }
{
    Question::Within(range.number, range.low, range.high)
}

fn sense(inside: bool, is: bool) -> bool
    ensures { result ≡ sense inside is }
{
    if inside { is } else { !is }
}
