//! What statements do.

ghost use Rattle.std.specs.Prelude.{◌≡◌, ◌+◌, ◌*◌, length, slice_get, List, IfOk, OnOk};
ghost use Rattle.filt_code.specs.declared.instr.Instr.{Instr};
ghost use Rattle.filt_meaning.specs.Meaning as meaning;
ghost use Rattle.filt_meaning.specs.Trees as trees;
ghost use Rattle.filt_compile.specs.Emits.{ahead, jumps_to, Acts, AddsAtMost, Bodies, Declares, Grows, Runs, Sets, StartsAtMost};
ghost use Rattle.filt_compile.specs.Parts.{dropped_steps};
ghost use Rattle.filt_meaning.specs.Steps.{arms_steps, body_steps, expr_steps, exprs_steps, given_steps, run_steps, stmt_steps};

use crate::condition::condition;
use crate::emitted::push;
use crate::seen::Seen;
use crate::value::{value, values};
use bits_ip::OutOfMemory;
use filt_code::{Effect, Instr};
use filt_meaning::{Sort, TArm, TExpr, TStmt, TTarget};

/// Statements in their order.
#[cycle(acts)]
pub(crate) fn body<'a>(
    seen: &Seen<'_, 'a>,
    statements: &'a [TStmt],
    out: &mut Vec<Instr<'a>>,
) -> Result<(), OutOfMemory>
    ensures { OnOk result (Acts seen.now (λ t. trees.body t statements.now)
        (ahead out.old) (ahead out.new)
        × AddsAtMost (λ called. body_steps called statements.now) (ahead out.old) (ahead out.new)) }
{
    let mut n = statements.len();
    while n > 0 {
        n -= 1;
        act(seen, &statements[n], out)?;
    }
    Ok(())
}

#[cycle(acts)]
fn act<'a>(seen: &Seen<'_, 'a>, s: &'a TStmt, out: &mut Vec<Instr<'a>>) -> Result<(), OutOfMemory>
    ensures { OnOk result (Acts seen.now (λ t. trees.stmt s.now t)
        (ahead out.old) (ahead out.new)
        × AddsAtMost (λ called. stmt_steps called s.now) (ahead out.old) (ahead out.new)) }
{
    match s {
        TStmt::Block(sorts, statements) => {
            push(out, Instr::Do(Effect::Leave(sorts.len())))?;
            block(seen, sorts, statements, out)
        }
        TStmt::Nothing => Ok(()),
        TStmt::Assign(target, e) => {
            set(*target, out)?;
            value(seen, e, out)
        }
        TStmt::Unset(a) => push(out, Instr::Do(Effect::Unset(*a))),
        TStmt::If(e, first) => choice(seen, e, first, out),
        TStmt::IfElse(e, first, second) => either(seen, e, first, second, out),
        TStmt::Case(e, arms, otherwise) => case(seen, e, arms, otherwise, out),
        TStmt::For(e, turn) => turns(seen, e, turn, out),
        TStmt::Accept => push(out, Instr::Accept),
        TStmt::Reject => push(out, Instr::Reject),
        TStmt::Return(e) => give(seen, e, out),
        TStmt::Print(es) => dropped(seen, es, out),
        TStmt::Call(number, es) => perform(seen, *number, es, out),
    }
}

/// Statements over variables of these sorts more, which stay.
#[cycle(acts)]
pub(crate) fn block<'a>(
    seen: &Seen<'_, 'a>,
    sorts: &'a [Sort],
    statements: &'a [TStmt],
    out: &mut Vec<Instr<'a>>,
) -> Result<(), OutOfMemory>
    ensures { OnOk result (Runs seen.now sorts.now (λ t. trees.body t statements.now)
        (ahead out.old) (ahead out.new)
        × AddsAtMost (λ called. run_steps called sorts.now statements.now)
        (ahead out.old) (ahead out.new)) }
{
    body(seen, statements, out)?;
    declare(sorts, out)
}

/// `if` without `else`.
#[cycle(acts)]
fn choice<'a>(
    seen: &Seen<'_, 'a>,
    e: &'a TExpr,
    first: &'a TStmt,
    out: &mut Vec<Instr<'a>>,
) -> Result<(), OutOfMemory>
    ensures { OnOk result (Acts seen.now
        (λ t. meaning.choice (trees.expr e.now t) (trees.stmt first.now t) meaning.nothing)
        (ahead out.old) (ahead out.new)
        × AddsAtMost (λ called. 1 + expr_steps called e.now + stmt_steps called first.now)
        (ahead out.old) (ahead out.new)) }
{
    let behind = out.len();
    act(seen, first, out)?;
    condition(seen, e, false, behind, out)
}

/// `if` with `else`.
#[cycle(acts)]
fn either<'a>(
    seen: &Seen<'_, 'a>,
    e: &'a TExpr,
    first: &'a TStmt,
    second: &'a TStmt,
    out: &mut Vec<Instr<'a>>,
) -> Result<(), OutOfMemory>
    ensures { OnOk result (Acts seen.now
        (λ t. meaning.choice (trees.expr e.now t) (trees.stmt first.now t)
        (trees.stmt second.now t)) (ahead out.old) (ahead out.new)
        × AddsAtMost (λ called. 2 + expr_steps called e.now + stmt_steps called first.now
        + stmt_steps called second.now) (ahead out.old) (ahead out.new)) }
{
    let before = out.len();
    act(seen, second, out)?;
    let other = out.len();
    push(out, Instr::Jump(other.saturating_sub(before)))?;
    act(seen, first, out)?;
    condition(seen, e, false, other, out)
}

/// `for`: a turn for each element of a list.
#[cycle(acts)]
fn turns<'a>(
    seen: &Seen<'_, 'a>,
    e: &'a TExpr,
    turn: &'a TStmt,
    out: &mut Vec<Instr<'a>>,
) -> Result<(), OutOfMemory>
    ensures { OnOk result (Acts seen.now
        (λ t. meaning.loop (trees.expr e.now t) (trees.stmt turn.now t))
        (ahead out.old) (ahead out.new)
        × AddsAtMost (λ called. 2 + expr_steps called e.now + 120 * (2 + stmt_steps called turn.now))
        (ahead out.old) (ahead out.new)) }
{
    let before = out.len();
    push(out, Instr::EndTurn)?;
    act(seen, turn, out)?;
    let passed = out.len().saturating_sub(before);
    push(out, Instr::ForEach(passed))?;
    value(seen, e, out)
}

/// `return`, with or without a value.
fn give<'a>(
    seen: &Seen<'_, 'a>,
    e: &'a Option<TExpr>,
    out: &mut Vec<Instr<'a>>,
) -> Result<(), OutOfMemory>
    ensures { OnOk result (Acts seen.now (λ t. trees.result e.now t)
        (ahead out.old) (ahead out.new)
        × AddsAtMost (λ called. 1 + given_steps called e.now) (ahead out.old) (ahead out.new)) }
{
    match e {
        None => push(out, Instr::ReturnNothing),
        Some(e) => {
            push(out, Instr::Return)?;
            value(seen, e, out)
        }
    }
}

/// Values that are evaluated, each of which is let go at once.
fn dropped<'a>(
    seen: &Seen<'_, 'a>,
    es: &'a [TExpr],
    out: &mut Vec<Instr<'a>>,
) -> Result<(), OutOfMemory>
    ensures { OnOk result (Acts seen.now
        (λ t. meaning.evaluate (trees.all_values (trees.exprs t es.now)))
        (ahead out.old) (ahead out.new)
        × AddsAtMost (λ called. dropped_steps called es.now) (ahead out.old) (ahead out.new)) }
{
    let mut n = es.len();
    while n > 0 {
        n -= 1;
        push(out, Instr::Do(Effect::Discard))?;
        value(seen, &es[n], out)?;
    }
    Ok(())
}

/// A call of which nothing is put.
fn perform<'a>(
    seen: &Seen<'_, 'a>,
    number: usize,
    es: &'a [TExpr],
    out: &mut Vec<Instr<'a>>,
) -> Result<(), OutOfMemory>
    ensures { OnOk result (Acts seen.now
        (λ t. meaning.evaluate (meaning.call (slice_get t.functions number)
        (trees.all_values (trees.exprs t es.now)))) (ahead out.old) (ahead out.new)
        × AddsAtMost (λ called. 2 + called number + exprs_steps called es.now)
        (ahead out.old) (ahead out.new)) }
{
    if number < seen.routines.len() {
        push(out, Instr::Perform(number, es.len()))?;
        return values(seen, es, out);
    }
    push(out, Instr::Stuck)
}

/// Variables of these sorts, without values.
fn declare<'a>(sorts: &[Sort], out: &mut Vec<Instr<'a>>) -> Result<(), OutOfMemory>
    ensures { OnOk result (Declares sorts.now (ahead out.old) (ahead out.new)
        × AddsAtMost (λ called. length sorts.now) (ahead out.old) (ahead out.new)) }
{
    let mut n = sorts.len();
    while n > 0 {
        n -= 1;
        let sort = &sorts[n];
        push(out, Instr::Do(Effect::Declare(*sort)))?;
    }
    Ok(())
}

/// What makes a target hold the value on top.
fn set<'a>(target: TTarget, out: &mut Vec<Instr<'a>>) -> Result<(), OutOfMemory>
    ensures { OnOk result (Sets target (ahead out.old) (ahead out.new)
        × AddsAtMost (λ called. 1) (ahead out.old) (ahead out.new)) }
{
    match target {
        TTarget::Local(place) => push(out, Instr::Do(Effect::Store(place))),
        TTarget::Attribute(a) => push(out, Instr::Do(Effect::Assign(a))),
        TTarget::Nowhere => push(out, Instr::Stuck),
    }
}

/// `case`: a jump for each arm, one for where no label has the value, and what they lead to.
#[cycle(acts)]
fn case<'a>(
    seen: &Seen<'_, 'a>,
    e: &'a TExpr,
    arms: &'a [TArm<TStmt>],
    otherwise: &'a [TStmt],
    out: &mut Vec<Instr<'a>>,
) -> Result<(), OutOfMemory>
    ensures { OnOk result (Acts seen.now
        (λ t. meaning.cases (trees.expr e.now t) (trees.arms (trees.arms_of t arms.now)
        (trees.body t otherwise.now))) (ahead out.old) (ahead out.new)
        × AddsAtMost (λ called. 3 + expr_steps called e.now + arms_steps called arms.now
        + body_steps called otherwise.now) (ahead out.old) (ahead out.new)) }
{
    let before = out.len();
    body(seen, otherwise, out)?;
    let other = out.len();
    let starts = bodies(seen, arms, before, out)?;
    let passed = out.len().saturating_sub(other);
    push(out, Instr::Jump(passed))?;
    jumps(&starts, out)?;
    push(out, Instr::Switch(arms))?;
    value(seen, e, out)
}

/// What the arms do, each behind the one after it, and how much code there is from each on.
#[cycle(acts)]
fn bodies<'a>(
    seen: &Seen<'_, 'a>,
    arms: &'a [TArm<TStmt>],
    before: usize,
    out: &mut Vec<Instr<'a>>,
) -> Result<Vec<usize>, OutOfMemory>
    ensures { IfOk result (λ starts. (old : List Instr) → before ≡ length old
        → Grows old (ahead out.old)
        → Bodies seen.now arms.now starts.items old (ahead out.old) (ahead out.new)
        × StartsAtMost (λ called. 1 + arms_steps called arms.now) starts.items old
        (ahead out.new)) }
{
    let mut starts = Vec::new(seen.alloc);
    for arm in arms {
        let passed = out.len().saturating_sub(before);
        push(out, Instr::Jump(passed))?;
        body(seen, &arm.body, out)?;
        starts.push(out.len())?;
    }
    Ok(starts)
}

/// A jump to each of these places, which are told by how much code there is from them on.
fn jumps<'a>(starts: &[usize], out: &mut Vec<Instr<'a>>) -> Result<(), OutOfMemory>
    ensures { OnOk result (ahead out.new ≡ jumps_to starts.now (ahead out.old)) }
{
    let mut n = starts.len();
    while n > 0 {
        n -= 1;
        let passed = out.len().saturating_sub(starts[n]);
        push(out, Instr::Jump(passed))?;
    }
    Ok(())
}
