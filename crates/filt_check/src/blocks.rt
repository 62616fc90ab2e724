// Statements from names to places.

ghost use Rattle.std.specs.Prelude.{◌≡◌, ◌+◌, ◌*◌, [], ◌∷◌, length, IfOk};
ghost use Rattle.conf_ast.specs.Names.{name_bytes};
ghost use Rattle.conf_ast.specs.Filters.{Braced, expression_of, statement_of, statements_of};
ghost use Rattle.filt_meaning.specs.Meaning.{act, acts, all_declared, cases, choice, declared, loop};
ghost use Rattle.filt_meaning.specs.Meaning.{nothing, value, within};
ghost use Rattle.filt_meaning.specs.Names.{Around, with_variables};
ghost use Rattle.filt_meaning.specs.Scopes.{context_of, tables_of};
ghost use Rattle.filt_meaning.specs.Trees as trees;
ghost use Rattle.filt_meaning.specs.Steps.{arms_steps, body_steps, run_steps, stmt_steps};
ghost use Rattle.filt_types.specs.Seen.{scene_of};
ghost use Rattle.filt_types.specs.Walk.{arms_of};
ghost use Rattle.filt_types.specs.Weight.{act_weight, acts_weight, arms_weight, weight};
ghost use Rattle.filt_types.specs.Walk.{else_of};
ghost use Rattle.filt_check.specs.Seen.{sorts_in, acts_in, arm_seen, arms_seen, arm_in};
ghost use Rattle.filt_check.specs.Seen.{arms_in, otherwise_in, picked};
ghost use Rattle.filt_check.specs.Seen.{arm_declares, arms_declare, otherwise_declares};
ghost use Rattle.filt_resolve.specs.Steps.{Takes};

use crate::collect::{collect_all, declared_names, sorts_of};
use crate::simple::{assign, called, change, declare, print, returned};
use bits_ip::OutOfMemory;
use conf_ast::Name;
use conf_ast::filters::{Arm, Expr, Stmt};
use filt_items::set_of;
use filt_meaning::{Scope, Sort, TArm, TStmt};
use filt_resolve::{Names, resolve};
use std::alloc::Global;

/// A block: the sorts of its own variables, and its statements.
#[derive(Drop)]
pub(crate) struct Resolved {
    pub sorts: Vec<Sort>,
    pub body: Vec<TStmt>,
}

#[cycle(blocks)]
pub(crate) fn resolve_statement<'a>(
    alloc: Global,
    text: &'a [u8],
    scope: &Scope,
    names: &Names<'a>,
    s: &Stmt,
) -> Result<TStmt, OutOfMemory>
    ensures meaning { IfOk result (λ x. (around : Around) → trees.stmt x (tables_of around scope.now)
        ≡ act (statement_of s.now)
        (context_of text.now around scope.now names.now)) }
    ensures steps { IfOk result (λ x. Takes scope.now (λ called. 2 + length (declared
        text.now (statement_of s.now)) + stmt_steps called x) (act_weight (scene_of
        text.now scope.now) (statement_of s.now))) }
{
    match s {
        Stmt::Block(body) => braced(alloc, text, scope, names, body),
        Stmt::Empty => Ok(TStmt::Nothing),
        Stmt::Declare {
            variable_type,
            name,
            value,
        } => { declare(alloc, text, scope, names, *variable_type, name, value) }
        Stmt::Assign(target, e) => assign(alloc, text, scope, names, target, e),
        Stmt::Change(target, what) => change(alloc, text, scope, names, target, what),
        Stmt::Unset { attribute, .. } => Ok(TStmt::Unset(*attribute)),
        Stmt::If(e, first) => if_then(alloc, text, scope, names, e, first),
        Stmt::IfElse(e, first, second) => if_else(alloc, text, scope, names, e, first, second),
        Stmt::Case {
            value,
            arms,
            otherwise,
            ..
        } => { case(alloc, text, scope, names, value, arms, otherwise) }
        Stmt::For {
            name,
            list,
            body,
            ..
        } => each(alloc, text, scope, names, name, list, body),
        Stmt::Accept => Ok(TStmt::Accept),
        Stmt::Reject => Ok(TStmt::Reject),
        Stmt::Return { value, .. } => returned(alloc, text, scope, names, value),
        Stmt::Print(given) => print(alloc, text, scope, names, given),
        Stmt::Printn(given) => print(alloc, text, scope, names, given),
        Stmt::Call {
            name,
            arguments,
            ..
        } => called(alloc, text, scope, names, name, arguments),
    }
}

#[cycle(blocks)]
fn boxed<'a>(
    alloc: Global,
    text: &'a [u8],
    scope: &Scope,
    names: &Names<'a>,
    s: &Stmt,
) -> Result<Box<TStmt>, OutOfMemory>
    ensures meaning { IfOk result (λ b. (around : Around) → trees.stmt b.value (tables_of around scope.now)
        ≡ act (statement_of s.now)
        (context_of text.now around scope.now names.now)) }
    ensures steps { IfOk result (λ b. Takes scope.now (λ called. 2 + length (declared
        text.now (statement_of s.now)) + stmt_steps called b.value) (act_weight (scene_of
        text.now scope.now) (statement_of s.now))) }
{
    let x = resolve_statement(alloc, text, scope, names, s)?;
    Ok(Box::new(alloc, x)?)
}

// ---- blocks

/// The statements of a block, over these variables and its own.
#[cycle(blocks)]
pub(crate) fn resolve_block<'a>(
    alloc: Global,
    text: &'a [u8],
    scope: &Scope,
    names: &Names<'a>,
    body: &[Stmt],
) -> Result<Resolved, OutOfMemory>
    ensures sorts { IfOk result (λ b.
        b.sorts.items ≡ sorts_in (all_declared text.now (statements_of body.now))) }
    ensures body { IfOk result (λ b. (around : Around)
        → trees.body (tables_of around scope.now) b.body.items
        ≡ acts (statements_of body.now)
        (within (context_of text.now around scope.now names.now)
        (all_declared text.now (statements_of body.now)))) }
    ensures steps { IfOk result (λ b. Takes scope.now (λ called. run_steps called
        b.sorts.items b.body.items) (acts_weight (scene_of text.now scope.now)
        (statements_of body.now))) }
{
    let mut declared = Vec::new(alloc);
    collect_all(text, body, &mut declared)?;
    let inner = names.with(alloc, declared_names(alloc, &declared)?)?;
    let sorts = sorts_of(alloc, &declared)?;
    let body = resolve_all(alloc, text, scope, &inner, body)?;
    Ok(Resolved { sorts, body })
}

#[cycle(blocks)]
fn braced<'a>(
    alloc: Global,
    text: &'a [u8],
    scope: &Scope,
    names: &Names<'a>,
    body: &[Stmt],
) -> Result<TStmt, OutOfMemory>
    ensures meaning { IfOk result (λ x. (around : Around) → trees.stmt x (tables_of around scope.now)
        ≡ act (Braced (statements_of body.now))
        (context_of text.now around scope.now names.now)) }
    ensures steps { IfOk result (λ x. Takes scope.now (λ called. 2 + stmt_steps called x)
        (1 + acts_weight (scene_of text.now scope.now) (statements_of body.now))) }
{
    let block = resolve_block(alloc, text, scope, names, body)?;
    Ok(TStmt::Block(block.sorts, block.body))
}

#[cycle(blocks)]
fn resolve_all<'a>(
    alloc: Global,
    text: &'a [u8],
    scope: &Scope,
    names: &Names<'a>,
    body: &[Stmt],
) -> Result<Vec<TStmt>, OutOfMemory>
    ensures meaning { IfOk result (λ v. (around : Around)
        → trees.stmts (tables_of around scope.now) v.items
        ≡ acts_in (context_of text.now around scope.now names.now) body.now) }
    ensures steps { IfOk result (λ v. Takes scope.now (λ called. length (all_declared
        text.now (statements_of body.now)) + body_steps called v.items) (acts_weight
        (scene_of text.now scope.now) (statements_of body.now))) }
{
    let mut all = Vec::with_capacity(alloc, body.len())?;
    for s in body {
        all.push(resolve_statement(alloc, text, scope, names, s)?)?;
    }
    Ok(all)
}

// ---- branches

#[cycle(blocks)]
fn if_then<'a>(
    alloc: Global,
    text: &'a [u8],
    scope: &Scope,
    names: &Names<'a>,
    e: &Expr,
    first: &Stmt,
) -> Result<TStmt, OutOfMemory>
    ensures meaning { IfOk result (λ x. (around : Around) → trees.stmt x (tables_of around scope.now)
        ≡ choice
        (value (expression_of e.now) (context_of text.now around scope.now names.now))
        (act (statement_of first.now) (context_of text.now around scope.now names.now))
        nothing) }
    ensures steps { IfOk result (λ x. Takes scope.now (λ called. 2 + length (declared
        text.now (statement_of first.now)) + stmt_steps called x) (1 + weight (scene_of
        text.now scope.now) (expression_of e.now) + act_weight (scene_of text.now
        scope.now) (statement_of first.now))) }
{
    let a = boxed(alloc, text, scope, names, first)?;
    let x = resolve(alloc, text, scope, names, e)?;
    Ok(TStmt::If(x, a))
}

#[cycle(blocks)]
fn if_else<'a>(
    alloc: Global,
    text: &'a [u8],
    scope: &Scope,
    names: &Names<'a>,
    e: &Expr,
    first: &Stmt,
    second: &Stmt,
) -> Result<TStmt, OutOfMemory>
    ensures meaning { IfOk result (λ x. (around : Around) → trees.stmt x (tables_of around scope.now)
        ≡ choice
        (value (expression_of e.now) (context_of text.now around scope.now names.now))
        (act (statement_of first.now) (context_of text.now around scope.now names.now))
        (act (statement_of second.now)
        (context_of text.now around scope.now names.now))) }
    ensures steps { IfOk result (λ x. Takes scope.now (λ called. 2 + length (declared
        text.now (statement_of first.now)) + length (declared text.now (statement_of
        second.now)) + stmt_steps called x) (1 + weight (scene_of text.now scope.now)
        (expression_of e.now) + act_weight (scene_of text.now scope.now) (statement_of
        first.now) + act_weight (scene_of text.now scope.now) (statement_of second.now))) }
{
    let a = boxed(alloc, text, scope, names, first)?;
    let b = boxed(alloc, text, scope, names, second)?;
    let x = resolve(alloc, text, scope, names, e)?;
    Ok(TStmt::IfElse(x, a, b))
}

#[cycle(blocks)]
fn case<'a>(
    alloc: Global,
    text: &'a [u8],
    scope: &Scope,
    names: &Names<'a>,
    e: &Expr,
    arms: &[Arm<Stmt>],
    otherwise: &Option<Vec<Stmt>>,
) -> Result<TStmt, OutOfMemory>
    ensures meaning { IfOk result (λ x. (around : Around) → trees.stmt x (tables_of around scope.now)
        ≡ cases
        (value (expression_of e.now) (context_of text.now around scope.now names.now))
        (picked (arms_in (context_of text.now around scope.now names.now) arms.now)
        (otherwise_in (context_of text.now around scope.now names.now)
        otherwise.now))) }
    ensures steps { IfOk result (λ x. Takes scope.now (λ called. 2 + length (arms_declare
        text.now arms.now) + length (otherwise_declares text.now otherwise.now) +
        stmt_steps called x) (1 + weight (scene_of text.now scope.now) (expression_of
        e.now) + arms_weight (scene_of text.now scope.now) (arms_of arms.now) +
        acts_weight (scene_of text.now scope.now) (else_of otherwise.now))) }
{
    let b = resolve_otherwise(alloc, text, scope, names, otherwise)?;
    let a = resolve_arms(alloc, text, scope, names, arms)?;
    let x = resolve(alloc, text, scope, names, e)?;
    Ok(TStmt::Case(x, a, b))
}

#[cycle(blocks)]
fn resolve_otherwise<'a>(
    alloc: Global,
    text: &'a [u8],
    scope: &Scope,
    names: &Names<'a>,
    otherwise: &Option<Vec<Stmt>>,
) -> Result<Vec<TStmt>, OutOfMemory>
    ensures meaning { IfOk result (λ v. (around : Around)
        → trees.body (tables_of around scope.now) v.items
        ≡ otherwise_in (context_of text.now around scope.now names.now)
        otherwise.now) }
    ensures steps { IfOk result (λ v. Takes scope.now (λ called. length
        (otherwise_declares text.now otherwise.now) + body_steps called v.items)
        (acts_weight (scene_of text.now scope.now) (else_of otherwise.now))) }
{
    match otherwise {
        None => Ok(Vec::new(alloc)),
        Some(body) => resolve_all(alloc, text, scope, names, body),
    }
}

#[cycle(blocks)]
fn resolve_arm<'a>(
    alloc: Global,
    text: &'a [u8],
    scope: &Scope,
    names: &Names<'a>,
    arm: &Arm<Stmt>,
) -> Result<TArm<TStmt>, OutOfMemory>
    ensures meaning { IfOk result (λ x. (around : Around)
        → arm_seen (tables_of around scope.now) x
        ≡ arm_in (context_of text.now around scope.now names.now) arm.now) }
    ensures steps { IfOk result (λ x. Takes scope.now (λ called. length (arm_declares
        text.now arm.now) + body_steps called x.body.items) (acts_weight (scene_of
        text.now scope.now) (statements_of arm.now.body.items))) }
{
    let body = resolve_all(alloc, text, scope, names, &arm.body)?;
    let labels = set_of(alloc, text, scope, &arm.labels)?;
    Ok(TArm { labels, body })
}

#[cycle(blocks)]
fn resolve_arms<'a>(
    alloc: Global,
    text: &'a [u8],
    scope: &Scope,
    names: &Names<'a>,
    arms: &[Arm<Stmt>],
) -> Result<Vec<TArm<TStmt>>, OutOfMemory>
    ensures meaning { IfOk result (λ v. (around : Around)
        → arms_seen (tables_of around scope.now) v.items
        ≡ arms_in (context_of text.now around scope.now names.now) arms.now) }
    ensures steps { IfOk result (λ v. Takes scope.now (λ called. length (arms_declare
        text.now arms.now) + arms_steps called v.items) (arms_weight (scene_of text.now
        scope.now) (arms_of arms.now))) }
{
    let mut all = Vec::with_capacity(alloc, arms.len())?;
    for arm in arms {
        all.push(resolve_arm(alloc, text, scope, names, arm)?)?;
    }
    Ok(all)
}

// ---- loops

/// The variable is the last one in the body, and isn't seen behind it.
#[cycle(blocks)]
fn each<'a>(
    alloc: Global,
    text: &'a [u8],
    scope: &Scope,
    names: &Names<'a>,
    name: &Name,
    list: &Expr,
    body: &Stmt,
) -> Result<TStmt, OutOfMemory>
    ensures meaning { IfOk result (λ x. (around : Around) → trees.stmt x (tables_of around scope.now)
        ≡ loop
        (value (expression_of list.now) (context_of text.now around scope.now names.now))
        (act (statement_of body.now)
        (with_variables (context_of text.now around scope.now names.now)
        (name_bytes text.now name.now ∷ [])))) }
    ensures steps { IfOk result (λ x. Takes scope.now (λ called. 2 + length (declared
        text.now (statement_of body.now)) + stmt_steps called x) (1 + weight (scene_of
        text.now scope.now) (expression_of list.now) + 120 * act_weight (scene_of text.now
        scope.now) (statement_of body.now))) }
{
    let inner = names.with_name(alloc, name.bytes(text))?;
    let a = boxed(alloc, text, scope, &inner, body)?;
    let x = resolve(alloc, text, scope, names, list)?;
    Ok(TStmt::For(x, a))
}
