// Statements without statements in them, from names to places.

ghost use Rattle.std.specs.Prelude.{◌≡◌, ◌+◌, ℕ, IfOk, Some, option_map};
ghost use Rattle.conf_ast.specs.Filters.{expression_of, changed};
ghost use Rattle.conf_ast.specs.declared.filters.Target.TheVariants as targets;
ghost use Rattle.filt_meaning.specs.Meaning as meaning;
ghost use Rattle.filt_meaning.specs.Meaning.{act, assign, call, evaluate, initial, on_two};
ghost use Rattle.filt_meaning.specs.Meaning.{on_value, read, set_target, value};
ghost use Rattle.filt_meaning.specs.Operators.{emptied_of};
ghost use Rattle.filt_meaning.specs.Names.{Around, function_of};
ghost use Rattle.filt_meaning.specs.declared.scope.Scope.{Scope};
ghost use Rattle.filt_meaning.specs.Scopes.{context_of, tables_of};
ghost use Rattle.filt_meaning.specs.Trees as trees;
ghost use Rattle.filt_meaning.specs.Steps.{expr_steps, stmt_steps};
ghost use Rattle.filt_types.specs.Seen.{scene_of};
ghost use Rattle.filt_types.specs.Scenes as scenes;
ghost use Rattle.filt_types.specs.Weight.{act_weight, of_function, optional, weight};
ghost use Rattle.filt_resolve.specs.Seen.{values_in};
ghost use Rattle.filt_resolve.specs.Steps.{Takes, given_weight};

use bits_ip::OutOfMemory;
use conf_ast::Name;
use conf_ast::filters::{Change, Expr, MethodKind, Target, VariableType};
use filt_meaning::{Scope, TExpr, TStmt, TTarget, type_sort};
use filt_resolve::{Names, boxed, function, named, resolve, resolve_all};
use std::alloc::Global;

// ---- targets

fn variable(text: &[u8], names: &Names<'_>, name: &Name) -> TTarget
    ensures { (around : Around) (scope : Scope) → trees.set_place result
        ≡ set_target (context_of text.now around scope names.now)
        (targets.Name name.now) }
{
    match names.place(name.bytes(text)) {
        Some(slot) => TTarget::Local(slot),
        None => TTarget::Nowhere,
    }
}

fn target_place(text: &[u8], names: &Names<'_>, target: &Target) -> TTarget
    ensures { (around : Around) (scope : Scope) → trees.set_place result
        ≡ set_target (context_of text.now around scope names.now) target.now }
{
    match target {
        Target::Name(name) => variable(text, names, name),
        Target::Attribute { attribute, .. } => TTarget::Attribute(*attribute),
    }
}

/// What the target holds.
fn target_value(text: &[u8], scope: &Scope, names: &Names<'_>, target: &Target) -> TExpr
    ensures meaning { (around : Around) → trees.expr result (tables_of around scope.now)
        ≡ value (read target.now) (context_of text.now around scope.now names.now) }
    ensures steps { (called : ℕ → ℕ) → expr_steps called result ≡ 1 }
{
    match target {
        Target::Name(name) => named(text, scope, names, name),
        Target::Attribute { attribute, .. } => TExpr::Attribute(*attribute),
    }
}

// ---- assignments

/// A declaration without a value sets the variable to what is empty.
pub(crate) fn declare(
    alloc: Global,
    text: &[u8],
    scope: &Scope,
    names: &Names<'_>,
    variable_type: VariableType,
    name: &Name,
    first: &Option<Expr>,
) -> Result<TStmt, OutOfMemory>
    ensures meaning { IfOk result (λ x. (around : Around) → trees.stmt x (tables_of around scope.now)
        ≡ assign (context_of text.now around scope.now names.now)
        (targets.Name name.now)
        (initial variable_type (option_map expression_of first.now)
        (context_of text.now around scope.now names.now))) }
    ensures steps { IfOk result (λ x. Takes scope.now (λ called. 3 + stmt_steps called x)
        (1 + optional (scene_of text.now scope.now) (option_map expression_of first.now))) }
{
    match first {
        None => {
            let empty = TExpr::Default(type_sort(variable_type));
            Ok(TStmt::Assign(variable(text, names, name), empty))
        }
        Some(e) => {
            let x = resolve(alloc, text, scope, names, e)?;
            Ok(TStmt::Assign(variable(text, names, name), x))
        }
    }
}

pub(crate) fn assign(
    alloc: Global,
    text: &[u8],
    scope: &Scope,
    names: &Names<'_>,
    target: &Target,
    e: &Expr,
) -> Result<TStmt, OutOfMemory>
    ensures meaning { IfOk result (λ x. (around : Around) → trees.stmt x (tables_of around scope.now)
        ≡ assign (context_of text.now around scope.now names.now) target.now
        (value (expression_of e.now)
        (context_of text.now around scope.now names.now))) }
    ensures steps { IfOk result (λ x. Takes scope.now (λ called. 2 + stmt_steps called x)
        (1 + weight (scene_of text.now scope.now) (expression_of e.now))) }
{
    let x = resolve(alloc, text, scope, names, e)?;
    Ok(TStmt::Assign(target_place(text, names, target), x))
}

/// The target is set to what a method makes of what it holds.
fn change_by(
    alloc: Global,
    text: &[u8],
    scope: &Scope,
    names: &Names<'_>,
    target: &Target,
    kind: MethodKind,
    argument: &Expr,
) -> Result<TStmt, OutOfMemory>
    ensures meaning { IfOk result (λ x. (around : Around) → trees.stmt x (tables_of around scope.now)
        ≡ assign (context_of text.now around scope.now names.now) target.now
        (on_two
        (value (read target.now) (context_of text.now around scope.now names.now))
        (value (expression_of argument.now)
        (context_of text.now around scope.now names.now)) (meaning.method_of kind))) }
    ensures steps { IfOk result (λ x. Takes scope.now (λ called. 2 + stmt_steps called x)
        (1 + weight (scene_of text.now scope.now) (expression_of argument.now))) }
{
    let held = Box::new(alloc, target_value(text, scope, names, target))?;
    let given = boxed(alloc, text, scope, names, argument)?;
    Ok(TStmt::Assign(
        target_place(text, names, target),
        TExpr::Method(kind, held, given),
    ))
}

/// The target is set to the empty list.
fn clear(
    alloc: Global,
    text: &[u8],
    scope: &Scope,
    names: &Names<'_>,
    target: &Target,
) -> Result<TStmt, OutOfMemory>
    ensures meaning { IfOk result (λ x. (around : Around) → trees.stmt x (tables_of around scope.now)
        ≡ assign (context_of text.now around scope.now names.now) target.now
        (on_value
        (value (read target.now) (context_of text.now around scope.now names.now))
        emptied_of)) }
    ensures steps { IfOk result (λ x. Takes scope.now (λ called. 2 + stmt_steps called x)
        (1)) }
{
    let held = Box::new(alloc, target_value(text, scope, names, target))?;
    Ok(TStmt::Assign(target_place(text, names, target), TExpr::Empty(held)))
}

pub(crate) fn change(
    alloc: Global,
    text: &[u8],
    scope: &Scope,
    names: &Names<'_>,
    target: &Target,
    change: &Change,
) -> Result<TStmt, OutOfMemory>
    ensures meaning { IfOk result (λ x. (around : Around) → trees.stmt x (tables_of around scope.now)
        ≡ act (changed target.now change.now)
        (context_of text.now around scope.now names.now)) }
    ensures steps { IfOk result (λ x. Takes scope.now (λ called. 2 + stmt_steps called x)
        (act_weight (scene_of text.now scope.now) (changed target.now change.now))) }
{
    match change {
        Change::Empty => clear(alloc, text, scope, names, target),
        Change::Method {
            method,
            argument,
            ..
        } => { change_by(alloc, text, scope, names, target, method.kind, argument) }
    }
}

// ---- ends, calls

pub(crate) fn returned(
    alloc: Global,
    text: &[u8],
    scope: &Scope,
    names: &Names<'_>,
    given: &Option<Expr>,
) -> Result<TStmt, OutOfMemory>
    ensures meaning { IfOk result (λ x. (around : Around) → trees.stmt x (tables_of around scope.now)
        ≡ meaning.result (option_map expression_of given.now)
        (context_of text.now around scope.now names.now)) }
    ensures steps { IfOk result (λ x. Takes scope.now (λ called. 2 + stmt_steps called x)
        (1 + optional (scene_of text.now scope.now) (option_map expression_of given.now))) }
{
    match given {
        None => Ok(TStmt::Return(None)),
        Some(e) => {
            let x = resolve(alloc, text, scope, names, e)?;
            Ok(TStmt::Return(Some(x)))
        }
    }
}

pub(crate) fn print(
    alloc: Global,
    text: &[u8],
    scope: &Scope,
    names: &Names<'_>,
    given: &[Expr],
) -> Result<TStmt, OutOfMemory>
    ensures meaning { IfOk result (λ x. (around : Around) → trees.stmt x (tables_of around scope.now)
        ≡ evaluate (trees.all_values
        (values_in (context_of text.now around scope.now names.now) given.now))) }
    ensures steps { IfOk result (λ x. Takes scope.now (λ called. 2 + stmt_steps called x)
        (1 + given_weight (scene_of text.now scope.now) given.now)) }
{
    let all = resolve_all(alloc, text, scope, names, given)?;
    Ok(TStmt::Print(all))
}

/// A call of what isn't a function is stuck.
pub(crate) fn called(
    alloc: Global,
    text: &[u8],
    scope: &Scope,
    names: &Names<'_>,
    name: &Name,
    given: &[Expr],
) -> Result<TStmt, OutOfMemory>
    ensures meaning { IfOk result (λ x. (around : Around) → trees.stmt x (tables_of around scope.now)
        ≡ evaluate (call
        (function_of (context_of text.now around scope.now names.now) name.now)
        (trees.all_values
        (values_in (context_of text.now around scope.now names.now) given.now)))) }
    ensures steps { IfOk result (λ x. Takes scope.now (λ called. 2 + stmt_steps called x)
        (1 + given_weight (scene_of text.now scope.now) given.now + of_function
        (scenes.function_of (scene_of text.now scope.now) name.now))) }
{
    let arguments = resolve_all(alloc, text, scope, names, given)?;
    match function(text, scope, name) {
        Some(number) => Ok(TStmt::Call(number, arguments)),
        None => Ok(TStmt::Return(Some(TExpr::Stuck))),
    }
}
