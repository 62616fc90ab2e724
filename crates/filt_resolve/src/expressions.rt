// Expressions from names to places. What stands for nothing is `Stuck`, so that a tree comes of
// each expression, whatever its types.

ghost use Rattle.std.specs.Prelude.{◌≡◌, ◌≤◌, ◌+◌, ◌*◌, List, ℕ, IfOk, Ok, take, drop, map};
ghost use Rattle.conf_ast.specs.Filters.{expression_of};
ghost use Rattle.filt_meaning.specs.Meaning.{value, plain, given, on_two, called_value, factor_of};
ghost use Rattle.filt_meaning.specs.Meaning.{term_of};
ghost use Rattle.filt_meaning.specs.Meaning as meaning;
ghost use Rattle.filt_meaning.specs.Attributes.{value_of_constant};
ghost use Rattle.filt_meaning.specs.Items.{mask_of, set_of};
ghost use Rattle.filt_meaning.specs.Names.{Around, function_of};
ghost use Rattle.filt_meaning.specs.declared.scope.Scope.{Scope};
ghost use Rattle.filt_meaning.specs.Scopes.{context_of, tables_of};
ghost use Rattle.filt_meaning.specs.Trees as trees;
ghost use Rattle.filt_meaning.specs.Trees.{Tables};
ghost use Rattle.filt_meaning.specs.Operators.{pair_of};
ghost use Rattle.filt_meaning.specs.Seen.{val_of_fixed};
ghost use Rattle.filt_meaning.specs.declared.scope.TFunction.{TFunction};
ghost use Rattle.filt_meaning.specs.Steps.{expr_steps, exprs_steps, sum_over};
ghost use Rattle.filt_types.specs.Seen.{scene_of};
ghost use Rattle.filt_types.specs.Scenes as scenes;
ghost use Rattle.filt_types.specs.Weight.{of_function, weight};
ghost use Rattle.filt_types.specs.Walk.{access_weight};
ghost use Rattle.filt_meaning.specs.Values.{VString};
ghost use Rattle.filt_resolve.specs.Seen.{access_in, accesses_in, values_in, parts_in};
ghost use Rattle.filt_resolve.specs.Steps.{Takes, calls, dot_steps, dots_steps, dots_weight, given_weight};
ghost use Rattle.filt_resolve.specs.Steps.{parts_steps, parts_weight};

use crate::comparing::comparison;
use crate::names::{Names, function, named};
use attrs::{Dest, Kind, Origin};
use bits_ip::OutOfMemory;
use conf_ast::filters::{
    Access, AddOp, Atom, CompareOp, Constant, Expr, Item, LogicalOp, MaskItem, MethodKind, MulOp,
};
use conf_ast::{Name, bytes_at};
use filt_items::{mask_of, set_of};
use filt_meaning::{Fixed, Labels, Scope, TAccess, TExpr};
use std::alloc::Global;

// ---- words

fn constant_value(constant: Constant) -> Fixed
    ensures { val_of_fixed result ≡ value_of_constant constant }
{
    match constant {
        Constant::RtsStatic => Fixed::Source(Kind::Static),
        Constant::RtsBgp => Fixed::Source(Kind::Bgp),
        Constant::RtdUnicast => Fixed::Dest(Dest::Unicast),
        Constant::RtdRouter => Fixed::Dest(Dest::Unicast),
        Constant::RtdBlackhole => Fixed::Dest(Dest::Blackhole),
        Constant::RtdUnreachable => Fixed::Dest(Dest::Unreachable),
        Constant::RtdProhibit => Fixed::Dest(Dest::Prohibit),
        Constant::OriginIgp => Fixed::Origin(Origin::Igp),
        Constant::OriginEgp => Fixed::Origin(Origin::Egp),
        Constant::OriginIncomplete => Fixed::Origin(Origin::Incomplete),
    }
}

fn text_value(alloc: Global, text: &[u8], start: usize, len: usize) -> Result<TExpr, OutOfMemory>
    ensures meaning { IfOk result (λ x. (tables : Tables) → trees.expr x tables
        ≡ given (Ok (VString (take len (drop start text.now))))) }
    ensures steps { IfOk result (λ x. (called : ℕ → ℕ) → expr_steps called x ≡ 1) }
{
    let bytes = Vec::from_slice(alloc, bytes_at(text, start, len))?;
    Ok(TExpr::Value(Fixed::String(bytes)))
}

fn simple(alloc: Global, text: &[u8], word: &Atom) -> Result<TExpr, OutOfMemory>
    ensures meaning { IfOk result (λ x. (around : Around) (scope : Scope) (variables : List (List ℕ))
        → trees.expr x (tables_of around scope)
        ≡ plain word.now (context_of text.now around scope variables)) }
    ensures steps { IfOk result (λ x. (called : ℕ → ℕ) → expr_steps called x ≡ 1) }
{
    match word {
        Atom::Number { value, .. } => Ok(TExpr::Value(Fixed::Int(*value))),
        Atom::Text { start, len, .. } => text_value(alloc, text, *start, *len),
        Atom::Ip { addr, .. } => Ok(TExpr::Value(Fixed::Ip(addr.addr()))),
        Atom::Prefix { net, .. } => Ok(TExpr::Value(Fixed::Prefix(*net))),
        Atom::True { .. } => Ok(TExpr::Value(Fixed::Bool(true))),
        Atom::False { .. } => Ok(TExpr::Value(Fixed::Bool(false))),
        Atom::EmptyPath { .. } => Ok(TExpr::Value(Fixed::EmptyPath)),
        Atom::EmptyClist { .. } => Ok(TExpr::Value(Fixed::EmptyClist)),
        Atom::Attribute { attribute, .. } => Ok(TExpr::Attribute(*attribute)),
        Atom::Constant { constant, .. } => Ok(TExpr::Value(constant_value(*constant))),
    }
}

// ---- sets and masks

fn set_value(set: Labels) -> TExpr
    ensures meaning { (tables : Tables) → trees.expr result tables ≡ given (trees.set_of_labels set) }
    ensures steps { (called : ℕ → ℕ) → expr_steps called result ≡ 1 }
{
    match set {
        Labels::Ints(ints) => TExpr::Value(Fixed::IntSet(ints)),
        Labels::Pairs(pairs) => TExpr::Value(Fixed::PairSet(pairs)),
        Labels::Prefixes(prefixes) => TExpr::Value(Fixed::PrefixSet(prefixes)),
        Labels::Stuck => TExpr::Stuck,
    }
}

fn set(alloc: Global, text: &[u8], scope: &Scope, items: &[Item]) -> Result<TExpr, OutOfMemory>
    ensures meaning { IfOk result (λ x. (around : Around) (variables : List (List ℕ))
        → trees.expr x (tables_of around scope.now)
        ≡ given (set_of (context_of text.now around scope.now variables) items.now)) }
    ensures steps { IfOk result (λ x. (called : ℕ → ℕ) → expr_steps called x ≡ 1) }
{
    let labels = set_of(alloc, text, scope, items)?;
    Ok(set_value(labels))
}

fn mask(alloc: Global, text: &[u8], scope: &Scope, items: &[MaskItem]) -> Result<TExpr, OutOfMemory>
    ensures meaning { IfOk result (λ x. (around : Around) (variables : List (List ℕ))
        → trees.expr x (tables_of around scope.now)
        ≡ given (mask_of (context_of text.now around scope.now variables) items.now)) }
    ensures steps { IfOk result (λ x. (called : ℕ → ℕ) → expr_steps called x ≡ 1) }
{
    match mask_of(alloc, text, scope, items)? {
        Some(mask) => Ok(TExpr::Value(Fixed::Mask(mask))),
        None => Ok(TExpr::Stuck),
    }
}

// ---- calls

fn called(text: &[u8], scope: &Scope, name: &Name, arguments: Vec<TExpr>) -> TExpr
    ensures meaning { (around : Around) (variables : List (List ℕ))
        → trees.expr result (tables_of around scope.now)
        ≡ called_value (function_of (context_of text.now around scope.now variables) name.now)
        (trees.all_values (trees.exprs (tables_of around scope.now) arguments.items)) }
    ensures steps { (more : List TFunction) → expr_steps (calls scope.now more) result ≤ 2
        + exprs_steps (calls scope.now more) arguments.items + 5 * of_function
        (scenes.function_of (scene_of text.now scope.now) name.now) }
{
    match function(text, scope, name) {
        Some(number) => TExpr::Call(number, arguments),
        None => TExpr::Stuck,
    }
}

// ---- expressions

/// The tree of an expression over variables that stand in the frame in the order of these names.
/// What stands for nothing is stuck in it, so that a tree comes of each expression. Refused alone
/// where memory is.
#[cycle(resolve)]
pub fn resolve(
    alloc: Global,
    text: &[u8],
    scope: &Scope,
    names: &Names<'_>,
    e: &Expr,
) -> Result<TExpr, OutOfMemory>
    ensures meaning { IfOk result (λ x. (around : Around) → trees.expr x (tables_of around scope.now)
        ≡ value (expression_of e.now)
        (context_of text.now around scope.now names.now)) }
    ensures steps { IfOk result (λ x. Takes scope.now (λ called. 1 + expr_steps called x)
        (weight (scene_of text.now scope.now) (expression_of e.now))) }
{
    match e {
        Expr::Atom(word) => simple(alloc, text, word),
        Expr::Name(name) => Ok(named(text, scope, names, name)),
        Expr::Call {
            name,
            arguments,
            ..
        } => {
            let given = resolve_all(alloc, text, scope, names, arguments)?;
            Ok(called(text, scope, name, given))
        }
        Expr::Group { inner, .. } => resolve(alloc, text, scope, names, inner),
        Expr::Pair { first, second, .. } => pair(alloc, text, scope, names, first, second),
        Expr::Set { items, .. } => set(alloc, text, scope, items),
        Expr::Mask { items, .. } => mask(alloc, text, scope, items),
        Expr::Defined { attribute, .. } => Ok(TExpr::Defined(*attribute)),
        Expr::MethodCall {
            method,
            list,
            argument,
            ..
        } => { method_of(alloc, text, scope, names, method.kind, list, argument) }
        Expr::Postfix(operand, more) => access(alloc, text, scope, names, operand, more),
        Expr::Not { operand, .. } => {
            let x = boxed(alloc, text, scope, names, operand)?;
            Ok(TExpr::Not(x))
        }
        Expr::Product(operand, more) => product(alloc, text, scope, names, operand, more),
        Expr::Sum(operand, more) => sum(alloc, text, scope, names, operand, more),
        Expr::Compare(op, left, right) => compare(alloc, text, scope, names, *op, left, right),
        Expr::Logical(operand, more) => joint(alloc, text, scope, names, operand, more),
    }
}

/// As `resolve`, in a box.
#[cycle(resolve)]
pub fn boxed(
    alloc: Global,
    text: &[u8],
    scope: &Scope,
    names: &Names<'_>,
    e: &Expr,
) -> Result<Box<TExpr>, OutOfMemory>
    ensures meaning { IfOk result (λ b. (around : Around) → trees.expr b.value (tables_of around scope.now)
        ≡ value (expression_of e.now)
        (context_of text.now around scope.now names.now)) }
    ensures steps { IfOk result (λ b. Takes scope.now (λ called. 1 + expr_steps called
        b.value) (weight (scene_of text.now scope.now) (expression_of e.now))) }
{
    let x = resolve(alloc, text, scope, names, e)?;
    Ok(Box::new(alloc, x)?)
}

#[cycle(resolve)]
fn pair(
    alloc: Global,
    text: &[u8],
    scope: &Scope,
    names: &Names<'_>,
    first: &Expr,
    second: &Expr,
) -> Result<TExpr, OutOfMemory>
    ensures meaning { IfOk result (λ x. (around : Around) → trees.expr x (tables_of around scope.now)
        ≡ on_two
        (value (expression_of first.now)
        (context_of text.now around scope.now names.now))
        (value (expression_of second.now)
        (context_of text.now around scope.now names.now)) pair_of) }
    ensures steps { IfOk result (λ x. Takes scope.now (λ called. 1 + expr_steps called x)
        (1 + weight (scene_of text.now scope.now) (expression_of first.now) + weight
        (scene_of text.now scope.now) (expression_of second.now))) }
{
    let a = boxed(alloc, text, scope, names, first)?;
    let b = boxed(alloc, text, scope, names, second)?;
    Ok(TExpr::Pair(a, b))
}

#[cycle(resolve)]
fn method_of(
    alloc: Global,
    text: &[u8],
    scope: &Scope,
    names: &Names<'_>,
    kind: MethodKind,
    list: &Expr,
    argument: &Expr,
) -> Result<TExpr, OutOfMemory>
    ensures meaning { IfOk result (λ x. (around : Around) → trees.expr x (tables_of around scope.now)
        ≡ on_two
        (value (expression_of list.now)
        (context_of text.now around scope.now names.now))
        (value (expression_of argument.now)
        (context_of text.now around scope.now names.now)) (meaning.method_of kind)) }
    ensures steps { IfOk result (λ x. Takes scope.now (λ called. 1 + expr_steps called x)
        (1 + weight (scene_of text.now scope.now) (expression_of list.now) + weight
        (scene_of text.now scope.now) (expression_of argument.now))) }
{
    let a = boxed(alloc, text, scope, names, list)?;
    let b = boxed(alloc, text, scope, names, argument)?;
    Ok(TExpr::Method(kind, a, b))
}

#[cycle(resolve)]
fn compare(
    alloc: Global,
    text: &[u8],
    scope: &Scope,
    names: &Names<'_>,
    op: CompareOp,
    left: &Expr,
    right: &Expr,
) -> Result<TExpr, OutOfMemory>
    ensures meaning { IfOk result (λ x. (around : Around) → trees.expr x (tables_of around scope.now)
        ≡ on_two
        (value (expression_of left.now)
        (context_of text.now around scope.now names.now))
        (value (expression_of right.now)
        (context_of text.now around scope.now names.now)) (meaning.compare_of op)) }
    ensures steps { IfOk result (λ x. Takes scope.now (λ called. 1 + expr_steps called x)
        (1 + weight (scene_of text.now scope.now) (expression_of left.now) + weight
        (scene_of text.now scope.now) (expression_of right.now))) }
{
    let a = boxed(alloc, text, scope, names, left)?;
    let b = boxed(alloc, text, scope, names, right)?;
    Ok(comparison(op, a, b))
}

/// The trees of expressions between commas, in their order.
#[cycle(resolve)]
pub fn resolve_all(
    alloc: Global,
    text: &[u8],
    scope: &Scope,
    names: &Names<'_>,
    given: &[Expr],
) -> Result<Vec<TExpr>, OutOfMemory>
    ensures meaning { IfOk result (λ v. (around : Around)
        → trees.exprs (tables_of around scope.now) v.items
        ≡ values_in (context_of text.now around scope.now names.now) given.now) }
    ensures steps { IfOk result (λ v. Takes scope.now (λ called. sum_over 1 (map
        (expr_steps called) v.items)) (given_weight (scene_of text.now scope.now)
        given.now)) }
{
    let mut all = Vec::with_capacity(alloc, given.len())?;
    for e in given {
        all.push(resolve(alloc, text, scope, names, e)?)?;
    }
    Ok(all)
}

// ---- chains

#[cycle(resolve)]
fn access(
    alloc: Global,
    text: &[u8],
    scope: &Scope,
    names: &Names<'_>,
    operand: &Expr,
    more: &[Access<Expr>],
) -> Result<TExpr, OutOfMemory>
    ensures meaning { IfOk result (λ x. (around : Around) → trees.expr x (tables_of around scope.now)
        ≡ trees.accessed
        (value (expression_of operand.now)
        (context_of text.now around scope.now names.now))
        (accesses_in (context_of text.now around scope.now names.now) more.now)) }
    ensures steps { IfOk result (λ x. Takes scope.now (λ called. 1 + expr_steps called x)
        (weight (scene_of text.now scope.now) (expression_of operand.now) + dots_weight
        (scene_of text.now scope.now) more.now)) }
{
    let a = boxed(alloc, text, scope, names, operand)?;
    let accesses = resolve_accesses(alloc, text, scope, names, more)?;
    Ok(TExpr::Access(a, accesses))
}

#[cycle(resolve)]
fn resolve_access(
    alloc: Global,
    text: &[u8],
    scope: &Scope,
    names: &Names<'_>,
    access: &Access<Expr>,
) -> Result<TAccess<TExpr>, OutOfMemory>
    ensures meaning { IfOk result (λ x. (around : Around)
        → trees.access (tables_of around scope.now) x
        ≡ access_in (context_of text.now around scope.now names.now) access.now) }
    ensures steps { IfOk result (λ x. Takes scope.now (λ called. 1 + dot_steps called x)
        (access_weight (scene_of text.now scope.now) access.now)) }
{
    match access {
        Access::Property(property) => Ok(TAccess::Property(*property)),
        Access::Method {
            method,
            argument,
            ..
        } => {
            let x = resolve(alloc, text, scope, names, argument)?;
            Ok(TAccess::Method(method.kind, x))
        }
    }
}

#[cycle(resolve)]
fn resolve_accesses(
    alloc: Global,
    text: &[u8],
    scope: &Scope,
    names: &Names<'_>,
    more: &[Access<Expr>],
) -> Result<Vec<TAccess<TExpr>>, OutOfMemory>
    ensures meaning { IfOk result (λ v. (around : Around)
        → trees.accesses_of (tables_of around scope.now) v.items
        ≡ accesses_in (context_of text.now around scope.now names.now) more.now) }
    ensures steps { IfOk result (λ v. Takes scope.now (λ called. dots_steps called
        v.items) (dots_weight (scene_of text.now scope.now) more.now)) }
{
    let mut all = Vec::with_capacity(alloc, more.len())?;
    for access in more {
        all.push(resolve_access(alloc, text, scope, names, access)?)?;
    }
    Ok(all)
}

#[cycle(resolve)]
fn product(
    alloc: Global,
    text: &[u8],
    scope: &Scope,
    names: &Names<'_>,
    operand: &Expr,
    more: &[(MulOp, Expr)],
) -> Result<TExpr, OutOfMemory>
    ensures meaning { IfOk result (λ x. (around : Around) → trees.expr x (tables_of around scope.now)
        ≡ trees.chain factor_of
        (value (expression_of operand.now)
        (context_of text.now around scope.now names.now))
        (parts_in (context_of text.now around scope.now names.now) more.now)) }
    ensures steps { IfOk result (λ x. Takes scope.now (λ called. 1 + expr_steps called x)
        (weight (scene_of text.now scope.now) (expression_of operand.now) + parts_weight
        (scene_of text.now scope.now) more.now)) }
{
    let a = boxed(alloc, text, scope, names, operand)?;
    let factors = resolve_factors(alloc, text, scope, names, more)?;
    Ok(TExpr::Product(a, factors))
}

#[cycle(resolve)]
fn resolve_factors(
    alloc: Global,
    text: &[u8],
    scope: &Scope,
    names: &Names<'_>,
    more: &[(MulOp, Expr)],
) -> Result<Vec<(MulOp, TExpr)>, OutOfMemory>
    ensures meaning { IfOk result (λ v. (around : Around)
        → trees.parts (tables_of around scope.now) v.items
        ≡ parts_in (context_of text.now around scope.now names.now) more.now) }
    ensures steps { IfOk result (λ v. Takes scope.now (λ called. parts_steps 1 called
        v.items) (parts_weight (scene_of text.now scope.now) more.now)) }
{
    let mut all = Vec::with_capacity(alloc, more.len())?;
    for x in more {
        let operand = resolve(alloc, text, scope, names, &x.1)?;
        all.push((x.0, operand))?;
    }
    Ok(all)
}

#[cycle(resolve)]
fn sum(
    alloc: Global,
    text: &[u8],
    scope: &Scope,
    names: &Names<'_>,
    operand: &Expr,
    more: &[(AddOp, Expr)],
) -> Result<TExpr, OutOfMemory>
    ensures meaning { IfOk result (λ x. (around : Around) → trees.expr x (tables_of around scope.now)
        ≡ trees.chain term_of
        (value (expression_of operand.now)
        (context_of text.now around scope.now names.now))
        (parts_in (context_of text.now around scope.now names.now) more.now)) }
    ensures steps { IfOk result (λ x. Takes scope.now (λ called. 1 + expr_steps called x)
        (weight (scene_of text.now scope.now) (expression_of operand.now) + parts_weight
        (scene_of text.now scope.now) more.now)) }
{
    let a = boxed(alloc, text, scope, names, operand)?;
    let terms = resolve_terms(alloc, text, scope, names, more)?;
    Ok(TExpr::Sum(a, terms))
}

#[cycle(resolve)]
fn resolve_terms(
    alloc: Global,
    text: &[u8],
    scope: &Scope,
    names: &Names<'_>,
    more: &[(AddOp, Expr)],
) -> Result<Vec<(AddOp, TExpr)>, OutOfMemory>
    ensures meaning { IfOk result (λ v. (around : Around)
        → trees.parts (tables_of around scope.now) v.items
        ≡ parts_in (context_of text.now around scope.now names.now) more.now) }
    ensures steps { IfOk result (λ v. Takes scope.now (λ called. parts_steps 1 called
        v.items) (parts_weight (scene_of text.now scope.now) more.now)) }
{
    let mut all = Vec::with_capacity(alloc, more.len())?;
    for x in more {
        let operand = resolve(alloc, text, scope, names, &x.1)?;
        all.push((x.0, operand))?;
    }
    Ok(all)
}

#[cycle(resolve)]
fn joint(
    alloc: Global,
    text: &[u8],
    scope: &Scope,
    names: &Names<'_>,
    operand: &Expr,
    more: &[(LogicalOp, Expr)],
) -> Result<TExpr, OutOfMemory>
    ensures meaning { IfOk result (λ x. (around : Around) → trees.expr x (tables_of around scope.now)
        ≡ trees.joints
        (value (expression_of operand.now)
        (context_of text.now around scope.now names.now))
        (parts_in (context_of text.now around scope.now names.now) more.now)) }
    ensures steps { IfOk result (λ x. Takes scope.now (λ called. 1 + expr_steps called x)
        (weight (scene_of text.now scope.now) (expression_of operand.now) + parts_weight
        (scene_of text.now scope.now) more.now)) }
{
    let a = boxed(alloc, text, scope, names, operand)?;
    let others = resolve_joints(alloc, text, scope, names, more)?;
    Ok(TExpr::Joint(a, others))
}

#[cycle(resolve)]
fn resolve_joints(
    alloc: Global,
    text: &[u8],
    scope: &Scope,
    names: &Names<'_>,
    more: &[(LogicalOp, Expr)],
) -> Result<Vec<(LogicalOp, TExpr)>, OutOfMemory>
    ensures meaning { IfOk result (λ v. (around : Around)
        → trees.parts (tables_of around scope.now) v.items
        ≡ parts_in (context_of text.now around scope.now names.now) more.now) }
    ensures steps { IfOk result (λ v. Takes scope.now (λ called. parts_steps 2 called
        v.items) (parts_weight (scene_of text.now scope.now) more.now)) }
{
    let mut all = Vec::with_capacity(alloc, more.len())?;
    for x in more {
        let operand = resolve(alloc, text, scope, names, &x.1)?;
        all.push((x.0, operand))?;
    }
    Ok(all)
}
