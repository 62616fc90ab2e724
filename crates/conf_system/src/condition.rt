//! Conditions that stand in texts of their own.
ghost use Rattle.std.specs.Prelude.{◌≡◌, ◌<◌, ◌^◌, ℕ, List, length, Option, IfOk, IfSome, IsSome, MatchOption};
ghost use Rattle.conf_ast.specs.Filters.{expression_of};
ghost use Rattle.conf_scan.specs.Lex.{Lexes};
ghost use Rattle.filt_check.specs.Answers.{IsFault};
ghost use Rattle.filt_types.specs.declared.refusal.Refusal.{Refusal};
ghost use Rattle.conf_system.specs.Asked.{Asks, Refuses};
ghost use Rattle.conf_system.specs.Coded.{AllCanRun, AreWithin, CanRun, CanRunOver, IsTyped};
ghost use Rattle.conf_system.specs.Conditions.{IsCondition, IsExpressionText, IsNoExpression, RefusesCondition};
ghost use Rattle.conf_system.specs.Seen.{asked_over, filter_says, system_of, tree_says};

use crate::system::System;
use bits_ip::OutOfMemory;
use conf_ast::filters::Expr;
use conf_scan::{LexFault, Token, lex};
use filt_check::{TypeFault, check_expr};
use filt_laws::laws::typed_filters_are_never_stuck;
use filt_meaning::{Scope, TFilter};
use filt_syntax::{SyntaxFault, parse_expr};
use std::alloc::Global;

/// The expression that all tokens of a text are.
pub(crate) fn expression(alloc: Global, text: &[u8]) -> Result<Option<Expr>, OutOfMemory>
    requires short { length text.now < 2 ^ 32 }
    ensures { IfOk result (λ found. MatchOption found (IsNoExpression text.now)
        (λ tree. IsExpressionText text.now (expression_of tree))) }
{
    match lex(alloc, text) {
        Ok(tokens) => whole(alloc, text, &tokens),
        Err(LexFault::Bad { .. }) => Ok(None),
        Err(LexFault::Memory) => Err(OutOfMemory),
    }
}

/// The expression that these tokens of a text are.
fn whole(alloc: Global, text: &[u8], tokens: &[Token]) -> Result<Option<Expr>, OutOfMemory>
    requires short { length text.now < 2 ^ 32 }
    requires lexed { Lexes 0 text.now tokens.now }
    ensures { IfOk result (λ found. MatchOption found (IsNoExpression text.now)
        (λ tree. IsExpressionText text.now (expression_of tree))) }
{
    match parse_expr(alloc, tokens, text, 0) {
        Ok((tree, end)) => {
            if end < tokens.len() {
                Ok(None)
            } else {
                Ok(Some(tree))
            }
        }
        Err(SyntaxFault::Memory) => Err(OutOfMemory),
        Err(SyntaxFault::Bad { .. }) => Ok(None),
        Err(SyntaxFault::TooDeep { .. }) => Ok(None),
        Err(SyntaxFault::Unsupported { .. }) => Ok(None),
    }
}

/// What is answered of a text of which this is the expression, where it is one.
pub(crate) fn answered(
    alloc: Global,
    text: &[u8],
    system: &System,
    found: &Option<Expr>,
) -> Result<Option<TFilter>, OutOfMemory>
    requires { MatchOption found.now (IsNoExpression text.now)
        (λ tree. IsExpressionText text.now (expression_of tree)) }
    ensures condition { IfOk result (λ answer. MatchOption answer
        (RefusesCondition (system_of system.now) text.now)
        (λ filter. IsCondition (system_of system.now) text.now (filter_says system.now filter))) }
    ensures before { AllCanRun system.now
        → IfOk result (λ answer. IfSome answer (CanRunOver system.now)) }
{
    match found {
        Some(tree) => checked(alloc, text, &system.checked.declared.scope, tree),
        None => Ok(None),
    }
}

/// The tree of a condition, and nothing where it is refused.
fn checked(
    alloc: Global,
    text: &[u8],
    scope: &Scope,
    condition: &Expr,
) -> Result<Option<TFilter>, OutOfMemory>
    ensures asked { (names : List (List ℕ))
        → IfOk result (λ answer. MatchOption answer
        (asked_over scope.now names text.now (expression_of condition.now) ≡ Refuses)
        (λ filter. asked_over scope.now names text.now (expression_of condition.now)
        ≡ Asks (tree_says scope.now names filter))) }
    ensures before { AreWithin scope.now → IsTyped scope.now
        → IfOk result (λ answer. IfSome answer (CanRun scope.now)) }
{
    typed_filters_are_never_stuck();
    match check_expr(alloc, text, scope, 0, condition) {
        Ok(filter) => Ok(Some(filter)),
        Err(fault) => {
            refused(fault)?;
            Ok(None)
        }
    }
}

/// Whether a fault of a condition is a refusal: else it is want of memory.
fn refused(fault: TypeFault) -> Result<(), OutOfMemory>
    ensures { (weight : ℕ) (first : Option Refusal) → IsFault weight fault first
        → IfOk result (λ _. IsSome first) }
{
    match fault {
        TypeFault::Memory => Err(OutOfMemory),
        TypeFault::UnknownName { .. } => Ok(()),
        TypeFault::DuplicateName { .. } => Ok(()),
        TypeFault::Mismatch { .. } => Ok(()),
        TypeFault::NotAssignable { .. } => Ok(()),
        TypeFault::TooHeavy { .. } => Ok(()),
        TypeFault::Limit { .. } => Ok(()),
    }
}
