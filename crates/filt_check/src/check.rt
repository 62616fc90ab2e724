// The public calls. Each asks for the first refusal, and resolves what has none.

ghost use Rattle.std.specs.Prelude.{◌≡◌, ◌≤◌, ◌+◌, ◌*◌, ◌++◌, [], ℕ, List, length, None, IfOk};
ghost use Rattle.std.specs.Prelude.{MatchResult};
ghost use Rattle.attrs.specs.declared.attributes.Attrs.{Attrs};
ghost use Rattle.conf_ast.specs.Configurations.{routine_of};
ghost use Rattle.conf_ast.specs.Filters.{block_of, expression_of, statements_of};
ghost use Rattle.filt_meaning.specs.Configuration.{body, doing, filter_where};
ghost use Rattle.filt_meaning.specs.Names.{Around};
ghost use Rattle.filt_meaning.specs.Scopes.{constant_values, context_of, function_trees, tables_of};
ghost use Rattle.filt_meaning.specs.Steps.{IsLight, body_steps, called_by, expr_steps, filter_steps, run_steps};
ghost use Rattle.filt_meaning.specs.declared.scope.TFunction.{TFunction};
ghost use Rattle.filt_meaning.specs.Trees as trees;
ghost use Rattle.filt_meaning.specs.Trees.{tree_flow};
ghost use Rattle.filt_types.specs.Refusals.{first_in};
ghost use Rattle.filt_types.specs.Seen.{scene_of, signature_of};
ghost use Rattle.filt_types.specs.Weight.{block_weight};
ghost use Rattle.filt_check.specs.Answers.{IsFault};
ghost use Rattle.filt_types.specs.Refused.{of_filter, of_function, signature_in};
ghost use Rattle.filt_check.specs.Seen.{where_act};

use crate::blocks::resolve_block;
use crate::collect::{parameter_names, parameter_sorts};
use crate::fault::{TypeFault, fault};
use bits_ip::OutOfMemory;
use conf_ast::filters::{Block, Expr, Filter, Function, Stmt};
use filt_meaning::{Scope, TExpr, TFilter, TFunction, TStmt};
use filt_resolve::{Names, resolve};
use filt_rules::{
    first_in_block, first_in_condition, first_in_function, sort_given, weigh_block, weigh_condition,
};
use std::alloc::Global;

// ---- filters

/// Checks a filter of the configuration, whose names the scope declares before it. What is refused
/// first by place is answered; a filter that is too heavy is refused at its name.
///
/// The filter that is made means what the source says, over this scope and each one that declares
/// more behind it. BIRD User's Guide, "Filters".
pub fn check_filter(
    alloc: Global,
    text: &[u8],
    scope: &Scope,
    filter: &Filter,
) -> Result<TFilter, TypeFault>
    ensures answer { MatchResult result
        (λ _. first_in None (of_filter (scene_of text.now scope.now) filter.now.name.at
        (block_of filter.now.block)) ≡ None)
        (λ fault. IsFault
        (block_weight (scene_of text.now scope.now) (block_of filter.now.block)) fault
        (first_in None (of_filter (scene_of text.now scope.now) filter.now.name.at
        (block_of filter.now.block)))) }
    ensures meaning { IfOk result (λ f. (around : Around) (attrs : Attrs)
        → tree_flow around (constant_values scope.now) (function_trees scope.now) f attrs
        ≡ body (context_of text.now around scope.now []) [] (block_of filter.now.block) []
        attrs) }
    ensures sees { IfOk result (λ f. (f.constants ≡ length (constant_values scope.now))
        × (f.functions ≡ length (function_trees scope.now))) }
    ensures steps { IfOk result (λ f. (more : List TFunction)
        → filter_steps (function_trees scope.now ++ more) f
        ≤ 5 * block_weight (scene_of text.now scope.now)
        (block_of filter.now.block)) }
    ensures light { IfOk result (λ f. (more : List TFunction)
        → filter_steps (function_trees scope.now ++ more) f ≤ 50000000) }
{
    check_block(alloc, text, scope, filter.name.at, &filter.block)
}

/// Checks the statements of a filter without a name, as `check_filter` does. It is refused at `at`
/// if it is too heavy.
pub fn check_block(
    alloc: Global,
    text: &[u8],
    scope: &Scope,
    at: usize,
    block: &Block,
) -> Result<TFilter, TypeFault>
    ensures answer { MatchResult result
        (λ _. first_in None (of_filter (scene_of text.now scope.now) at (block_of block.now))
        ≡ None)
        (λ fault. IsFault
        (block_weight (scene_of text.now scope.now) (block_of block.now)) fault
        (first_in None
        (of_filter (scene_of text.now scope.now) at (block_of block.now)))) }
    ensures meaning { IfOk result (λ f. (around : Around) (attrs : Attrs)
        → tree_flow around (constant_values scope.now) (function_trees scope.now) f attrs
        ≡ body (context_of text.now around scope.now []) [] (block_of block.now) [] attrs) }
    ensures sees { IfOk result (λ f. (f.constants ≡ length (constant_values scope.now))
        × (f.functions ≡ length (function_trees scope.now))) }
    ensures steps { IfOk result (λ f. (more : List TFunction)
        → filter_steps (function_trees scope.now ++ more) f
        ≤ 5 * block_weight (scene_of text.now scope.now)
        (block_of block.now)) }
    ensures light { IfOk result (λ f. (more : List TFunction)
        → filter_steps (function_trees scope.now ++ more) f ≤ 50000000) }
{
    match first_in_block(alloc, text, scope, at, block)? {
        Some(refusal) => Err(fault(refusal, weigh_block(text, scope, block))),
        None => Ok(resolve_filter(alloc, text, scope, &block.statements)?),
    }
}

/// The tree of a filter's statements, in which nothing is to be refused; its rules aren't asked.
pub fn resolve_filter(
    alloc: Global,
    text: &[u8],
    scope: &Scope,
    statements: &[Stmt],
) -> Result<TFilter, OutOfMemory>
    ensures meaning { IfOk result (λ f. (around : Around) (attrs : Attrs)
        → tree_flow around (constant_values scope.now) (function_trees scope.now) f attrs
        ≡ body (context_of text.now around scope.now []) [] (statements_of statements.now) []
        attrs) }
    ensures sees { IfOk result (λ f. (f.constants ≡ length (constant_values scope.now))
        × (f.functions ≡ length (function_trees scope.now))) }
    ensures steps { IfOk result (λ f. (more : List TFunction)
        → filter_steps (function_trees scope.now ++ more) f
        ≤ 5 * block_weight (scene_of text.now scope.now)
        (statements_of statements.now)) }
{
    let names = Names::none(alloc);
    let block = resolve_block(alloc, text, scope, &names, statements)?;
    Ok(TFilter {
        constants: scope.constants.len(),
        functions: scope.functions.len(),
        sorts: block.sorts,
        body: block.body,
    })
}

// ---- conditions

/// Checks a condition (`where`): it is the filter that accepts where it holds, and rejects
/// elsewhere. It is refused at `at` if it is too heavy. The text is its own, which may be another
/// than the configuration's.
pub fn check_expr(
    alloc: Global,
    text: &[u8],
    scope: &Scope,
    at: usize,
    condition: &Expr,
) -> Result<TFilter, TypeFault>
    ensures answer { MatchResult result
        (λ _. first_in None (of_filter (scene_of text.now scope.now) at
        (filter_where (expression_of condition.now))) ≡ None)
        (λ fault. IsFault
        (block_weight (scene_of text.now scope.now)
        (filter_where (expression_of condition.now))) fault
        (first_in None (of_filter (scene_of text.now scope.now) at
        (filter_where (expression_of condition.now))))) }
    ensures meaning { IfOk result (λ f. (around : Around) (attrs : Attrs)
        → tree_flow around (constant_values scope.now) (function_trees scope.now) f attrs
        ≡ body (context_of text.now around scope.now []) []
        (filter_where (expression_of condition.now)) [] attrs) }
    ensures sees { IfOk result (λ f. (f.constants ≡ length (constant_values scope.now))
        × (f.functions ≡ length (function_trees scope.now))) }
    ensures steps { IfOk result (λ f. (more : List TFunction)
        → filter_steps (function_trees scope.now ++ more) f
        ≤ 5 * block_weight (scene_of text.now scope.now)
        (filter_where (expression_of condition.now))) }
    ensures light { IfOk result (λ f. (more : List TFunction)
        → filter_steps (function_trees scope.now ++ more) f ≤ 50000000) }
{
    match first_in_condition(text, scope, at, condition) {
        Some(refusal) => Err(fault(refusal, weigh_condition(text, scope, condition))),
        None => Ok(resolve_condition(alloc, text, scope, condition)?),
    }
}

fn where_body(alloc: Global, condition: TExpr) -> Result<Vec<TStmt>, OutOfMemory>
    ensures meaning { IfOk result (λ v. (tables : trees.Tables) → trees.body tables v.items
        ≡ where_act (trees.expr condition tables)) }
    ensures steps { IfOk result (λ v. (called : ℕ → ℕ) → body_steps called v.items ≡ 3 +
        expr_steps called condition) }
{
    let accept = Box::new(alloc, TStmt::Accept)?;
    let mut body = Vec::with_capacity(alloc, 2)?;
    body.push(TStmt::If(condition, accept))?;
    body.push(TStmt::Reject)?;
    Ok(body)
}

/// The tree of a condition, as `resolve_filter`.
pub fn resolve_condition(
    alloc: Global,
    text: &[u8],
    scope: &Scope,
    condition: &Expr,
) -> Result<TFilter, OutOfMemory>
    ensures meaning { IfOk result (λ f. (around : Around) (attrs : Attrs)
        → tree_flow around (constant_values scope.now) (function_trees scope.now) f attrs
        ≡ body (context_of text.now around scope.now []) []
        (filter_where (expression_of condition.now)) [] attrs) }
    ensures sees { IfOk result (λ f. (f.constants ≡ length (constant_values scope.now))
        × (f.functions ≡ length (function_trees scope.now))) }
    ensures steps { IfOk result (λ f. (more : List TFunction)
        → filter_steps (function_trees scope.now ++ more) f
        ≤ 5 * block_weight (scene_of text.now scope.now)
        (filter_where (expression_of condition.now))) }
{
    let names = Names::none(alloc);
    let x = resolve(alloc, text, scope, &names, condition)?;
    let body = where_body(alloc, x)?;
    Ok(TFilter {
        constants: scope.constants.len(),
        functions: scope.functions.len(),
        sorts: Vec::new(alloc),
        body,
    })
}

// ---- functions

/// Checks a function of the configuration, which sees what the scope declares before it: neither
/// itself nor a later function. What is refused first by place is answered; one that is too heavy
/// is refused at its name. BIRD User's Guide, "Filters".
pub fn check_function(
    alloc: Global,
    text: &[u8],
    scope: &Scope,
    function: &Function,
) -> Result<TFunction, TypeFault>
    ensures answer { MatchResult result
        (λ _. first_in None
        (of_function (scene_of text.now scope.now) (routine_of function.now)) ≡ None)
        (λ fault. IsFault
        (block_weight (scene_of text.now scope.now) (block_of function.now.block)) fault
        (first_in None
        (of_function (scene_of text.now scope.now) (routine_of function.now)))) }
    ensures signature { IfOk result (λ f. signature_of f
        ≡ signature_in (scene_of text.now scope.now) (routine_of function.now)) }
    ensures meaning { IfOk result (λ f. (around : Around)
        → trees.function (tables_of around scope.now) f
        ≡ doing (context_of text.now around scope.now []) (routine_of function.now)) }
    ensures sees { IfOk result (λ f. f.constants ≡ length (constant_values scope.now)) }
    ensures light { IfOk result (λ f. (more : List TFunction)
        → IsLight (function_trees scope.now ++ more) f) }
{
    match first_in_function(alloc, text, scope, function)? {
        Some(refusal) => Err(fault(refusal, weigh_block(text, scope, &function.block))),
        None => Ok(resolve_function(alloc, text, scope, function)?),
    }
}

/// The tree of a function, as `resolve_filter`.
pub fn resolve_function(
    alloc: Global,
    text: &[u8],
    scope: &Scope,
    function: &Function,
) -> Result<TFunction, OutOfMemory>
    ensures signature { IfOk result (λ f. signature_of f
        ≡ signature_in (scene_of text.now scope.now) (routine_of function.now)) }
    ensures meaning { IfOk result (λ f. (around : Around)
        → trees.function (tables_of around scope.now) f
        ≡ doing (context_of text.now around scope.now []) (routine_of function.now)) }
    ensures sees { IfOk result (λ f. f.constants ≡ length (constant_values scope.now)) }
    ensures steps { IfOk result (λ f. (more : List TFunction)
        → run_steps (called_by (function_trees scope.now ++ more)) f.sorts.items f.body.items
        ≤ 5 * block_weight (scene_of text.now scope.now) (block_of function.now.block)) }
{
    let own = parameter_names(alloc, text, &function.parameters)?;
    let names = Names::none(alloc).with(alloc, own)?;
    let parameters = parameter_sorts(alloc, &function.parameters)?;
    let block = resolve_block(alloc, text, scope, &names, &function.block.statements)?;
    Ok(TFunction {
        parameters,
        gives: sort_given(function.gives),
        weight: weigh_block(text, scope, &function.block),
        constants: scope.constants.len(),
        sorts: block.sorts,
        body: block.body,
    })
}
