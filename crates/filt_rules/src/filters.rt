// What is refused first in whole filters, conditions and functions.

ghost use Rattle.std.specs.Prelude.{◌≡◌, ◌++◌, ℕ, IfOk, None, OnOk};
ghost use Rattle.conf_ast.specs.Configurations.{routine_of};
ghost use Rattle.conf_ast.specs.Filters.{block_of, expression_of};
ghost use Rattle.filt_meaning.specs.Configuration.{filter_where};
ghost use Rattle.filt_rules.specs.Passes.{around_in};
ghost use Rattle.filt_types.specs.Refusals.{first_in};
ghost use Rattle.filt_types.specs.Seen.{scene_of};
ghost use Rattle.filt_types.specs.Statements as statements;
ghost use Rattle.filt_types.specs.Statements.{in_filter, in_function, parameters};
ghost use Rattle.filt_types.specs.Weight.{block_weight, capped, too_heavy};

use crate::statements::{Around, check_all, declare, seen_at, want_bool};
use crate::weight::{weigh_block, weigh_condition};
use bits_ip::OutOfMemory;
use conf_ast::filters::{Block, Expr, Function, Parameter, VariableType};
use filt_meaning::{Scope, Sort, type_sort};
use filt_types::{Cause, Refusal, Seen, Variables, declaring, note_if};
use std::alloc::Global;

/// The most that a filter or a function may weigh.
const LIMIT: u128 = 10000000;

fn check_weight(weight: u128, at: usize, first: &mut Option<Refusal>)
    ensures { (n : ℕ) → weight ≡ capped n → first.new ≡ first_in first.old (too_heavy at n) }
{
    note_if(first, LIMIT < weight, at, Cause::TooHeavy);
}

/// The first of what is refused in the statements of a filter. One that is too heavy is refused at
/// the place `at`. An error is want of memory.
pub fn first_in_block(
    alloc: Global,
    text: &[u8],
    scope: &Scope,
    at: usize,
    block: &Block,
) -> Result<Option<Refusal>, OutOfMemory>
    ensures { IfOk result (λ r. r
        ≡ first_in None
        (too_heavy at (block_weight (scene_of text.now scope.now) (block_of block.now))
        ++ in_filter (scene_of text.now scope.now) (block_of block.now))) }
{
    let mut first = None;
    check_weight(weigh_block(text, scope, block), at, &mut first);
    let around = Around {
        text,
        scope,
        gives: None,
    };
    let mut variables = Variables::new(alloc);
    check_all(around, &block.statements, &mut variables, &mut first)?;
    Ok(first)
}

/// The first of what is refused in a condition, which is the filter that accepts where it holds.
/// One that is too heavy is refused at the place `at`. It takes no memory.
pub fn first_in_condition(
    text: &[u8],
    scope: &Scope,
    at: usize,
    condition: &Expr,
) -> Option<Refusal>
    ensures { result
        ≡ first_in None
        (too_heavy at (block_weight (scene_of text.now scope.now)
        (filter_where (expression_of condition.now)))
        ++ in_filter (scene_of text.now scope.now) (filter_where (expression_of condition.now))) }
{
    let mut first = None;
    check_weight(weigh_condition(text, scope, condition), at, &mut first);
    let seen = Seen {
        text,
        scope,
        variables: None,
    };
    want_bool(seen, condition, &mut first);
    first
}

/// The first of what is refused in a function. One that is too heavy is refused at its name. An
/// error is want of memory.
pub fn first_in_function(
    alloc: Global,
    text: &[u8],
    scope: &Scope,
    function: &Function,
) -> Result<Option<Refusal>, OutOfMemory>
    ensures { IfOk result (λ r. r
        ≡ first_in None
        (too_heavy function.now.name.at
        (block_weight (scene_of text.now scope.now) (block_of function.now.block))
        ++ in_function (scene_of text.now scope.now) (routine_of function.now))) }
{
    let mut first = None;
    let weight = weigh_block(text, scope, &function.block);
    check_weight(weight, function.name.at, &mut first);
    let around = Around {
        text,
        scope,
        gives: sort_given(function.gives),
    };
    let mut variables = Variables::new(alloc);
    check_parameters(around, &function.parameters, &mut variables, &mut first)?;
    check_all(
        around,
        &function.block.statements,
        &mut variables,
        &mut first,
    )?;
    Ok(first)
}

/// The sort of what a function gives, if it gives a value.
pub fn sort_given(gives: Option<VariableType>) -> Option<Sort>
    ensures { result ≡ statements.sort_given gives }
{
    match gives {
        None => None,
        Some(variable_type) => Some(type_sort(variable_type)),
    }
}

/// Parameters are seen behind themselves.
fn check_parameters<'a>(
    around: Around<'a>,
    given: &[Parameter],
    variables: &mut Variables<'a>,
    first: &mut Option<Refusal>,
) -> Result<(), OutOfMemory>
    ensures seen { OnOk result (variables.new
        ≡ (parameters (around_in around.entry).scene variables.old
        given.now).variables) }
    ensures first { OnOk result (first.new
        ≡ first_in first.old (parameters (around_in around.entry).scene
        variables.old given.now).refusals) }
{
    for parameter in given {
        declaring(seen_at(around, variables), parameter.name, first);
        let sort = type_sort(parameter.variable_type);
        declare(around, variables, parameter.name, sort, false)?;
    }
    Ok(())
}
