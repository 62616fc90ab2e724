//! The code of what a configuration declares.
ghost use Rattle.std.specs.Prelude.{◌≡◌, ℕ, [], List, All, IfOk, map, slice_get};
ghost use Rattle.filt_code.specs.Codes.{IsNeverStuck};
ghost use Rattle.filt_code.specs.declared.code.Routine.{Routine};
ghost use Rattle.filt_compile.specs.Compiles.{AreCompiled};
ghost use Rattle.conf_system.specs.Coded.{CostTheirFilters};
ghost use Rattle.filt_meaning.specs.Scopes.{constant_values, function_trees};
ghost use Rattle.filt_meaning.specs.Trees.{AreBefore};
ghost use Rattle.filt_meaning.specs.declared.scope.TFunction.{TFunction};
ghost use Rattle.conf_system.specs.Seen.{IsRuleNeverStuck, draft_flow, drafted, flow_over, rule_says};

use crate::passes::Rule;
use bits_ip::OutOfMemory;
use filt_code::{Draft, Routine};
use filt_compile::compile;
use filt_meaning::{Fixed, Scope, TFilter, TFunction};
use std::alloc::Global;

/// The code of a configuration's functions, and of its filters by name. Each is compiled once.
#[derive(Drop)]
pub struct Code<'a> {
    pub(crate) functions: Vec<Routine<'a>>,
    /// By the filters' numbers.
    pub(crate) filters: Vec<Draft<'a>>,
}

/// The constants of a scope, by their numbers.
pub(crate) fn constants(scope: &Scope) -> &[Fixed]
    ensures { result.now ≡ constant_values scope.now }
{
    scope.constants.values().as_slice()
}

/// The functions of a scope, by their numbers.
pub(crate) fn functions(scope: &Scope) -> &[TFunction]
    ensures { result.now ≡ function_trees scope.now }
{
    scope.functions.values().as_slice()
}

/// The code of filters over these constants and functions.
pub(crate) fn drafts<'a>(
    alloc: Global,
    constants: &'a [Fixed],
    functions: &[Routine<'a>],
    filters: &'a [TFilter],
) -> Result<Vec<Draft<'a>>, OutOfMemory>
    ensures means { IfOk result (λ drafts. (trees : List TFunction)
        → AreCompiled constants.now [] trees functions.now → All (AreBefore trees) filters.now
        → map (draft_flow functions.now) drafts.items
        ≡ map (flow_over constants.now trees) filters.now) }
    ensures cost { IfOk result (λ drafts. CostTheirFilters functions.now filters.now drafts.items) }
{
    let mut drafts = Vec::new(alloc);
    for filter in filters {
        drafts.push(compile(alloc, constants, functions, filter)?)?;
    }
    Ok(drafts)
}

/// The rule of the filter of this number; behind the last one none is accepted.
pub(crate) fn rule_at<'a>(filters: &'a Vec<Draft<'a>>, number: usize) -> Rule<'a>
    ensures says { (functions : List Routine) (names : List (List ℕ))
        → rule_says functions names result
        ≡ drafted functions names (slice_get filters.now.items number) }
    ensures never_stuck { (functions : List Routine)
        → All (IsNeverStuck functions) filters.now.items → IsRuleNeverStuck functions result }
{
    match filters.get(number) {
        Some(draft) => Rule::Filter(draft),
        None => Rule::None,
    }
}
