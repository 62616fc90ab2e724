//! The code of filters and of functions.

ghost use Rattle.std.specs.Prelude.{◌≡◌, [], take, IfOk, List};
ghost use Rattle.attrs.specs.declared.attributes.Attrs.{Attrs};
ghost use Rattle.filt_meaning.specs.Flow.{Frame};
ghost use Rattle.filt_meaning.specs.Names.{Around};
ghost use Rattle.filt_meaning.specs.Trees as trees;
ghost use Rattle.filt_meaning.specs.Trees.{AreBefore};
ghost use Rattle.filt_meaning.specs.declared.scope.TFunction.{TFunction};
ghost use Rattle.filt_code.specs.Codes.{code_flow, mean, Setting};
ghost use Rattle.filt_compile.specs.Compiles.{AreCompiled, CostTheirSteps, CostsItsSteps, IsCompiled};
ghost use Rattle.filt_compile.specs.Emits.{tables_of, Sees};

use crate::act::block;
use crate::seen::Seen;
use bits_ip::OutOfMemory;
use filt_code::{Draft, Instr, Routine};
use filt_meaning::{Fixed, Sort, TFilter, TFunction, TStmt};
use std::alloc::Global;

/// The code of a filter, over the constants and the compiled functions of the scope, of which it
/// sees the first. It comes to what the filter comes to, every fault included, and so does its
/// verdict; and it costs no more than the filter takes, whatever functions cost.
pub fn compile<'a>(
    alloc: Global,
    constants: &'a [Fixed],
    routines: &[Routine<'a>],
    filter: &'a TFilter,
) -> Result<Draft<'a>, OutOfMemory>
    ensures means { IfOk result (λ draft. (functions : List TFunction)
        → AreCompiled constants.now [] functions routines.now → AreBefore functions filter.now
        → (around : Around) (attrs : Attrs) → code_flow around routines.now draft attrs
        ≡ trees.tree_flow around constants.now functions filter.now attrs) }
    ensures cost { IfOk result (λ draft. CostsItsSteps filter.now.sorts.items filter.now.body.items
        draft.code.items) }
{
    let routines = first(routines, filter.functions);
    let seen = Seen {
        alloc,
        constants: first(constants, filter.constants),
        routines,
    };
    let code = code(&seen, &filter.sorts, &filter.body)?;
    Ok(Draft {
        functions: routines.len(),
        code,
    })
}

/// The code of functions, each of which calls earlier ones alone, over the constants of the scope.
pub fn library<'a>(
    alloc: Global,
    constants: &'a [Fixed],
    functions: &'a [TFunction],
) -> Result<Vec<Routine<'a>>, OutOfMemory>
    ensures means { IfOk result (λ routines. AreCompiled constants.now [] functions.now routines.items) }
    ensures cost { IfOk result (λ routines. CostTheirSteps functions.now routines.items) }
{
    let mut routines = Vec::new(alloc);
    for function in functions {
        let made = routine(alloc, constants, routines.as_slice(), function)?;
        routines.push(made)?;
    }
    Ok(routines)
}

/// The code of the function behind these.
fn routine<'a>(
    alloc: Global,
    constants: &'a [Fixed],
    routines: &[Routine<'a>],
    function: &'a TFunction,
) -> Result<Routine<'a>, OutOfMemory>
    ensures { IfOk result (λ made. IsCompiled constants.now routines.now function.now made
        × CostsItsSteps function.now.sorts.items function.now.body.items made.code.items) }
{
    let seen = Seen {
        alloc,
        constants: first(constants, function.constants),
        routines,
    };
    let code = code(&seen, &function.sorts, &function.body)?;
    Ok(Routine {
        parameters: &function.parameters,
        gives: function.gives,
        code,
    })
}

/// The code of statements over variables of these sorts, behind the arguments.
fn code<'a>(
    seen: &Seen<'_, 'a>,
    sorts: &'a [Sort],
    statements: &'a [TStmt],
) -> Result<Vec<Instr<'a>>, OutOfMemory>
    ensures { IfOk result (λ code. ((s : Setting) → Sees seen.now s
        → (vals : Frame) (attrs : Attrs) → mean s code.items 0 vals [] attrs
        ≡ trees.run (tables_of seen.now s) sorts.now statements.now vals attrs)
        × CostsItsSteps sorts.now statements.now code.items) }
{
    let mut out = Vec::new(seen.alloc);
    block(seen, sorts, statements, &mut out)?;
    out.reverse();
    Ok(out)
}

/// The first items, or all where there are fewer.
fn first<T>(items: &[T], count: usize) -> &[T]
    ensures { result.now ≡ take count items.now }
{
    if count < items.len() {
        &items[..count]
    } else {
        items
    }
}
