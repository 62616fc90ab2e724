// What the rules of filters say of conditions and blocks in a configuration.

ghost use Rattle.std.specs.Prelude.{◌≡◌, OnOk};
ghost use Rattle.conf_ast.specs.Filters.{block_of, expression_of};
ghost use Rattle.filt_types.specs.Refused as refused;
ghost use Rattle.filt_meaning.specs.Configuration.{filter_where};
ghost use Rattle.conf_names.specs.Refusals.{first_in, of_filters};
ghost use Rattle.conf_names.specs.Seen.{known_of};

use bits_ip::OutOfMemory;
use conf_ast::filters::{Block, Expr};
use conf_names::declared::Declared;
use conf_names::refusal::{Refusal, note_first};
use filt_rules::{first_in_block, first_in_condition};
use std::alloc::Global;

/// A filter, which is refused at the place `at` where it is too heavy.
pub(crate) fn block(
    alloc: Global,
    text: &[u8],
    declared: &Declared,
    at: usize,
    block: &Block,
    first: &mut Option<Refusal>,
) -> Result<(), OutOfMemory>
    ensures { OnOk result (first.new
        ≡ first_in first.old (of_filters (refused.of_filter
        (known_of text.now declared.now).scene at (block_of block.now)))) }
{
    let found = first_in_block(alloc, text, &declared.scope, at, block)?;
    note_first(first, found);
    Ok(())
}

/// The filter that accepts where the condition holds.
pub(crate) fn condition(
    text: &[u8],
    declared: &Declared,
    at: usize,
    condition: &Expr,
    first: &mut Option<Refusal>,
)
    ensures { first.new
        ≡ first_in first.old (of_filters (refused.of_filter (known_of text.now declared.now).scene
        at (filter_where (expression_of condition.now)))) }
{
    let found = first_in_condition(text, &declared.scope, at, condition);
    note_first(first, found);
}
