//! Policies, and the numbers of what they name.

ghost use Rattle.std.specs.Prelude.{◌≡◌, IfOk, option_copied, option_map};
ghost use Rattle.conf_ast.specs.Configurations.{passing_of};
ghost use Rattle.conf_ast.specs.Filters.{block_of, expression_of};
ghost use Rattle.filt_meaning.specs.Configuration.{filter_where};
ghost use Rattle.conf_names.specs.Seen.{known_of};
ghost use Rattle.conf_check.specs.Checked as of;
ghost use Rattle.conf_check.specs.Checked.{IsPolicy};
ghost use Rattle.conf_check.specs.Seen.{Means};
ghost use Rattle.conf_options.specs.Defaults.{export_or, import_or};

use crate::checked::PolicyDef;
use bits_ip::OutOfMemory;
use conf_ast::Name;
use conf_ast::configurations::Policy;
use conf_ast::filters::{Block, Expr};
use conf_names::Declared;
use filt_check::{resolve_condition, resolve_filter};
use filt_meaning::{Scope, TFilter};
use std::alloc::Global;

/// The number of the filter of that name; behind the last one where there is none.
fn filter_number(text: &[u8], declared: &Declared, name: Name) -> usize
    ensures { result ≡ of.filter_number (known_of text.now declared.now) name }
{
    match declared.filters.get_index_of(name.bytes(text)) {
        Some(number) => number,
        None => declared.filters.len(),
    }
}

/// The filter of these statements. Nothing of its rules is asked.
pub(crate) fn block_filter(
    alloc: Global,
    text: &[u8],
    scope: &Scope,
    block: &Block,
) -> Result<TFilter, OutOfMemory>
    ensures { IfOk result (λ f. Means text.now scope.now (block_of block.now) f) }
{
    let filter = resolve_filter(alloc, text, scope, &block.statements)?;
    Ok(filter)
}

fn where_filter(
    alloc: Global,
    text: &[u8],
    scope: &Scope,
    condition: &Expr,
) -> Result<TFilter, OutOfMemory>
    ensures { IfOk result (λ f.
        Means text.now scope.now (filter_where (expression_of condition.now)) f) }
{
    let filter = resolve_condition(alloc, text, scope, condition)?;
    Ok(filter)
}

pub(crate) fn policy(
    alloc: Global,
    text: &[u8],
    declared: &Declared,
    policy: &Policy,
) -> Result<PolicyDef, OutOfMemory>
    ensures { IfOk result (λ p. IsPolicy (known_of text.now declared.now)
        (Means text.now declared.now.scope) (passing_of policy.now) p) }
{
    match policy {
        Policy::All => Ok(PolicyDef::All),
        Policy::None => Ok(PolicyDef::None),
        Policy::Filter { name, .. } => Ok(PolicyDef::Filter(filter_number(text, declared, *name))),
        Policy::Block { block, .. } => {
            let filter = block_filter(alloc, text, &declared.scope, block)?;
            Ok(PolicyDef::Own(filter))
        }
        Policy::Where { condition, .. } => {
            let filter = where_filter(alloc, text, &declared.scope, condition)?;
            Ok(PolicyDef::Own(filter))
        }
    }
}

/// The policy of imports. All is imported where nothing is said.
pub(crate) fn import_policy(
    alloc: Global,
    text: &[u8],
    declared: &Declared,
    found: Option<&Policy>,
) -> Result<PolicyDef, OutOfMemory>
    ensures { IfOk result (λ p. IsPolicy (known_of text.now declared.now)
        (Means text.now declared.now.scope)
        (import_or (option_map passing_of (option_copied found.entry))) p) }
{
    match found {
        None => Ok(PolicyDef::All),
        Some(written) => policy(alloc, text, declared, written),
    }
}

/// The policy of exports. Nothing is exported where nothing is said.
pub(crate) fn export_policy(
    alloc: Global,
    text: &[u8],
    declared: &Declared,
    found: Option<&Policy>,
) -> Result<PolicyDef, OutOfMemory>
    ensures { IfOk result (λ p. IsPolicy (known_of text.now declared.now)
        (Means text.now declared.now.scope)
        (export_or (option_map passing_of (option_copied found.entry))) p) }
{
    match found {
        None => Ok(PolicyDef::None),
        Some(written) => policy(alloc, text, declared, written),
    }
}
