// What is refused first in a statement.

ghost use Rattle.std.specs.Prelude.{◌≡◌, ◌++◌, [], if◌then◌else◌, None, IfOk, OnOk};
ghost use Rattle.conf_ast.specs.Configurations.{declaration_of, routine_of, value_of};
ghost use Rattle.conf_ast.specs.Filters.{block_of};
ghost use Rattle.filt_types.specs.Refused as refused;
ghost use Rattle.conf_names.specs.Constants as constants;
ghost use Rattle.conf_names.specs.Known as known;
ghost use Rattle.conf_names.specs.Known.{ArePipesThere};
ghost use Rattle.conf_names.specs.Refusals.{first_in, of_filters};
ghost use Rattle.conf_names.specs.Seen.{known_of};
ghost use Rattle.conf_rules.specs.Statements as of;

use crate::bgp::bgp;
use crate::filters::block;
use crate::pipes::pipe;
use crate::static_protocols::static_protocol;
use bits_ip::{Family, OutOfMemory};
use conf_ast::configurations::{Literal, Statement};
use conf_ast::filters::{Filter, Function};
use conf_ast::{ConfKind, Name};
use conf_names::constants::value;
use conf_names::declared::{Declared, declaring};
use conf_names::names::name_too_long;
use conf_names::refusal::{Refusal, note_first, note_if};
use filt_rules::first_in_function;
use std::alloc::Global;

/// How many tables there may be, master4 and master6 among them.
const MOST_TABLES: usize = 64;

// ---- constants, functions and filters

fn define(
    text: &[u8],
    declared: &Declared,
    name: Name,
    literal: &Literal,
    first: &mut Option<Refusal>,
)
    ensures { first.new
        ≡ first_in first.old (known.declaring (known_of text.now declared.now) name
        ++ constants.value (known_of text.now declared.now) (value_of literal.now)) }
{
    declaring(text, declared, name, first);
    value(text, declared, literal, first);
}

fn function(
    alloc: Global,
    text: &[u8],
    declared: &Declared,
    function: &Function,
    first: &mut Option<Refusal>,
) -> Result<(), OutOfMemory>
    ensures { OnOk result (first.new
        ≡ first_in first.old (known.declaring (known_of text.now declared.now) function.now.name
        ++ of_filters (refused.of_function (known_of text.now declared.now).scene
        (routine_of function.now)))) }
{
    declaring(text, declared, function.name, first);
    let found = first_in_function(alloc, text, &declared.scope, function)?;
    note_first(first, found);
    Ok(())
}

fn filter(
    alloc: Global,
    text: &[u8],
    declared: &Declared,
    filter: &Filter,
    first: &mut Option<Refusal>,
) -> Result<(), OutOfMemory>
    ensures { OnOk result (first.new
        ≡ first_in first.old (known.declaring (known_of text.now declared.now) filter.now.name
        ++ of_filters (refused.of_filter (known_of text.now declared.now).scene filter.now.name.at
        (block_of filter.now.block)))) }
{
    declaring(text, declared, filter.name, first);
    block(alloc, text, declared, filter.name.at, &filter.block, first)
}

// ---- tables

fn is_master(text: &[u8], family: Family, name: Name) -> bool
    ensures { (declared : Declared) → result
        ≡ of.is_master (known_of text.now declared) family name }
{
    match family {
        Family::V4 => name.bytes(text) == b"master4".as_slice(),
        Family::V6 => name.bytes(text) == b"master6".as_slice(),
    }
}

fn one_more_table(text: &[u8], declared: &Declared, name: Name, first: &mut Option<Refusal>)
    ensures { first.new
        ≡ first_in first.old (of.one_more_table (known_of text.now declared.now) name) }
{
    declaring(text, declared, name, first);
    let is_over = MOST_TABLES <= declared.tables.len();
    note_if(first, is_over, name.at, ConfKind::Limit);
}

fn table_unless(
    is_master: bool,
    text: &[u8],
    declared: &Declared,
    name: Name,
    first: &mut Option<Refusal>,
)
    ensures { first.new
        ≡ first_in first.old (if is_master then []
        else of.one_more_table (known_of text.now declared.now) name) }
{
    if !is_master {
        one_more_table(text, declared, name, first);
    }
}

/// The statement of a table that is always there declares nothing.
fn table(text: &[u8], declared: &Declared, family: Family, name: Name, first: &mut Option<Refusal>)
    ensures { first.new
        ≡ first_in first.old (of.table (known_of text.now declared.now) family name) }
{
    table_unless(is_master(text, family, name), text, declared, name, first);
}

// ---- all statements

fn in_statement(
    alloc: Global,
    text: &[u8],
    declared: &Declared,
    statement: &Statement,
    first: &mut Option<Refusal>,
) -> Result<(), OutOfMemory>
    requires { ArePipesThere (known_of text.now declared.now) }
    ensures { OnOk result (first.new
        ≡ first_in first.old (of.refusals (known_of text.now declared.now)
        (declaration_of statement.now))) }
{
    match statement {
        Statement::RouterId(_) => Ok(()),
        Statement::Log => Ok(()),
        Statement::Define { name, value } => {
            define(text, declared, *name, value, first);
            Ok(())
        }
        Statement::Table { family, name, .. } => {
            table(text, declared, *family, *name, first);
            Ok(())
        }
        Statement::Function(body) => function(alloc, text, declared, body, first),
        Statement::Filter { filter: body, .. } => filter(alloc, text, declared, body, first),
        Statement::Device { name, .. } => {
            name_too_long(text, *name, first);
            Ok(())
        }
        Statement::Static(protocol) => static_protocol(alloc, text, declared, protocol, first),
        Statement::Bgp(protocol) => bgp(alloc, text, declared, protocol, first),
        Statement::Pipe(protocol) => pipe(alloc, text, declared, protocol, first),
    }
}

/// The first of what is refused in a statement, over what is declared before it. An error is want
/// of memory. The tables of the pipes before are among those that are declared.
pub fn first_in_statement(
    alloc: Global,
    text: &[u8],
    declared: &Declared,
    statement: &Statement,
) -> Result<Option<Refusal>, OutOfMemory>
    requires { ArePipesThere (known_of text.now declared.now) }
    ensures { IfOk result (λ r. r
        ≡ first_in None (of.refusals (known_of text.now declared.now)
        (declaration_of statement.now))) }
{
    let mut first = None;
    in_statement(alloc, text, declared, statement, &mut first)?;
    Ok(first)
}
