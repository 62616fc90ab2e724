// Statements. Each function answers a statement and the words after it; `depth_left` is how many
// more levels may be opened.

ghost use Rattle.std.specs.Prelude.{◌≡◌, false};
ghost use Rattle.conf_lex.specs.declared.symbol.Symbol.TheVariants as sym;
ghost use Rattle.conf_lex.specs.Kind.{symbol, name, address};
ghost use Rattle.conf_lex.specs.Grammar.{Pair, begins};
ghost use Rattle.conf_lex.specs.Reading.{both, word};
ghost use Rattle.conf_lex.specs.Leaves.{symbol_leaf};
ghost use Rattle.conf_lex.specs.Agrees.{Agrees};
ghost use Rattle.filt_syntax.specs.StatementReaders.{block_at};
ghost use Rattle.expr_syntax.specs.Rows.{nth};
ghost use Rattle.conf_tree.specs.View.{statement_tree};
ghost use Rattle.conf_syntax.specs.View.{placed_leaf, family_leaf};
ghost use Rattle.conf_tree.specs.Readers.{statement_at};
ghost use Rattle.conf_syntax.specs.Readers.{seen_as, literal_at};

use crate::function::function;
use crate::protocol::protocol;
use bits_ip::Family;
use conf_ast::configurations::Statement;
use conf_ast::filters::Filter;
use conf_lex::parsing::{after, after_placed, expect, expect_name};
use conf_lex::{Refusal, Symbol, Word};
use conf_syntax::parts::{expect_address, literal, next_family};
use filt_syntax::parts::whole_block;
use std::alloc::Global;

// By the words after `router`.
fn router_id(words: &[Word]) -> Result<(Statement, &[Word]), Refusal>
    ensures { Agrees statement_tree result
        (seen_as (both (word (symbol sym.Id)) (both (word address) (word (symbol sym.Semicolon))))
        (λ t. nth 0 (Pair (symbol_leaf sym.Router) t)) words.now) }
{
    let rest = expect(words, Symbol::Id)?;
    let (address, rest) = expect_address(rest)?;
    let rest = expect(rest, Symbol::Semicolon)?;
    Ok((Statement::RouterId(address), rest))
}

// By the words after `log`.
fn log(words: &[Word]) -> Result<(Statement, &[Word]), Refusal>
    ensures { Agrees statement_tree result
        (seen_as (word (symbol sym.Semicolon))
        (λ t. nth 1 (Pair (symbol_leaf sym.Log) t)) words.now) }
{
    let rest = expect(words, Symbol::Semicolon)?;
    Ok((Statement::Log, rest))
}

// By the words after `define`.
fn define<'a>(
    alloc: Global,
    words: &'a [Word],
    depth_left: u32,
) -> Result<(Statement, &'a [Word]), Refusal<'a>>
    ensures { Agrees statement_tree result
        (seen_as (both (word name) (both (word (symbol sym.Equal))
        (both (literal_at depth_left) (word (symbol sym.Semicolon)))))
        (λ t. nth 2 (Pair (symbol_leaf sym.Define) t)) words.now) }
{
    let (name, rest) = expect_name(words)?;
    let rest = expect(rest, Symbol::Equal)?;
    let (value, rest) = literal(alloc, rest, depth_left)?;
    let rest = expect(rest, Symbol::Semicolon)?;
    Ok((Statement::Define { name, value }, rest))
}

// By the words after `filter`, whose place is told.
fn filter<'a>(
    alloc: Global,
    at: usize,
    words: &'a [Word],
    depth_left: u32,
) -> Result<(Statement, &'a [Word]), Refusal<'a>>
    ensures { Agrees statement_tree result
        (seen_as (both (word name) (block_at depth_left))
        (λ t. nth 5 (Pair (placed_leaf at sym.Filter) t)) words.now) }
{
    let (name, rest) = expect_name(words)?;
    let (block, rest) = whole_block(alloc, rest, depth_left)?;
    let filter = Filter { name, block };
    Ok((Statement::Filter { at, filter }, rest))
}

// By the words after a family's word.
fn table_of(at: usize, family: Family, words: &[Word]) -> Result<(Statement, &[Word]), Refusal>
    ensures { Agrees statement_tree result
        (seen_as (both (word (symbol sym.Table)) (both (word name) (word (symbol sym.Semicolon))))
        (λ t. nth 3 (Pair (family_leaf at family) t)) words.now) }
{
    let rest = expect(words, Symbol::Table)?;
    let (name, rest) = expect_name(rest)?;
    let rest = expect(rest, Symbol::Semicolon)?;
    Ok((Statement::Table { at, family, name }, rest))
}

// Where no statement comes next that `statement` tests for.
fn table(words: &[Word], depth_left: u32) -> Result<(Statement, &[Word]), Refusal>
    requires router { begins (symbol sym.Router) words.now ≡ false }
    requires log { begins (symbol sym.Log) words.now ≡ false }
    requires define { begins (symbol sym.Define) words.now ≡ false }
    requires function { begins (symbol sym.Function) words.now ≡ false }
    requires filter { begins (symbol sym.Filter) words.now ≡ false }
    requires protocol { begins (symbol sym.Protocol) words.now ≡ false }
    ensures { Agrees statement_tree result (statement_at depth_left words.now) }
{
    match next_family(words) {
        Some(((at, family), rest)) => table_of(at, family, rest),
        None => Err(Refusal::Bad(words)),
    }
}

/// The statement that comes next.
pub fn statement<'a>(
    alloc: Global,
    words: &'a [Word],
    depth_left: u32,
) -> Result<(Statement, &'a [Word]), Refusal<'a>>
    ensures { Agrees statement_tree result (statement_at depth_left words.now) }
{
    if let Some(behind) = after(words, Symbol::Router) {
        return router_id(behind);
    }
    if let Some(behind) = after(words, Symbol::Log) {
        return log(behind);
    }
    if let Some(behind) = after(words, Symbol::Define) {
        return define(alloc, behind, depth_left);
    }
    if let Some(behind) = after(words, Symbol::Function) {
        return function(alloc, behind, depth_left);
    }
    if let Some((at, behind)) = after_placed(words, Symbol::Filter) {
        return filter(alloc, at, behind, depth_left);
    }
    match after(words, Symbol::Protocol) {
        Some(behind) => protocol(alloc, words, behind, depth_left),
        None => table(words, depth_left),
    }
}
