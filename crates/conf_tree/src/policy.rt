// Policies. `depth_left` is how many more levels may be opened.

ghost use Rattle.std.specs.Prelude.{◌≡◌, ◌∷◌};
ghost use Rattle.conf_lex.specs.declared.symbol.Symbol.TheVariants as sym;
ghost use Rattle.conf_lex.specs.declared.word.Word.{Word};
ghost use Rattle.conf_lex.specs.Kind.{symbol};
ghost use Rattle.conf_lex.specs.Grammar.{Pair, Right};
ghost use Rattle.conf_lex.specs.Reading.{both, word};
ghost use Rattle.conf_lex.specs.Agrees.{Agrees};
ghost use Rattle.expr_syntax.specs.Readers.{expr_at};
ghost use Rattle.filt_syntax.specs.StatementReaders.{block_at};
ghost use Rattle.expr_syntax.specs.Rows.{nth, beyond};
ghost use Rattle.conf_tree.specs.View.{policy_tree};
ghost use Rattle.conf_syntax.specs.View.{placed_leaf};
ghost use Rattle.conf_tree.specs.Readers.{policy_at};
ghost use Rattle.conf_syntax.specs.Readers.{seen_as};

use conf_ast::configurations::Policy;
use conf_lex::parsing::{after, after_placed, expect_placed, next_name};
use conf_lex::{Refusal, Symbol, Word};
use expr_syntax::parts::expression;
use filt_syntax::parts::whole_block;
use std::alloc::Global;

// By the words after `filter`, whose place is told.
fn block_policy<'a>(
    alloc: Global,
    at: usize,
    words: &'a [Word],
    depth_left: u32,
) -> Result<(Policy, &'a [Word]), Refusal<'a>>
    ensures { Agrees policy_tree result
        (seen_as (block_at depth_left)
        (λ t. nth 1 (Pair (placed_leaf at sym.Filter) (Right t))) words.now) }
{
    let (block, rest) = whole_block(alloc, words, depth_left)?;
    Ok((Policy::Block { at, block }, rest))
}

// By the words after `filter`.
fn filter_policy<'a>(
    alloc: Global,
    words: &'a [Word],
    at: usize,
    behind: &'a [Word],
    depth_left: u32,
) -> Result<(Policy, &'a [Word]), Refusal<'a>>
    requires { words.now ≡ Word.Placed at sym.Filter ∷ behind.now }
    ensures { Agrees policy_tree result (policy_at depth_left words.now) }
{
    match next_name(behind) {
        Some((name, rest)) => Ok((Policy::Filter { at, name }, rest)),
        None => block_policy(alloc, at, behind, depth_left),
    }
}

fn where_policy<'a>(
    alloc: Global,
    words: &'a [Word],
    depth_left: u32,
) -> Result<(Policy, &'a [Word]), Refusal<'a>>
    ensures { Agrees policy_tree result
        (seen_as (both (word (symbol sym.Where)) (expr_at depth_left))
        (λ t. beyond 2 t) words.now) }
{
    let (at, rest) = expect_placed(words, Symbol::Where)?;
    let (condition, rest) = expression(alloc, rest, depth_left)?;
    Ok((Policy::Where { at, condition }, rest))
}

/// The policy that comes next.
pub fn policy<'a>(
    alloc: Global,
    words: &'a [Word],
    depth_left: u32,
) -> Result<(Policy, &'a [Word]), Refusal<'a>>
    ensures { Agrees policy_tree result (policy_at depth_left words.now) }
{
    if let Some(rest) = after(words, Symbol::All) {
        return Ok((Policy::All, rest));
    }
    if let Some(rest) = after(words, Symbol::None) {
        return Ok((Policy::None, rest));
    }
    match after_placed(words, Symbol::Filter) {
        Some((at, behind)) => filter_policy(alloc, words, at, behind, depth_left),
        None => where_policy(alloc, words, depth_left),
    }
}
