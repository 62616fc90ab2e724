// Literals. `depth_left` is how many more levels may be opened.

ghost use Rattle.std.specs.Prelude.{◌≡◌, [], ◌∷◌, false, MatchOption};
ghost use Rattle.conf_lex.specs.declared.symbol.Symbol.TheVariants as sym;
ghost use Rattle.conf_lex.specs.declared.word.Word.{Word};
ghost use Rattle.conf_lex.specs.Kind.{symbol};
ghost use Rattle.conf_lex.specs.Grammar.{Pair, begins};
ghost use Rattle.conf_lex.specs.Reading.{Parsed, both, word};
ghost use Rattle.conf_lex.specs.Agrees.{Agrees};
ghost use Rattle.expr_syntax.specs.Syntax.{is_num};
ghost use Rattle.expr_syntax.specs.ItemReaders.{mask_items_at};
ghost use Rattle.expr_syntax.specs.Rows.{nth, beyond};
ghost use Rattle.conf_syntax.specs.Syntax.{is_value};
ghost use Rattle.conf_syntax.specs.View.{placed_leaf, literal_tree, value_tree};
ghost use Rattle.conf_syntax.specs.Readers.{seen_as, literal_at};

use conf_ast::Name;
use conf_ast::configurations::{Address, Literal, StringLiteral};
use conf_lex::parsing::{after_placed, expect, level_below, next};
use conf_lex::{Refusal, Symbol, Word};
use expr_syntax::parts::{items, mask_items, num};
use std::alloc::Global;

// What a word is alone.
fn value(word: Word) -> Option<Literal>
    ensures { MatchOption result (begins is_value (word ∷ []) ≡ false)
        (λ v. literal_tree v ≡ value_tree word) }
{
    match word {
        Word::Number { at, value } => Some(Literal::Number {
            at: at as usize,
            value,
        }),
        Word::Text { at, start, len } => Some(Literal::Text(StringLiteral {
            at: at as usize,
            start: start as usize,
            len: len as usize,
        })),
        Word::Ip { at, addr } => Some(Literal::Ip(Address {
            at: at as usize,
            addr: addr.addr(),
        })),
        Word::Prefix { at, net } => Some(Literal::Prefix {
            at: at as usize,
            net,
        }),
        Word::Name { at, start, len } => Some(Literal::Name(Name {
            at: at as usize,
            start: start as usize,
            len: len as usize,
        })),
        Word::Placed { at, symbol } => truth(at as usize, symbol),
        _ => None,
    }
}

fn truth(at: usize, symbol: Symbol) -> Option<Literal>
    ensures { MatchOption result (begins is_value (Word.Placed at symbol ∷ []) ≡ false)
        (λ v. literal_tree v ≡ value_tree (Word.Placed at symbol)) }
{
    match symbol {
        Symbol::True => Some(Literal::True { at }),
        Symbol::False => Some(Literal::False { at }),
        _ => None,
    }
}

fn next_value(words: &[Word]) -> Option<(Literal, &[Word])>
    ensures { MatchOption result (begins is_value words.now ≡ false)
        (λ found. literal_at 0 words.now ≡ Parsed (literal_tree found.0) found.1.now) }
{
    match next(words) {
        Some((word, rest)) => match value(word) {
            Some(value) => Some((value, rest)),
            None => None,
        },
        None => None,
    }
}

// By the words after `(`, whose place is told.
fn pair(at: usize, words: &[Word]) -> Result<(Literal, &[Word]), Refusal>
    ensures { Agrees literal_tree result (seen_as
        (both (word is_num) (both (word (symbol sym.Comma))
        (both (word is_num) (word (symbol sym.CloseParenthesis)))))
        (λ t. nth 1 (Pair (placed_leaf at sym.OpenParenthesis) t)) words.now) }
{
    let (first, rest) = num(words)?;
    let rest = expect(rest, Symbol::Comma)?;
    let (second, rest) = num(rest)?;
    let rest = expect(rest, Symbol::CloseParenthesis)?;
    Ok((Literal::Pair { at, first, second }, rest))
}

// By the words after `[`.
fn set<'a>(
    alloc: Global,
    words: &'a [Word],
    at: usize,
    behind: &'a [Word],
    depth_left: u32,
) -> Result<(Literal, &'a [Word]), Refusal<'a>>
    requires { words.now ≡ Word.Placed at sym.OpenBracket ∷ behind.now }
    ensures { Agrees literal_tree result (literal_at depth_left words.now) }
{
    let below = level_below(words, depth_left)?;
    let (items, rest) = items(alloc, behind, below)?;
    let rest = expect(rest, Symbol::CloseBracket)?;
    Ok((Literal::Set { at, items }, rest))
}

// By the words after `[=`, whose place is told.
fn mask<'a>(
    alloc: Global,
    at: usize,
    words: &'a [Word],
) -> Result<(Literal, &'a [Word]), Refusal<'a>>
    ensures { Agrees literal_tree result
        (seen_as (both (seen_as (mask_items_at 0) (λ t. Pair (placed_leaf at sym.OpenMask) t))
        (word (symbol sym.CloseMask))) (λ t. beyond 3 t) words.now) }
{
    let (items, rest) = mask_items(alloc, words)?;
    let rest = expect(rest, Symbol::CloseMask)?;
    Ok((Literal::Mask { at, items }, rest))
}

/// The literal that comes next.
pub fn literal<'a>(
    alloc: Global,
    words: &'a [Word],
    depth_left: u32,
) -> Result<(Literal, &'a [Word]), Refusal<'a>>
    ensures { Agrees literal_tree result (literal_at depth_left words.now) }
{
    if let Some((value, rest)) = next_value(words) {
        return Ok((value, rest));
    }
    if let Some((at, behind)) = after_placed(words, Symbol::OpenParenthesis) {
        return pair(at, behind);
    }
    if let Some((at, behind)) = after_placed(words, Symbol::OpenBracket) {
        return set(alloc, words, at, behind, depth_left);
    }
    match after_placed(words, Symbol::OpenMask) {
        Some((at, behind)) => mask(alloc, at, behind),
        None => Err(Refusal::Bad(words)),
    }
}
