// Operands in brackets that hold no expression.

ghost use Rattle.std.specs.Prelude.{◌≡◌, ◌∷◌, ◌+◌, ◌≤◌, IfOk, MatchResult};
ghost use Rattle.conf_lex.specs.declared.symbol.Symbol.TheVariants as sym;
ghost use Rattle.conf_lex.specs.declared.word.Word.{Word};
ghost use Rattle.conf_lex.specs.Grammar.{Leaf};
ghost use Rattle.conf_lex.specs.Agrees.{AgreesOnError, Agrees};
ghost use Rattle.expr_syntax.specs.Levels.{Level, attribute_level};
ghost use Rattle.expr_syntax.specs.View.{derivations, in_parentheses};
ghost use Rattle.expr_syntax.specs.Readers.{primary_at, level_at, opened_at};

use crate::items::{items, mask_items};
use crate::operators::next_attribute;
use conf_ast::filters::{Attribute, Expr};
use conf_lex::parsing::{after_placed, expect, level_below};
use conf_lex::{Refusal, Symbol, Word};
use std::alloc::Global;

/// How many levels are left behind the parenthesis that has to come next, its place, and the words
/// after it.
pub fn open(words: &[Word], depth_left: u32) -> Result<(u32, usize, &[Word]), Refusal>
    ensures { MatchResult result
        (λ found. (words.now ≡ Word.Placed found.1 sym.OpenParenthesis ∷ found.2.now)
        × (found.0 + 1 ≡ depth_left))
        (λ e. (n : Level) → AgreesOnError e (opened_at n depth_left words.now)) }
{
    match after_placed(words, Symbol::OpenParenthesis) {
        Some((at, inside)) => {
            let below = level_below(words, depth_left)?;
            Ok((below, at, inside))
        }
        None => Err(Refusal::Bad(words)),
    }
}

/// A set, behind its opening bracket.
pub fn set<'a>(
    alloc: Global,
    words: &'a [Word],
    at: usize,
    inside: &'a [Word],
    depth_left: u32,
) -> Result<(Expr, &'a [Word]), Refusal<'a>>
    requires { words.now ≡ Word.Placed at sym.OpenBracket ∷ inside.now }
    ensures tree { Agrees (λ e. (derivations e).primary) result (primary_at depth_left words.now) }
    ensures precedence { IfOk result (λ found. (derivations found.0).precedence ≤ 0) }
{
    let below = level_below(words, depth_left)?;
    let (items, end) = items(alloc, inside, below)?;
    let rest = expect(end, Symbol::CloseBracket)?;
    Ok((Expr::Set { at, items }, rest))
}

/// A mask, behind its opening bracket.
pub fn mask<'a>(
    alloc: Global,
    words: &'a [Word],
    at: usize,
    inside: &'a [Word],
    depth_left: u32,
) -> Result<(Expr, &'a [Word]), Refusal<'a>>
    requires { words.now ≡ Word.Placed at sym.OpenMask ∷ inside.now }
    ensures tree { Agrees (λ e. (derivations e).primary) result (primary_at depth_left words.now) }
    ensures precedence { IfOk result (λ found. (derivations found.0).precedence ≤ 0) }
{
    let (items, end) = mask_items(alloc, inside)?;
    let rest = expect(end, Symbol::CloseMask)?;
    Ok((Expr::Mask { at, items }, rest))
}

/// Whether an attribute is there, behind the word `defined`.
pub fn defined<'a>(
    words: &'a [Word],
    at: usize,
    next: &'a [Word],
    depth_left: u32,
) -> Result<(Expr, &'a [Word]), Refusal<'a>>
    requires { words.now ≡ Word.Placed at sym.Defined ∷ next.now }
    ensures tree { Agrees (λ e. (derivations e).primary) result (primary_at depth_left words.now) }
    ensures precedence { IfOk result (λ found. (derivations found.0).precedence ≤ 0) }
{
    let ((attribute_at, attribute, open), rest) = of_attribute(next, depth_left)?;
    let defined = Expr::Defined {
        at,
        open,
        attribute_at,
        attribute,
    };
    Ok((defined, rest))
}

/// The place of an attribute in parentheses, the attribute, and the place of the first of these.
pub fn of_attribute(
    words: &[Word],
    depth_left: u32,
) -> Result<((usize, Attribute, usize), &[Word]), Refusal>
    ensures { Agrees (λ found. in_parentheses found.2 (Leaf (Word.Attribute found.0 found.1)))
        result (level_at attribute_level depth_left words.now) }
{
    let (_below, open, inside) = open(words, depth_left)?;
    let Some(((at, attribute), end)) = next_attribute(inside) else {
        return Err(Refusal::Bad(inside));
    };
    let rest = expect(end, Symbol::CloseParenthesis)?;
    Ok(((at, attribute, open), rest))
}
