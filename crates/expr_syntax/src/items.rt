// Items of sets, of labels and of masks. Each function answers a value and the words after it;
// `depth_left` is how many more levels may be opened.

ghost use Rattle.std.specs.Prelude.{◌≡◌, ◌∷◌, ◌<◌, false, length, IfOk};
ghost use Rattle.conf_lex.specs.declared.symbol.Symbol.TheVariants.{OpenParenthesis, OpenBrace};
ghost use Rattle.conf_lex.specs.declared.word.Word.{Word};
ghost use Rattle.conf_lex.specs.Grammar.{begins, first_set};
ghost use Rattle.conf_lex.specs.Reading.{word};
ghost use Rattle.conf_lex.specs.Agrees.{Agrees, NeverMemory};
ghost use Rattle.expr_syntax.specs.Finds.{Finds};
ghost use Rattle.expr_syntax.specs.Syntax.{is_num, mask_item};
ghost use Rattle.expr_syntax.specs.ItemView.{num_tree, num_word, num_range_tree, pair_part_tree};
ghost use Rattle.expr_syntax.specs.ItemView.{with_comma, lengths_part, item_tree, items_tree};
ghost use Rattle.expr_syntax.specs.ItemView.{mask_atom_tree, mask_item_tree, mask_items_tree};
ghost use Rattle.expr_syntax.specs.ItemView.{label_tree};
ghost use Rattle.expr_syntax.specs.ItemReaders.{num_range_at, pair_part_at, pair_at, bounds_at};
ghost use Rattle.expr_syntax.specs.ItemReaders.{lengths_at, item_at, items_at, mask_atom_at};
ghost use Rattle.expr_syntax.specs.ItemReaders.{mask_item_at, mask_items_at, label_at};

use bits_ip::Prefix;
use conf_ast::Name;
use conf_ast::filters::{Item, Lengths, MaskAtom, MaskItem, Num, NumRange, PairPart};
use conf_lex::parsing::{after, after_placed, expect, level_below, next_prefix};
use conf_lex::{Refusal, Symbol, Word, push_tight};
use std::alloc::Global;

/// A written number or the name of a constant that is one, where either comes next.
pub fn next_num(words: &[Word]) -> Option<(Num, &[Word])>
    ensures { Finds is_num num_word result words.now }
{
    match words {
        [Word::Number { at, value }, rest @ ..] => {
            let number = Num::Number {
                at: *at as usize,
                value: *value,
            };
            Some((number, rest))
        }
        [Word::Name { at, start, len }, rest @ ..] => {
            let name = Name {
                at: *at as usize,
                start: *start as usize,
                len: *len as usize,
            };
            Some((Num::Name(name), rest))
        }
        _ => None,
    }
}

/// The number, or the name of one, that has to come next.
pub fn num(words: &[Word]) -> Result<(Num, &[Word]), Refusal>
    ensures gives { Agrees num_tree result (word is_num words.now) }
    ensures takes_none { NeverMemory result }
{
    next_num(words).ok_or(Refusal::Bad(words))
}

fn num_range(words: &[Word]) -> Result<(NumRange, &[Word]), Refusal>
    ensures { Agrees num_range_tree result (num_range_at 0 words.now) }
{
    let (low, rest) = num(words)?;
    match after(rest, Symbol::Range) {
        None => Ok((NumRange { low, high: None }, rest)),
        Some(rest) => {
            let (high, rest) = num(rest)?;
            let part = NumRange {
                low,
                high: Some(high),
            };
            Ok((part, rest))
        }
    }
}

fn pair_part(words: &[Word]) -> Result<(PairPart, &[Word]), Refusal>
    ensures { Agrees pair_part_tree result (pair_part_at 0 words.now) }
{
    match after(words, Symbol::Star) {
        Some(rest) => Ok((PairPart::Any, rest)),
        None => {
            let (part, rest) = num_range(words)?;
            Ok((PairPart::Range(part), rest))
        }
    }
}

// What stands between the brackets of a pair.
fn pair(words: &[Word]) -> Result<((PairPart, PairPart), &[Word]), Refusal>
    ensures { Agrees (λ both. with_comma (pair_part_tree both.0) (pair_part_tree both.1)) result
        (pair_at 0 words.now) }
{
    let (first, rest) = pair_part(words)?;
    let rest = expect(rest, Symbol::Comma)?;
    let (second, rest) = pair_part(rest)?;
    Ok(((first, second), rest))
}

// What stands between the braces behind a prefix.
fn bounds(words: &[Word]) -> Result<((Num, Num), &[Word]), Refusal>
    ensures { Agrees (λ both. with_comma (num_tree both.0) (num_tree both.1)) result
        (bounds_at 0 words.now) }
{
    let (low, rest) = num(words)?;
    let rest = expect(rest, Symbol::Comma)?;
    let (high, rest) = num(rest)?;
    Ok(((low, high), rest))
}

// The lengths between braces, by the words after the opening one.
fn braced<'a>(
    words: &'a [Word],
    inside: &'a [Word],
    depth_left: u32,
) -> Result<(Option<Lengths>, &'a [Word]), Refusal<'a>>
    requires { words.now ≡ Word.Symbol OpenBrace ∷ inside.now }
    ensures { Agrees lengths_part result (lengths_at depth_left words.now) }
{
    let _below = level_below(words, depth_left)?;
    let ((low, high), rest) = bounds(inside)?;
    let rest = expect(rest, Symbol::CloseBrace)?;
    Ok((Some(Lengths::Between(low, high)), rest))
}

// The lengths behind a prefix, if any.
fn lengths(words: &[Word], depth_left: u32) -> Result<(Option<Lengths>, &[Word]), Refusal>
    ensures { Agrees lengths_part result (lengths_at depth_left words.now) }
{
    if let Some(rest) = after(words, Symbol::Plus) {
        return Ok((Some(Lengths::AndLonger), rest));
    }
    if let Some(rest) = after(words, Symbol::Minus) {
        return Ok((Some(Lengths::AndShorter), rest));
    }
    match after(words, Symbol::OpenBrace) {
        Some(inside) => braced(words, inside, depth_left),
        None => Ok((None, words)),
    }
}

// A pair in parentheses, by the words after the first of them.
fn pair_item<'a>(
    words: &'a [Word],
    at: usize,
    inside: &'a [Word],
    depth_left: u32,
) -> Result<(Item, &'a [Word]), Refusal<'a>>
    requires { words.now ≡ Word.Placed at OpenParenthesis ∷ inside.now }
    ensures { Agrees item_tree result (item_at depth_left words.now) }
{
    let _below = level_below(words, depth_left)?;
    let ((first, second), rest) = pair(inside)?;
    let rest = expect(rest, Symbol::CloseParenthesis)?;
    Ok((Item::Pair { at, first, second }, rest))
}

// A prefix and its lengths, by the words after it.
fn prefix_item<'a>(
    words: &'a [Word],
    at: usize,
    net: Prefix,
    behind: &'a [Word],
    depth_left: u32,
) -> Result<(Item, &'a [Word]), Refusal<'a>>
    requires { words.now ≡ Word.Prefix at net ∷ behind.now }
    ensures { Agrees item_tree result (item_at depth_left words.now) }
{
    let (lengths, rest) = lengths(behind, depth_left)?;
    Ok((Item::Prefix { at, net, lengths }, rest))
}

pub fn item(words: &[Word], depth_left: u32) -> Result<(Item, &[Word]), Refusal>
    ensures { Agrees item_tree result (item_at depth_left words.now) }
{
    if let Some((at, inside)) = after_placed(words, Symbol::OpenParenthesis) {
        return pair_item(words, at, inside, depth_left);
    }
    match next_prefix(words) {
        Some(((at, net), rest)) => prefix_item(words, at, net, rest, depth_left),
        None => {
            let (part, rest) = num_range(words)?;
            Ok((Item::Range(part), rest))
        }
    }
}

/// One or more items, between commas.
pub fn items<'a>(
    alloc: Global,
    words: &'a [Word],
    depth_left: u32,
) -> Result<(Vec<Item>, &'a [Word]), Refusal<'a>>
    ensures tree { Agrees (λ v. items_tree v.items) result (items_at depth_left words.now) }
    ensures some { IfOk result (λ found. 0 < length found.0.items) }
{
    let mut found = Vec::new(alloc);
    let (first, mut rest) = match item(words, depth_left) {
        Ok(found) => found,
        Err(refusal) => return Err(refusal),
    };
    push_tight(&mut found, first)?;
    while let Some(next) = after(rest, Symbol::Comma) {
        let (more, end) = match item(next, depth_left) {
            Ok(found) => found,
            Err(refusal) => return Err(refusal),
        };
        push_tight(&mut found, more)?;
        rest = end;
    }
    // Most lists are short, and a tree is kept: the room that a list grew by isn't.
    found.shrink_to_fit();
    Ok((found, rest))
}

/// The items of a label and its colon.
pub fn label<'a>(
    alloc: Global,
    words: &'a [Word],
    depth_left: u32,
) -> Result<(Vec<Item>, &'a [Word]), Refusal<'a>>
    ensures { Agrees (λ v. label_tree v.items) result (label_at depth_left words.now) }
{
    let (items, rest) = items(alloc, words, depth_left)?;
    let rest = expect(rest, Symbol::Colon)?;
    Ok((items, rest))
}

fn mask_atom(words: &[Word]) -> Result<(MaskAtom, &[Word]), Refusal>
    ensures { Agrees mask_atom_tree result (mask_atom_at 0 words.now) }
{
    if let Some(rest) = after(words, Symbol::Question) {
        return Ok((MaskAtom::One, rest));
    }
    match after(words, Symbol::Star) {
        Some(rest) => Ok((MaskAtom::Any, rest)),
        None => {
            let (part, rest) = num_range(words)?;
            Ok((MaskAtom::Range(part), rest))
        }
    }
}

fn mask_item(words: &[Word]) -> Result<(MaskItem, &[Word]), Refusal>
    ensures { Agrees mask_item_tree result (mask_item_at 0 words.now) }
{
    let (atom, rest) = mask_atom(words)?;
    match after(rest, Symbol::Plus) {
        Some(rest) => Ok((MaskItem { atom, many: true }, rest)),
        None => Ok((MaskItem { atom, many: false }, rest)),
    }
}

// Whether an element of a mask comes next.
fn begins_mask_item(words: &[Word]) -> bool
    ensures { result ≡ begins (first_set mask_item) words.now }
{
    matches!(
        words,
        [
            Word::Number { .. } | Word::Name { .. } | Word::Symbol(Symbol::Question | Symbol::Star),
            ..
        ]
    )
}

/// The elements of a mask: as many as come next.
pub fn mask_items<'a>(
    alloc: Global,
    words: &'a [Word],
) -> Result<(Vec<MaskItem>, &'a [Word]), Refusal<'a>>
    ensures { Agrees (λ v. mask_items_tree v.items) result (mask_items_at 0 words.now) }
{
    let mut found = Vec::new(alloc);
    let mut rest = words;
    while begins_mask_item(rest) {
        let (item, end) = mask_item(rest)?;
        push_tight(&mut found, item)?;
        rest = end;
    }
    Ok((found, rest))
}
