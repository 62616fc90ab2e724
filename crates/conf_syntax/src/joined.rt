//! Words that can stand behind others, whatever begins with these.

ghost use Rattle.std.specs.Prelude.{◌≡◌, ◌++◌, ◌∷◌, [], List, IsTrue, true};
ghost use Rattle.conf_lex.specs.declared.word.Word.{Word};
ghost use Rattle.conf_lex.specs.declared.symbol.Symbol.TheVariants as sym;
ghost use Rattle.conf_lex.specs.Kind.{kind_of, prefix, symbol};
ghost use Rattle.conf_lex.specs.Sentences.{IsBegun};
ghost use Rattle.expr_syntax.specs.Syntax.{rule};
ghost use Rattle.conf_syntax.specs.Syntax.{config};
ghost use Rattle.conf_syntax.specs.Pairs.{is_item_end, EndsItem, EndsNet, IsInSet};

use crate::apart::is_prefix;
use crate::sets::{is_in_set, opens_set};
use conf_lex::parsing::is_symbol;
use conf_lex::{Symbol, Word};

fn is_item_end(word: &Word) -> bool
    ensures { result ≡ is_item_end (kind_of word.now) }
{
    is_prefix(word)
        || is_symbol(word, Symbol::Plus)
        || is_symbol(word, Symbol::Minus)
        || is_symbol(word, Symbol::CloseBrace)
        || is_symbol(word, Symbol::CloseParenthesis)
}

// Whether these words end like an item of a set that is a prefix or a pair.
fn ends_item(words: &[Word]) -> bool
    ensures { IsTrue result → EndsItem words.now }
{
    match words.split_last() {
        Some((last, _front)) => is_item_end(last),
        None => false,
    }
}

// Whether a comma behind these words ends an item of a set.
fn is_next_in_set(before: &[Word]) -> bool
    ensures { IsTrue result → IsInSet before.now × EndsItem before.now }
{
    if ends_item(before) {
        return is_in_set(before);
    }
    false
}

fn is_route(word: &Word) -> bool
    ensures { result ≡ symbol sym.Route (kind_of word.now) }
{
    is_symbol(word, Symbol::Route)
}

fn is_comma(word: &Word) -> bool
    ensures { result ≡ symbol sym.Comma (kind_of word.now) }
{
    is_symbol(word, Symbol::Comma)
}

// Whether a prefix can stand behind these words and this one.
fn takes_prefix(before: &[Word], last: &Word) -> bool
    ensures { IsTrue result → IsBegun rule config (before.now ++ last.now ∷ [])
        → (w : Word) → prefix (kind_of w) ≡ true
        → IsBegun rule config ((before.now ++ last.now ∷ []) ++ w ∷ []) }
{
    if is_route(last) {
        return true;
    }
    if opens_set(last) {
        return true;
    }
    if is_comma(last) {
        return is_next_in_set(before);
    }
    false
}

// Whether a prefix can stand behind these words.
fn end_before_prefix(words: &[Word]) -> bool
    ensures { IsTrue result → IsBegun rule config words.now
        → (w : Word) → prefix (kind_of w) ≡ true
        → IsBegun rule config (words.now ++ w ∷ []) }
{
    match words.split_last() {
        Some((last, before)) => takes_prefix(before, last),
        None => false,
    }
}

fn is_blackhole(word: &Word) -> bool
    ensures { result ≡ symbol sym.Blackhole (kind_of word.now) }
{
    is_symbol(word, Symbol::Blackhole)
}

// Whether these words end in `route` and a prefix.
fn ends_net(words: &[Word]) -> bool
    ensures { IsTrue result → EndsNet words.now }
{
    let Some((net, before)) = words.split_last() else {
        return false;
    };
    match before.split_last() {
        Some((opener, _front)) => is_route(opener) && is_prefix(net),
        None => false,
    }
}

/// Whether the last of these words can stand behind the others, if they begin a configuration: a
/// prefix behind `route`, and in a set behind its bracket or behind a prefix or a pair and a comma;
/// and `blackhole` behind `route` and a prefix.
pub fn is_joined(words: &[Word]) -> bool
    ensures { IsTrue result → (front : List Word) (w : Word) → words.now ≡ front ++ w ∷ []
        → IsBegun rule config front → IsBegun rule config words.now }
{
    let Some((word, before)) = words.split_last() else {
        return false;
    };
    if is_prefix(word) {
        return end_before_prefix(before);
    }
    if is_blackhole(word) {
        return ends_net(before);
    }
    false
}
