//! Words that can't stand behind others, as far as the last of these, their kinds and their
//! brackets tell.

ghost use Rattle.std.specs.Prelude.{◌≡◌, ◌++◌, ◌∷◌, [], List, IsTrue, true, false};
ghost use Rattle.conf_lex.specs.declared.word.Word.{Word};
ghost use Rattle.conf_lex.specs.Symbols.{is_placed};
ghost use Rattle.conf_lex.specs.Kind.{kind_of, symbol, address, prefix};
ghost use Rattle.conf_lex.specs.Sentences.{IsBegun};
ghost use Rattle.expr_syntax.specs.Syntax.{rule};
ghost use Rattle.conf_syntax.specs.Syntax.{config};
ghost use Rattle.conf_syntax.specs.Pairs.{has, is_option, is_end, is_last};

use crate::sets::is_in_set;
use conf_lex::parsing::is_symbol;
use conf_lex::{Symbol, Word};

fn is_option(word: &Word) -> bool
    ensures { result ≡ is_option (kind_of word.now) }
{
    is_symbol(word, Symbol::Neighbor)
        || is_symbol(word, Symbol::Next)
        || is_symbol(word, Symbol::Limit)
        || is_symbol(word, Symbol::Warn)
        || is_symbol(word, Symbol::Blackhole)
}

fn is_address(word: &Word) -> bool
    ensures { result ≡ address (kind_of word.now) }
{
    matches!(word, Word::Ip { .. })
}

/// Whether a word is a good prefix.
pub fn is_prefix(word: &Word) -> bool
    ensures { result ≡ prefix (kind_of word.now) }
{
    matches!(word, Word::Prefix { .. })
}

fn is_end(word: &Word) -> bool
    ensures { result ≡ is_end (kind_of word.now) }
{
    is_symbol(word, Symbol::Semicolon)
        || is_symbol(word, Symbol::CloseBrace)
        || is_address(word)
        || is_prefix(word)
}

fn is_last(word: &Word) -> bool
    ensures { result ≡ is_last (kind_of word.now) }
{
    is_end(word) || is_symbol(word, Symbol::Route)
}

fn has(words: &[Word], wanted: Symbol) -> bool
    requires { is_placed wanted ≡ false }
    ensures { result ≡ has (symbol wanted) words.now }
{
    words.iter().any(|word| is_symbol(word, wanted))
}

// Whether no address is next behind these words, of which this is the last.
fn bars_addresses(before: &[Word], last: &Word) -> bool
    ensures { IsTrue result → (front : List Word) → before.now ≡ front ++ last.now ∷ []
        → (w : Word) → address (kind_of w) ≡ true
        → IsBegun rule config (before.now ++ w ∷ []) → ⊥ }
{
    if is_last(last) {
        return true;
    }
    is_in_set(before)
}

// Whether this word is never next behind the others, of which this is the last.
fn is_apart_from(before: &[Word], last: &Word, word: &Word) -> bool
    ensures { IsTrue result → (front : List Word) → before.now ≡ front ++ last.now ∷ []
        → IsBegun rule config (before.now ++ word.now ∷ []) → ⊥ }
{
    if is_option(word) {
        return !has(before, Symbol::Protocol);
    }
    if is_address(word) {
        return bars_addresses(before, last);
    }
    is_prefix(word) && is_end(last) && !has(before, Symbol::Colon)
}

/// Whether the last of these words can't stand behind the others: a word of a protocol where none
/// is begun, an address or a prefix behind a whole statement or another of them, an address behind
/// `route` or in a set. In a `case` a prefix may begin a label there, and the label before it has a
/// colon.
pub fn is_apart(words: &[Word]) -> bool
    ensures { IsTrue result → IsBegun rule config words.now → ⊥ }
{
    let Some((word, before)) = words.split_last() else {
        return false;
    };
    match before.split_last() {
        Some((last, _)) => is_apart_from(before, last, word),
        None => false,
    }
}
