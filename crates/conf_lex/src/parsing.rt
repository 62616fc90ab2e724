//! The small functions of a parser, each over the words that are left.

ghost use Rattle.std.specs.Prelude.{◌≡◌, [], ◌∷◌, ◌+◌, ◌≤◌, true, false, length, MatchOption};
ghost use Rattle.std.specs.Prelude.{MatchResult};
ghost use Rattle.conf_lex.specs.declared.word.Word.{Word};
ghost use Rattle.conf_lex.specs.Symbols.{is_placed};
ghost use Rattle.conf_lex.specs.Kind.{attribute, symbol, name, prefix, kind_of};
ghost use Rattle.conf_lex.specs.Grammar.{TooDeep, begins};
ghost use Rattle.conf_lex.specs.Reading.{word, Failed};
ghost use Rattle.conf_lex.specs.Agrees.{AgreesOnError, Agrees, NeverMemory};
ghost use Rattle.conf_lex.specs.Leaves.{name_leaf};

use crate::refusal::Refusal;
use crate::symbol::Symbol;
use crate::word::Word;
use bits_ip::Prefix;
use conf_ast::{Attribute, Name};

/// The next word, and the words after it.
pub fn next(words: &[Word]) -> Option<(Word, &[Word])>
    ensures { MatchOption result (words.now ≡ []) (λ next. words.now ≡ next.0 ∷ next.1.now) }
{
    match words {
        [] => None,
        [word, rest @ ..] => Some((*word, rest)),
    }
}

/// The words after this symbol, where it comes next.
pub fn after(words: &[Word], wanted: Symbol) -> Option<&[Word]>
    requires { is_placed wanted ≡ false }
    ensures { MatchOption result (begins (symbol wanted) words.now ≡ false)
        (λ rest. words.now ≡ Word.Symbol wanted ∷ rest.now) }
{
    match next(words) {
        Some((word, rest)) => is_symbol(&word, wanted).then_some(rest),
        None => None,
    }
}

/// The place of this symbol, where it comes next, and the words after it.
pub fn after_placed(words: &[Word], wanted: Symbol) -> Option<(usize, &[Word])>
    requires { is_placed wanted ≡ true }
    ensures { MatchOption result (begins (symbol wanted) words.now ≡ false)
        (λ found. words.now ≡ Word.Placed found.0 wanted ∷ found.1.now) }
{
    match next(words) {
        Some((word, rest)) => place_of(word, wanted).map(|at| (at, rest)),
        None => None,
    }
}

/// The place of this attribute, where it comes next, and the words after it.
pub fn after_attribute(words: &[Word], wanted: Attribute) -> Option<(usize, &[Word])>
    ensures { MatchOption result (begins (attribute wanted) words.now ≡ false)
        (λ found. words.now ≡ Word.Attribute found.0 wanted ∷ found.1.now) }
{
    match next(words) {
        Some((word, rest)) => attribute_place(word, wanted).map(|at| (at, rest)),
        None => None,
    }
}

/// The words after this symbol, which has to come next.
pub fn expect(words: &[Word], wanted: Symbol) -> Result<&[Word], Refusal>
    requires { is_placed wanted ≡ false }
    ensures gives { MatchResult result (λ rest. words.now ≡ Word.Symbol wanted ∷ rest.now)
        (λ e. AgreesOnError e (word (symbol wanted) words.now)) }
    ensures takes_none { NeverMemory result }
{
    after(words, wanted).ok_or(Refusal::Bad(words))
}

/// The place of this symbol, which has to come next, and the words after it.
pub fn expect_placed(words: &[Word], wanted: Symbol) -> Result<(usize, &[Word]), Refusal>
    requires { is_placed wanted ≡ true }
    ensures gives { MatchResult result (λ found. words.now
        ≡ Word.Placed found.0 wanted ∷ found.1.now)
        (λ e. AgreesOnError e (word (symbol wanted) words.now)) }
    ensures takes_none { NeverMemory result }
{
    after_placed(words, wanted).ok_or(Refusal::Bad(words))
}

/// The name, where one comes next, and the words after it.
pub fn next_name(words: &[Word]) -> Option<(Name, &[Word])>
    ensures { MatchOption result (begins name words.now ≡ false)
        (λ found. words.now ≡ Word.Name found.0.at found.0.start found.0.len ∷ found.1.now) }
{
    match words {
        [Word::Name { at, start, len }, rest @ ..] => {
            let name = Name {
                at: *at as usize,
                start: *start as usize,
                len: *len as usize,
            };
            Some((name, rest))
        }
        _ => None,
    }
}

/// The name that has to come next, and the words after it.
pub fn expect_name(words: &[Word]) -> Result<(Name, &[Word]), Refusal>
    ensures gives { Agrees name_leaf result (word name words.now) }
    ensures takes_none { NeverMemory result }
{
    next_name(words).ok_or(Refusal::Bad(words))
}

/// The place of the prefix, where one comes next, its net, and the words after it.
pub fn next_prefix(words: &[Word]) -> Option<((usize, Prefix), &[Word])>
    ensures { MatchOption result (begins prefix words.now ≡ false)
        (λ found. words.now ≡ Word.Prefix found.0.0 found.0.1 ∷ found.1.now) }
{
    match words {
        [Word::Prefix { at, net }, rest @ ..] => Some(((*at as usize, *net), rest)),
        _ => None,
    }
}

/// The place among the words at which the rest of them begins.
pub fn place_in(words: &[Word], rest: &[Word]) -> usize
    requires { length rest.now ≤ length words.now }
    ensures { result + length rest.now ≡ length words.now }
{
    words.len() - rest.len()
}

/// How many levels are left below the one that the next word opens.
pub fn level_below(words: &[Word], depth_left: u32) -> Result<u32, Refusal>
    ensures gives { MatchResult result (λ below. below + 1 ≡ depth_left)
        (λ e. (depth_left ≡ 0) × AgreesOnError e (Failed TooDeep words.now)) }
    ensures takes_none { NeverMemory result }
{
    depth_left.checked_sub(1).ok_or(Refusal::TooDeep(words))
}

/// Whether a word is this symbol.
pub fn is_symbol(word: &Word, wanted: Symbol) -> bool
    requires { is_placed wanted ≡ false }
    ensures { result ≡ symbol wanted (kind_of word.now) }
{
    match word {
        Word::Symbol(symbol) => *symbol == wanted,
        _ => false,
    }
}

fn place_of(word: Word, wanted: Symbol) -> Option<usize>
    requires { is_placed wanted ≡ true }
    ensures { MatchOption result (symbol wanted (kind_of word) ≡ false)
        (λ at. word ≡ Word.Placed at wanted) }
{
    match word {
        Word::Placed { at, symbol } => (symbol == wanted).then_some(at as usize),
        _ => None,
    }
}

fn attribute_place(word: Word, wanted: Attribute) -> Option<usize>
    ensures { MatchOption result (attribute wanted (kind_of word) ≡ false)
        (λ at. word ≡ Word.Attribute at wanted) }
{
    match word {
        Word::Attribute { at, attribute } => (attribute == wanted).then_some(at as usize),
        _ => None,
    }
}
