//! Words that end within a set.

ghost use Rattle.std.specs.Prelude.{◌≡◌, IsTrue};
ghost use Rattle.conf_lex.specs.declared.symbol.Symbol.TheVariants as sym;
ghost use Rattle.conf_lex.specs.Kind.{kind_of, symbol};
ghost use Rattle.conf_syntax.specs.Pairs.{is_bracket, IsInSet};

use conf_lex::parsing::is_symbol;
use conf_lex::{Symbol, Word};

/// Whether a word opens a set.
pub fn opens_set(word: &Word) -> bool
    ensures { result ≡ symbol sym.OpenBracket (kind_of word.now) }
{
    match word {
        Word::Placed { symbol, .. } => *symbol == Symbol::OpenBracket,
        _ => false,
    }
}

fn is_bracket(word: &Word) -> bool
    ensures { result ≡ is_bracket (kind_of word.now) }
{
    opens_set(word) || is_symbol(word, Symbol::CloseBracket)
}

/// Whether the last bracket of these words opens a set. No set holds a semicolon, so behind one
/// nothing is looked for.
pub fn is_in_set(words: &[Word]) -> bool
    ensures { IsTrue result → IsInSet words.now }
{
    let mut left = words;
    while let [front @ .., word] = left {
        if is_bracket(word) {
            return opens_set(word);
        }
        if is_symbol(word, Symbol::Semicolon) {
            return false;
        }
        left = front;
    }
    false
}
