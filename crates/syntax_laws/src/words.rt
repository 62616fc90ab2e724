//! That each text has tokens or a place of refusal, what the words of a text are made of, and that
//! a spelling says one thing.
ghost use Rattle.std.specs.Prelude.{◌≡◌, ◌⊎◌, ℕ, ◌+◌, List, ◌∷◌, ◌++◌, length, Some};
ghost use Rattle.std.specs.Prelude.{None};
ghost use Rattle.bits_ip.specs.declared.address.Addr.{Addr};
ghost use Rattle.conf_ast.specs.declared.attribute.Attribute.{Attribute};
ghost use Rattle.conf_lex.specs.declared.symbol.Symbol.{Symbol};
ghost use Rattle.conf_scan.specs.declared.token.Token.{Token};
ghost use Rattle.conf_lex.specs.declared.word.Word.{Word};
ghost use Rattle.conf_lex.specs.Attributes.{attribute_of, constant_of};
ghost use Rattle.conf_lex.specs.Symbols.{symbol_of};
ghost use Rattle.conf_scan.specs.Lex.{Lexes, Stops};
ghost use Rattle.conf_lex.specs.Words.{token_symbol, prefix_word, words_from, words_of};
ghost use Rattle.syntax_laws.specs.Made.{MakeUp};

use conf_lex::{Symbol, Word};
use conf_scan::TokenKind;

/// Each text has tokens, or a place at which it is refused.
pub fn each_text_has_tokens_or_a_place()
    ensures { (text : List ℕ)
        → ((tokens : List Token) × Lexes 0 text tokens)
        ⊎ ((tokens : List Token) × (place : ℕ) × Stops 0 text tokens place) }
{}

/// The words of a text are made of all its tokens, one after another: a word is one token, or
/// `else` and a colon, or an address, a slash and a number.
pub fn words_are_made_of_all_tokens()
    ensures { (text : List ℕ) (tokens : List Token)
        → MakeUp text 0 tokens (words_of text tokens) }
{}

/// Wherever an address, a slash and a number follow each other among the tokens of a text they are
/// one word, and so are `else` and a colon. The word behind begins with the token behind.
pub fn tokens_in_a_row_are_one_word()
    ensures prefix { (text : List ℕ) (front back : List Token) (t u v : Token) (addr : Addr) (n : ℕ)
        → t.kind ≡ TokenKind.Ip addr → token_symbol text u ≡ Some Symbol.Slash
        → v.kind ≡ TokenKind.Number n
        → (before : List (ℕ × Word)) × (words_of text (front ++ t ∷ u ∷ v ∷ back)
        ≡ before ++ (length front, prefix_word t.at addr n)
        ∷ words_from text (length front + 3) 0 back) }
    ensures else_colon { (text : List ℕ) (front back : List Token) (t u : Token)
        → token_symbol text t ≡ Some Symbol.Else → token_symbol text u ≡ Some Symbol.Colon
        → (before : List (ℕ × Word)) × (words_of text (front ++ t ∷ u ∷ back)
        ≡ before ++ (length front, Word.Symbol Symbol.ElseColon)
        ∷ words_from text (length front + 2) 0 back) }
{}

/// What is spelled so is a symbol, an attribute or a constant, and one of these alone.
pub fn a_spelling_says_one_thing()
    ensures symbol { (text : List ℕ) (s : Symbol) → symbol_of text ≡ Some s
        → (attribute_of text ≡ None) × (constant_of text ≡ None) }
    ensures attribute { (text : List ℕ) (a : Attribute) → attribute_of text ≡ Some a
        → constant_of text ≡ None }
{}
