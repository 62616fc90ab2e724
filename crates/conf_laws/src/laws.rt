//! What stands before a refused token begins a configuration.
ghost use Rattle.std.specs.Prelude.{◌≡◌, ℕ, List, ◌∷◌, ◌++◌, length, take};
ghost use Rattle.conf_scan.specs.Lex.{Lexes};
ghost use Rattle.conf_scan.specs.declared.token.Token.{Token};
ghost use Rattle.conf_lex.specs.declared.word.Word.{Word};
ghost use Rattle.conf_lex.specs.Sentences.{IsBegunWithin};
ghost use Rattle.filt_syntax.specs.Parse.{IsSyntaxFault};
ghost use Rattle.expr_syntax.specs.Syntax.{block, expr, rule};
ghost use Rattle.conf_tree.specs.Read.{IsRefusedText};
ghost use Rattle.conf_words.specs.Significant.{significant_words};
ghost use Rattle.conf_tree.specs.Sentence.{StopsAt};
ghost use Rattle.conf_syntax.specs.Syntax.{config};
ghost use Rattle.conf_ast.specs.declared.kind.ConfKind.{ConfKind};
ghost use Rattle.conf_laws.specs.Begun.{BeginSome};
ghost use Rattle.conf_laws.specs.Spaced.{Spelling, AreSpellings, spaced, spellings_of};

use conf_ast::ConfKind;
use conf_lex::Word;
use conf_scan::laws::{texts_have_one_list_of_tokens, tokens_are_slices, tokens_rise};
use filt_syntax::SyntaxFault;

/// The words before one that can't stand there begin a sentence, and open no level over 64: in a
/// configuration, in a block and in an expression.
pub fn words_before_a_refused_one_begin_a_sentence()
    ensures config { (text : List ℕ) (tokens : List Token) (place at : ℕ)
        → StopsAt text tokens place at
        → IsBegunWithin rule 64 config (take place (significant_words text tokens)) }
    ensures block { (words : List Word) (at : ℕ)
        → IsSyntaxFault block words 0 (SyntaxFault.Bad at)
        → IsBegunWithin rule 64 block (take at words) }
    ensures expression { (words : List Word) (at : ℕ)
        → IsSyntaxFault expr words 0 (SyntaxFault.Bad at)
        → IsBegunWithin rule 64 expr (take at words) }
{}

/// A text that is written of tokens with a space before each of them and one behind the last has
/// just these tokens.
pub fn spaced_tokens_are_read_back()
    ensures { (spellings : List Spelling) → AreSpellings spellings
        → (tokens : List Token) × Lexes 0 (spaced spellings) tokens
        × (spellings_of (spaced spellings) tokens ≡ spellings) }
{}

/// Where a word of a text is refused, or the end is, some configuration begins with the tokens
/// before it: another text has tokens like these, kind for kind and byte for byte, then others, and
/// all its words are a configuration of the grammar. So it is wherever these tokens end, in a log
/// and within the braces of a device too. Where no such text is within 64 levels (behind `defined`
/// in the 64th), it opens the 65th behind these tokens.
pub fn refused_words_stand_behind_a_beginning()
    ensures { (text : List ℕ) (front back : List Token) (place : ℕ)
        → Lexes 0 text (front ++ back) → StopsAt text (front ++ back) place (length front)
        → BeginSome text front }
{
    tokens_are_slices();
}

/// Where a text is refused at a token, some configuration begins with the tokens before it, and
/// where it is refused at its end, with all of its tokens. So a refusal stands at the first token
/// that can't stand there (`refusals_are_by_tokens`), and at no earlier one: this holds for the
/// slash and the length of a prefix too, which are tokens of one word.
pub fn refused_tokens_stand_behind_a_beginning()
    ensures token { (text : List ℕ) (front back : List Token) (t : Token)
        → Lexes 0 text (front ++ t ∷ back) → IsRefusedText text t.at ConfKind.Syntax
        → BeginSome text front }
    ensures end { (text : List ℕ) (tokens : List Token)
        → Lexes 0 text tokens → IsRefusedText text (length text) ConfKind.Syntax
        → BeginSome text tokens }
{
    texts_have_one_list_of_tokens();
    tokens_are_slices();
    tokens_rise();
}
