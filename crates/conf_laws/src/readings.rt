//! How texts are read: each is a configuration or is refused; the token that is refused is the
//! first that no configuration has there; each tree is of a configuration; and each place has a
//! line and a column.
ghost use Rattle.std.specs.Prelude.{◌≡◌, ◌⊎◌, ℕ, ◌<◌, ◌^◌, List, ◌∷◌, ◌++◌, length};
ghost use Rattle.conf_scan.specs.Lex.{Lexes};
ghost use Rattle.conf_scan.specs.declared.token.Token.{Token};
ghost use Rattle.conf_lex.specs.Grammar.{ParseTree, yield, DerivesLongest, Derives};
ghost use Rattle.expr_syntax.specs.Syntax.{rule};
ghost use Rattle.conf_tree.specs.Position.{IsPlace};
ghost use Rattle.conf_tree.specs.Read.{IsConfigText, IsRefusedText};
ghost use Rattle.conf_syntax.specs.Syntax.{config};
ghost use Rattle.conf_tree.specs.View.{statements_tree};
ghost use Rattle.conf_ast.specs.declared.configurations.Statement.{Statement};
ghost use Rattle.conf_ast.specs.declared.kind.ConfKind.{ConfKind};
ghost use Rattle.conf_laws.specs.Alike.{IsAlike, AreAlike, DecideAlike, IsNoSentence};

use conf_ast::ConfKind;
use conf_scan::laws::{texts_have_one_list_of_tokens, tokens_are_slices, tokens_rise};
use syntax_laws::words::each_text_has_tokens_or_a_place;

/// Each place of a text has a line and a column.
pub fn each_place_has_a_line_and_a_column()
    ensures { (text : List ℕ) (at : ℕ) → (line : ℕ) × (column : ℕ) × IsPlace text at line column }
{}

/// Each text is a configuration or is refused.
pub fn each_text_is_a_configuration_or_is_refused()
    ensures { (text : List ℕ)
        → ((t : ParseTree) × IsConfigText text t)
        ⊎ ((at : ℕ) × (kind : ConfKind) × IsRefusedText text at kind) }
{
    each_text_has_tokens_or_a_place();
}

/// Each configuration of the grammar alone is one: its words have a tree in which an `else` goes to
/// the nearest `if`.
pub fn sentences_decide()
    ensures { (t : ParseTree) → Derives rule t config
        → (u : ParseTree) × DerivesLongest rule u config × (yield u ≡ yield t) }
{}

/// A text is refused at the first token that no configuration has there: none begins with the
/// tokens up to and with the refused one, kind for kind and byte for byte, nor has just these where
/// the end is refused. How many levels are open doesn't matter to it. Two tokens decide with those
/// behind them: `else`, which a colon makes one sign, and where a prefix can stand the address of a
/// bad one, which is refused there though a good one may begin with it.
pub fn refusals_are_by_tokens()
    ensures token { (text other : List ℕ) (front back seen more : List Token) (t u : Token)
        → Lexes 0 text (front ++ t ∷ back) → IsRefusedText text t.at ConfKind.Syntax
        → AreAlike text front other seen → IsAlike text t other u
        → DecideAlike text front t back other u more
        → IsNoSentence other (seen ++ u ∷ more) }
    ensures end { (text other : List ℕ) (tokens seen : List Token)
        → Lexes 0 text tokens → IsRefusedText text (length text) ConfKind.Syntax
        → AreAlike text tokens other seen → IsNoSentence other seen }
{
    texts_have_one_list_of_tokens();
    tokens_are_slices();
    tokens_rise();
}

/// Each tree of a configuration is the view of statements. A list in memory has less than 2 ^ 63
/// items, so a configuration of more words has none.
pub fn each_tree_is_of_a_configuration()
    ensures { (t : ParseTree) → DerivesLongest rule t config → length (yield t) < 2 ^ 63
        → (statements : List Statement) × (statements_tree statements ≡ t) }
{}
