//! A text says one thing: it is one configuration at most, and then it isn't refused; and it is
//! refused at one place at most, which has one line and one column. The other laws of what is
//! defined here stand in the crate `conf_laws`.
ghost use Rattle.std.specs.Prelude.{◌≡◌, ℕ, List};
ghost use Rattle.conf_lex.specs.Grammar.{ParseTree};
ghost use Rattle.conf_tree.specs.Position.{IsPlace};
ghost use Rattle.conf_tree.specs.Read.{IsConfigText, IsRefusedText};
ghost use Rattle.conf_ast.specs.declared.kind.ConfKind.{ConfKind};

use conf_ast::ConfKind;
use conf_scan::laws::{
    lexed_texts_are_not_refused, texts_are_refused_at_one_place, texts_have_one_list_of_tokens,
};

/// A text is one configuration at most.
pub fn a_text_is_one_configuration()
    ensures { (text : List ℕ) (t u : ParseTree) → IsConfigText text t → IsConfigText text u → t
        ≡ u }
{
    texts_have_one_list_of_tokens();
}

/// A text that is a configuration isn't refused.
pub fn configurations_are_not_refused()
    ensures { (text : List ℕ) (t : ParseTree) (at : ℕ) (kind : ConfKind)
        → IsConfigText text t → IsRefusedText text at kind → ⊥ }
{
    texts_have_one_list_of_tokens();
    lexed_texts_are_not_refused();
}

/// A text is refused at one byte at most, for one reason.
pub fn a_text_has_one_refusal()
    ensures { (text : List ℕ) (at b : ℕ) (kind other : ConfKind)
        → IsRefusedText text at kind → IsRefusedText text b other → (at ≡ b) × (kind ≡ other) }
{
    texts_have_one_list_of_tokens();
    lexed_texts_are_not_refused();
    texts_are_refused_at_one_place();
}

/// A place of a text has one line and one column.
pub fn places_have_one_line_and_column()
    ensures { (text : List ℕ) (at l m c d : ℕ)
        → IsPlace text at l c → IsPlace text at m d → (l ≡ m) × (c ≡ d) }
{}
