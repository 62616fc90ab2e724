//! What texts say: each one thing at most, of a system or as a condition, and those of conditions
//! always one.
ghost use Rattle.std.specs.Prelude.{◌≡◌, ◌⊎◌, ◌<◌, ◌-◌, ◌^◌, ℕ, length, List};
ghost use Rattle.conf_ast.specs.declared.kind.ConfKind.{ConfKind};
ghost use Rattle.conf_system.specs.Conditions.{IsCondition, RefusesCondition};
ghost use Rattle.conf_system.specs.Policies.{Filter};
ghost use Rattle.conf_system.specs.System.{System};
ghost use Rattle.conf_system.specs.Texts.{IsRefusedAt, IsSystem};

use ast_laws::laws::{a_text_is_one_syntax, a_tree_is_of_one_expression};
use conf_scan::laws::{
    lexed_texts_are_not_refused, texts_have_one_list_of_tokens, tokens_are_slices, tokens_rise,
};
use conf_tree::laws::{
    a_text_has_one_refusal, configurations_are_not_refused, places_have_one_line_and_column,
};
use syntax_laws::expressions::each_tree_is_of_an_expression;
use syntax_laws::readings::{
    each_text_is_parsed_or_refused, parsed_texts_are_not_refused, texts_have_one_tree_and_one_end,
};
use syntax_laws::words::each_text_has_tokens_or_a_place;

/// A text comes to one system at most, or it is refused, in one line and column for one reason.
pub fn texts_say_one_thing()
    ensures accepted { (text : List ℕ) (a b : System)
        → IsSystem text a → IsSystem text b → a ≡ b }
    ensures accepted_or_refused { (text : List ℕ) (system : System) (line column : ℕ)
        (kind : ConfKind) → IsSystem text system → IsRefusedAt text line column kind → ⊥ }
    ensures refused { (text : List ℕ) (l m c d : ℕ) (k j : ConfKind)
        → IsRefusedAt text l c k → IsRefusedAt text m d j → (l ≡ m) × (c ≡ d) × (k ≡ j) }
{
    a_text_is_one_syntax();
    a_text_has_one_refusal();
    configurations_are_not_refused();
    places_have_one_line_and_column();
}

/// A text that stands elsewhere asks for one thing at most over a system: it is a condition, with
/// one filter, or it is refused as one.
pub fn conditions_ask_for_one_thing()
    ensures condition { (system : System) (text : List ℕ) (f g : Filter)
        → IsCondition system text f → IsCondition system text g → f ≡ g }
    ensures condition_or_refused { (system : System) (text : List ℕ) (f : Filter)
        → IsCondition system text f → RefusesCondition system text → ⊥ }
{
    texts_have_one_list_of_tokens();
    lexed_texts_are_not_refused();
    parsed_texts_are_not_refused();
    texts_have_one_tree_and_one_end();
    a_tree_is_of_one_expression();
}

/// Each such text is a condition, or it is refused as one.
pub fn each_text_is_a_condition_or_is_refused()
    ensures { (system : System) (text : List ℕ) → length text < 2 ^ 32 - 1
        → ((f : Filter) × IsCondition system text f) ⊎ RefusesCondition system text }
{
    each_text_has_tokens_or_a_place();
    tokens_are_slices();
    tokens_rise();
    each_text_is_parsed_or_refused();
    each_tree_is_of_an_expression();
}
