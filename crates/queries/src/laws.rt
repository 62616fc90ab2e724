//! What follows from the definitions: a text is one question at most.
ghost use Rattle.std.specs.Prelude.{◌≡◌, ◌↔◌, ◌⊎◌, ℕ, List, []};
ghost use Rattle.attrs.specs.declared.route.Select.TheVariants.{All};
ghost use Rattle.text.specs.Lines.{words_of};
ghost use Rattle.queries.specs.Question.{Asked, IsQuestion, plain};

/// A text is one question at most.
pub fn a_text_is_one_question()
    ensures { (rest : List ℕ) (a b : Asked) → IsQuestion rest a → IsQuestion rest b → a ≡ b }
{}

/// Each text is a question or none.
pub fn each_text_is_a_question_or_none()
    ensures { (rest : List ℕ) → ((asked : Asked) × IsQuestion rest asked)
        ⊎ ((asked : Asked) → IsQuestion rest asked → ⊥) }
{}

/// Without words all nets are asked for, with no option.
pub fn without_words_all_is_asked()
    ensures { (rest : List ℕ) (asked : Asked) → words_of rest ≡ []
        → IsQuestion rest asked ↔ (asked ≡ plain All) }
{}
