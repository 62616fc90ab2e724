//! What the files say, on which the contract of `top` rests: a text has one answer as a script, and
//! files that are told come to one outcome at most. The other laws of `top` stand in the crate
//! `top_laws`.
ghost use Rattle.std.specs.Prelude.{◌≡◌, ◌<◌, ◌-◌, ◌^◌, ℕ, Bool, length, List, Option, IfSome, IsSomeAnd};
ghost use Rattle.conf_system.specs.System.{System};
ghost use Rattle.sys_build.specs.Scripts.{Answer, Answers};
ghost use Rattle.birdcore_top.specs.Command.{Command};
ghost use Rattle.birdcore_top.specs.Outcome.{Held, Outcome, ConfGives, IsAccepted, IsPossible, IsRequired};

use accepted_laws::said::{
    conditions_ask_for_one_thing, each_text_is_a_condition_or_is_refused, texts_say_one_thing,
};
use script_lines::laws as lines;

/// A text has one answer at most over a system: it is a script, with its queries and what its
/// conditions ask for, or it is refused, in one line for one reason.
pub fn a_text_has_one_answer()
    ensures { (system : System) (schedule : Bool) (text : List ℕ) (a b : Answer)
        → Answers system schedule text a → Answers system schedule text b → a ≡ b }
{
    lines::a_text_has_one_answer();
    conditions_ask_for_one_thing();
}

/// Each text has an answer.
pub fn each_text_has_an_answer()
    ensures { (system : System) (schedule : Bool) (text : List ℕ) → length text < 2 ^ 32 - 1
        → (answer : Answer) × Answers system schedule text answer }
{
    lines::each_text_has_an_answer();
    lines::conditions_are_short();
    each_text_is_a_condition_or_is_refused();
}

/// Files that are told come to one outcome at most: what may be due is what is required. Where the
/// configuration decides it alone, the configuration isn't accepted.
pub fn files_have_one_outcome()
    ensures accepted { (name : List ℕ) (conf : Option (List ℕ)) (o : Outcome)
        → ConfGives IsSomeAnd name conf o → IfSome conf IsAccepted → ⊥ }
    ensures one { (command : Option Command) (held : Held) (o p : Outcome)
        → IsRequired command held o → IsPossible command held p → p ≡ o }
{
    texts_say_one_thing();
    a_text_has_one_answer();
}
