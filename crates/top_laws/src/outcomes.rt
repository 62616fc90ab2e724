//! Each text says something, and files that are told come to an outcome.
ghost use Rattle.std.specs.Prelude.{◌≡◌, ◌≤◌, ℕ, length, IfSome, List, Some};
ghost use Rattle.outside_io.specs.Whole.{limit};
ghost use Rattle.birdcore_top.specs.Command.{Command, conf_of, script_of};
ghost use Rattle.birdcore_top.specs.Outcome.{Held, Outcome, IsRequired};
ghost use Rattle.top_laws.specs.Says.{SaysSomething};

use birdcore_top::laws::each_text_has_an_answer;
use conf_laws::readings::{
    each_place_has_a_line_and_a_column, each_text_is_a_configuration_or_is_refused,
    each_tree_is_of_a_configuration,
};
use conf_scan::laws::{tokens_are_slices, tokens_rise};

/// Each text within the limit says something: it is a configuration, or it is refused.
pub fn each_text_says_something()
    ensures { (text : List ℕ) → length text ≤ limit → SaysSomething text }
{
    tokens_are_slices();
    tokens_rise();
    each_tree_is_of_a_configuration();
    each_text_is_a_configuration_or_is_refused();
    each_place_has_a_line_and_a_column();
}

/// A command whose files are told comes to an outcome.
pub fn told_files_have_an_outcome()
    ensures { (command : Command) (held : Held) (file : List ℕ)
        → held (conf_of command) ≡ Some file
        → IfSome (script_of command) (λ script. (text : List ℕ) × (held script ≡ Some text))
        → (o : Outcome) × IsRequired (Some command) held o }
{
    each_text_says_something();
    each_text_has_an_answer();
}
