//! What follows from the definitions: each text has one answer, and a script names what there is.
ghost use Rattle.std.specs.Prelude.{◌≡◌, ◌≤◌, ℕ, List, length};
ghost use Rattle.std.specs.List.{All};
ghost use Rattle.show_route.specs.declared.query.Query.{Query};
ghost use Rattle.script_lines.specs.declared.faults.ScriptKind.{ScriptKind};
ghost use Rattle.script_lines.specs.declared.faults.ScriptKind.TheVariants.{Expression};
ghost use Rattle.script_lines.specs.declared.named.Named.{Named};
ghost use Rattle.script_lines.specs.Grammar.{Form, HasForm};
ghost use Rattle.script_lines.specs.Script.{Answer, Answers, IsScript, IsRefused, NamesWhatIs};
ghost use Rattle.script_lines.specs.Script.{AsksWhatIs, HasTables};
ghost use Rattle.script_lines.specs.declared.script.Condition.{Condition};
ghost use Rattle.script_lines.specs.declared.script.Line.{Line};

use queries::laws::{a_text_is_one_question, each_text_is_a_question_or_none};

/// A line has one form at most.
pub fn a_line_has_one_form()
    ensures { (line : List ℕ) (a b : Form) → HasForm line a → HasForm line b → a ≡ b }
{
    a_text_is_one_question();
}

/// A text has one answer at most: it is a script, or refused at one line for one kind, and not two
/// of these.
pub fn a_text_has_one_answer()
    ensures { (named : Named) (text : List ℕ) (a b : Answer)
        → Answers named text a → Answers named text b → a ≡ b }
{
    a_text_is_one_question();
}

/// Each text has an answer.
pub fn each_text_has_an_answer()
    ensures { (named : Named) (text : List ℕ) → (answer : Answer) × Answers named text answer }
{
    each_text_is_a_question_or_none();
}

/// No line is refused for its condition: that is judged by others.
pub fn no_condition_is_judged()
    ensures { (named : Named) (text : List ℕ) (number : ℕ) (conditions : List Condition)
        → IsRefused named text number Expression conditions → ⊥ }
{}

/// Each line of an accepted script names what there is, and at most 64 speak; and where the
/// configuration has its tables, each query asks for what there is.
pub fn a_script_names_what_is()
    ensures lines { (named : Named) (text : List ℕ) (phases : List (List Line))
        (actors : List (List ℕ)) (queries : List Query) (conditions : List Condition)
        → IsScript named text phases actors queries conditions
        → All (All (NamesWhatIs named actors (length queries))) phases }
    ensures actors { (named : Named) (text : List ℕ) (phases : List (List Line))
        (actors : List (List ℕ)) (queries : List Query) (conditions : List Condition)
        → IsScript named text phases actors queries conditions → length actors ≤ 64 }
    ensures queries { (named : Named) (text : List ℕ) (phases : List (List Line))
        (actors : List (List ℕ)) (queries : List Query) (conditions : List Condition)
        → HasTables named → IsScript named text phases actors queries conditions
        → All (AsksWhatIs named (length conditions)) queries }
{}

/// No condition is longer than the text.
pub fn conditions_are_short()
    ensures accepted { (named : Named) (text : List ℕ) (phases : List (List Line))
        (actors : List (List ℕ)) (queries : List Query) (conditions : List Condition)
        → IsScript named text phases actors queries conditions
        → All (λ (condition : Condition). length condition.text ≤ length text) conditions }
    ensures refused { (named : Named) (text : List ℕ) (number : ℕ) (kind : ScriptKind)
        (conditions : List Condition) → IsRefused named text number kind conditions
        → All (λ (condition : Condition). length condition.text ≤ length text) conditions }
{}
