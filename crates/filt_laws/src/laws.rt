ghost use Rattle.std.specs.Prelude.{◌≡◌, ℕ, List, [], None, Result};
ghost use Rattle.attrs.specs.declared.attributes.Attrs.{Attrs};
ghost use Rattle.attrs.specs.declared.judge.Verdict.TheVariants as verdicts;
ghost use Rattle.conf_ast.specs.Configurations.{Declaration, Routine};
ghost use Rattle.conf_ast.specs.Filters.{Expression, Statements};
ghost use Rattle.filt_meaning.specs.declared.value.Failure.{Failure};
ghost use Rattle.filt_meaning.specs.Values.{Val};
ghost use Rattle.filt_meaning.specs.Configuration.{at_start, behind, body, doing, filter_where};
ghost use Rattle.filt_meaning.specs.Configuration.{judged, of_text, with_constant, with_function};
ghost use Rattle.filt_meaning.specs.Flow.{Rejected, Returned, Stuck, Stopped};
ghost use Rattle.filt_meaning.specs.Names.{Around, Context};
ghost use Rattle.filt_meaning.specs.Worked.{counts, names, passes_over, prepends_one, prepends_two};
ghost use Rattle.filt_types.specs.Scenes.{Scene};
ghost use Rattle.filt_types.specs.Statements.{in_filter, in_function};
ghost use Rattle.filt_laws.specs.Behind.{refused_in_functions, seen_at_start, seen_behind};
ghost use Rattle.filt_laws.specs.Behind.{seen_in_text, with_signature, with_value};
ghost use Rattle.filt_laws.specs.Operators.{AreTyped};
ghost use Rattle.filt_laws.specs.Sound.{Agrees, IsOfSignature, signature_of};

use filt_values::laws::{
    comparisons_are_typed, matches_are_typed, methods_are_typed, numbers_are_typed,
    properties_are_typed, truths_are_typed,
};

/// What the laws of values say.
fn operators_are_typed()
    ensures { AreTyped }
{
    numbers_are_typed();
    truths_are_typed();
    comparisons_are_typed();
    matches_are_typed();
    properties_are_typed();
    methods_are_typed();
}

/// A filter in which nothing is refused isn't stuck, and gives no value: so where it rejects
/// without a fault it has come to `reject`.
pub fn typed_filters_are_never_stuck()
    ensures stuck { (scene : Scene) (c : Context) → Agrees scene c
        → (ss : Statements) → in_filter scene ss ≡ []
        → (attrs after : Attrs) → body c [] ss [] attrs ≡ Stopped Stuck after → ⊥ }
    ensures returned { (scene : Scene) (c : Context) → Agrees scene c
        → (ss : Statements) → in_filter scene ss ≡ []
        → (attrs after : Attrs) (v : Val)
        → body c [] ss [] attrs ≡ Stopped (Returned v) after → ⊥ }
    ensures rejected { (scene : Scene) (c : Context) → Agrees scene c
        → (ss : Statements) → in_filter scene ss ≡ []
        → (attrs : Attrs) → judged c ss attrs ≡ verdicts.Reject None
        → (after : Attrs) × (body c [] ss [] attrs ≡ Stopped Rejected after) }
{
    operators_are_typed();
}

/// A function in which nothing is refused gives a value of the sort that it declares, or nothing
/// where it declares none, whenever its arguments are of its parameters' sorts; or it ends the
/// filter.
pub fn typed_functions_keep_their_signatures()
    ensures { (scene : Scene) (c : Context) → Agrees scene c
        → (f : Routine) → in_function scene f ≡ []
        → (weight : ℕ) → IsOfSignature (signature_of f weight) (doing c f) }
{
    operators_are_typed();
}

/// What runs agrees with what was seen, at the first statement of a configuration and from one to
/// the next, where nothing is refused in functions.
pub fn what_runs_agrees_with_what_is_seen()
    ensures start { (text : List ℕ) (around : Around)
        → Agrees (seen_at_start text) (at_start text around) }
    ensures constant { (scene : Scene) (c : Context) → Agrees scene c
        → (name : List ℕ) (v : Result Val Failure)
        → Agrees (with_value scene name v) (with_constant c name v) }
    ensures function { (scene : Scene) (c : Context) → Agrees scene c
        → (f : Routine) → in_function scene f ≡ [] → (name : List ℕ) (weight : ℕ)
        → Agrees (with_signature scene name (signature_of f weight))
        (with_function c name (doing c f)) }
    ensures text { (scene : Scene) (c : Context) → Agrees scene c → (text : List ℕ)
        → Agrees (seen_in_text scene text) (of_text c text) }
    ensures behind { (text : List ℕ) (around : Around) (ds : List Declaration)
        → refused_in_functions (at_start text around) (seen_at_start text) ds ≡ []
        → Agrees (seen_behind (at_start text around) (seen_at_start text) ds)
        (behind (at_start text around) ds) }
{
    operators_are_typed();
}

/// A filter in which nothing is refused isn't stuck behind statements in whose functions nothing is
/// refused; nor is a condition with a text of its own.
pub fn typed_configurations_are_never_stuck()
    ensures filters { (text : List ℕ) (around : Around) (ds : List Declaration)
        → refused_in_functions (at_start text around) (seen_at_start text) ds ≡ []
        → (ss : Statements)
        → in_filter (seen_behind (at_start text around) (seen_at_start text) ds) ss ≡ []
        → (attrs after : Attrs)
        → body (behind (at_start text around) ds) [] ss [] attrs ≡ Stopped Stuck after → ⊥ }
    ensures conditions { (text : List ℕ) (around : Around) (ds : List Declaration)
        → refused_in_functions (at_start text around) (seen_at_start text) ds ≡ []
        → (condition_text : List ℕ) (e : Expression)
        → in_filter
        (seen_in_text (seen_behind (at_start text around) (seen_at_start text) ds) condition_text)
        (filter_where e) ≡ []
        → (attrs after : Attrs)
        → body (of_text (behind (at_start text around) ds) condition_text) [] (filter_where e) []
        attrs ≡ Stopped Stuck after → ⊥ }
{
    operators_are_typed();
}

/// The filters that are worked by hand are ones in which nothing is refused, and so are the
/// functions before them: the premises above can be met.
pub fn worked_filters_are_typed()
    ensures a_turn_begins_anew { in_filter (seen_at_start names) counts ≡ [] }
    ensures passed_over { in_filter (seen_at_start names) passes_over ≡ [] }
    ensures function { (around : Around)
        → refused_in_functions (at_start names around) (seen_at_start names) prepends_one ≡ [] }
    ensures path_is_read_first { (around : Around)
        → in_filter (seen_behind (at_start names around) (seen_at_start names) prepends_one)
        prepends_two ≡ [] }
{}
