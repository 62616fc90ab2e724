//! What holds of the filters of a configuration in which nothing is refused. The functions are
//! empty: their clauses are the laws.

ghost use Rattle.std.specs.Prelude.{◌≡◌, ◌≤◌, ◌++◌, ◌∷◌, ℕ, All, List, [], None, Contains};
ghost use Rattle.attrs.specs.declared.attributes.Attrs.{Attrs};
ghost use Rattle.attrs.specs.declared.judge.Verdict.TheVariants as verdicts;
ghost use Rattle.conf_ast.specs.Configurations.{Declaration, DefineFunction, Routine};
ghost use Rattle.conf_ast.specs.Filters.{Expression, Statements};
ghost use Rattle.filt_meaning.specs.Values.{Val};
ghost use Rattle.filt_meaning.specs.Configuration.{body, doing, filter_where, judged, of_text};
ghost use Rattle.filt_meaning.specs.Flow.{Rejected, Returned, Stuck, Stopped};
ghost use Rattle.filt_meaning.specs.Names.{Around};
ghost use Rattle.filt_types.specs.Refused.{of_filter, signature_in};
ghost use Rattle.filt_laws.specs.Behind.{seen_in_text};
ghost use Rattle.filt_laws.specs.Sound.{Agrees, IsOfSignature};
ghost use Rattle.filt_steps.specs.Agreement.{Agree, TakesAtMost};
ghost use Rattle.filt_steps.specs.Limits.{AttrsAreWithin};
ghost use Rattle.filt_steps.specs.Steps.{filter_steps, function_steps};
ghost use Rattle.conf_rules.specs.Statements.{refusals};
ghost use Rattle.conf_check.specs.Behind.{at_start, behind};
ghost use Rattle.conf_check.specs.Checked.{Source, filter_sources};
ghost use Rattle.conf_check.specs.Refused.{refusal_of};
ghost use Rattle.conf_system.specs.Behind.{context_behind, counts_behind, scene_behind};
ghost use Rattle.conf_system.specs.Coded.{HasCode, CanRunOver};
ghost use Rattle.conf_system.specs.declared.code.Code.{Code};
ghost use Rattle.conf_system.specs.declared.system.System.{System as Held};
ghost use Rattle.filt_code.specs.declared.code.Draft.{Draft};
ghost use Rattle.filt_compile.specs.Compiles.{CostsItsSteps, draft_cost};
ghost use Rattle.filt_meaning.specs.declared.tree.TFilter.{TFilter};
ghost use Rattle.conf_system.specs.Written.{IsWritten};

use conf_names::laws::first_refusals_are_the_first;
use filt_compile::laws::code_costs_no_more_than_its_steps;
use filt_laws::laws::{
    typed_filters_are_never_stuck, typed_functions_keep_their_signatures,
    what_runs_agrees_with_what_is_seen,
};
use filt_steps::laws::{
    configured_filters_end_within_their_weight, filters_end_within_their_weight,
    functions_end_within_their_weight,
};

/// Behind statements of a configuration in which nothing is refused, what runs agrees with what the
/// rules have seen, in sorts and in weights; and nothing is refused of the statement that stands
/// there.
pub fn what_runs_agrees_with_what_is_declared()
    ensures sorts { (text : List ℕ) (ds before more : List Declaration)
        → refusal_of (at_start text) ds ≡ None → ds ≡ before ++ more
        → (around : Around)
        → Agrees (scene_behind text before) (context_behind text around before) }
    ensures weights { (text : List ℕ) (ds before more : List Declaration)
        → refusal_of (at_start text) ds ≡ None → ds ≡ before ++ more
        → (around : Around) → Agree (scene_behind text before)
        (context_behind text around before) (counts_behind text around before) }
    ensures refused { (text : List ℕ) (ds before more : List Declaration) (d : Declaration)
        → refusal_of (at_start text) ds ≡ None → ds ≡ before ++ d ∷ more
        → refusals (behind (at_start text) before) d ≡ [] }
{
    first_refusals_are_the_first();
    what_runs_agrees_with_what_is_seen();
    functions_end_within_their_weight();
    configured_filters_end_within_their_weight();
}

/// In a configuration in which nothing is refused no filter is stuck, and none gives a value,
/// whatever route it is about: so where one rejects without a fault it has come to `reject`. This
/// holds of each filter by name, and of each block and each `where` of a protocol's policies.
pub fn accepted_filters_are_never_stuck()
    ensures stuck { (text : List ℕ) (ds before : List Declaration) (ss : Statements)
        → refusal_of (at_start text) ds ≡ None → IsWritten ds before ss
        → (around : Around) (attrs after : Attrs)
        → body (context_behind text around before) [] ss [] attrs ≡ Stopped Stuck after → ⊥ }
    ensures returned { (text : List ℕ) (ds before : List Declaration) (ss : Statements)
        → refusal_of (at_start text) ds ≡ None → IsWritten ds before ss
        → (around : Around) (attrs after : Attrs) (v : Val)
        → body (context_behind text around before) [] ss [] attrs ≡ Stopped (Returned v) after
        → ⊥ }
    ensures rejected { (text : List ℕ) (ds before : List Declaration) (ss : Statements)
        → refusal_of (at_start text) ds ≡ None → IsWritten ds before ss
        → (around : Around) (attrs : Attrs)
        → judged (context_behind text around before) ss attrs ≡ verdicts.Reject None
        → (after : Attrs)
        × (body (context_behind text around before) [] ss [] attrs ≡ Stopped Rejected after) }
{
    what_runs_agrees_with_what_is_declared();
    typed_filters_are_never_stuck();
}

/// In such a configuration a function isn't stuck either: over arguments of the sorts that it
/// declares it gives what it declares, or ends the filter.
pub fn accepted_functions_keep_their_signatures()
    ensures { (text : List ℕ) (ds before more : List Declaration) (f : Routine)
        → refusal_of (at_start text) ds ≡ None → ds ≡ before ++ DefineFunction f ∷ more
        → (around : Around) → IsOfSignature (signature_in (scene_behind text before) f)
        (doing (context_behind text around before) f) }
{
    what_runs_agrees_with_what_is_declared();
    typed_functions_keep_their_signatures();
}

/// In such a configuration each filter, each block and each `where` takes 10,000,000 steps at most,
/// over whatever route, and so does each function over whatever arguments. The lists of a route
/// and of arguments are within the limits of those in memory.
pub fn accepted_filters_take_10_000_000_steps_at_most()
    ensures filters { (text : List ℕ) (ds before : List Declaration) (ss : Statements)
        → refusal_of (at_start text) ds ≡ None → IsWritten ds before ss
        → (around : Around) (attrs : Attrs) → AttrsAreWithin attrs
        → filter_steps (context_behind text around before) (counts_behind text around before) ss
        attrs ≤ 10000000 }
    ensures functions { (text : List ℕ) (ds before more : List Declaration) (f : Routine)
        → refusal_of (at_start text) ds ≡ None → ds ≡ before ++ DefineFunction f ∷ more
        → (around : Around) → TakesAtMost 10000000 (function_steps
        (context_behind text around before) (counts_behind text around before) f) }
{
    what_runs_agrees_with_what_is_declared();
    filters_end_within_their_weight();
    functions_end_within_their_weight();
}

/// A condition with a text of its own, of which nothing is refused behind all statements of such a
/// configuration, is never stuck either, and takes 10,000,000 steps at most.
pub fn accepted_conditions_are_never_stuck()
    ensures stuck { (text : List ℕ) (ds : List Declaration)
        → refusal_of (at_start text) ds ≡ None → (own : List ℕ) (at : ℕ) (e : Expression)
        → of_filter (seen_in_text (scene_behind text ds) own) at (filter_where e) ≡ []
        → (around : Around) (attrs after : Attrs)
        → body (of_text (context_behind text around ds) own) [] (filter_where e) [] attrs
        ≡ Stopped Stuck after → ⊥ }
    ensures steps { (text : List ℕ) (ds : List Declaration)
        → refusal_of (at_start text) ds ≡ None → (own : List ℕ) (at : ℕ) (e : Expression)
        → of_filter (seen_in_text (scene_behind text ds) own) at (filter_where e) ≡ []
        → (around : Around) (attrs : Attrs) → AttrsAreWithin attrs
        → filter_steps (of_text (context_behind text around ds) own)
        (counts_behind text around ds) (filter_where e) attrs ≤ 10000000 }
{
    what_runs_agrees_with_what_is_declared();
    what_runs_agrees_with_what_is_seen();
    typed_filters_are_never_stuck();
    filters_end_within_their_weight();
}

/// The code of a filter over what an accepted configuration declares costs 50,000,000 instructions
/// at most, five for each step that a filter may weigh; so does that of each filter by name.
pub fn compiled_filters_end_within_their_weight()
    ensures own { (held : Held) (code : Code) (f : TFilter) (draft : Draft) → HasCode held code
        → CanRunOver held f → CostsItsSteps f.sorts.items f.body.items draft.code.items
        → draft_cost code.functions.items draft ≤ 50000000 }
    ensures named { (held : Held) (code : Code) → HasCode held code
        → All (λ (d : Draft). draft_cost code.functions.items d ≤ 50000000) code.filters.items }
{
    code_costs_no_more_than_its_steps();
}

/// The filters by name, which policies choose among, are all among those that are written.
pub fn filters_by_name_are_written()
    ensures { (ds : List Declaration) (s : Source) → Contains (filter_sources [] ds) s
        → IsWritten ds s.0 s.1 }
{}
