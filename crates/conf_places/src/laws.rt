ghost use Rattle.std.specs.Prelude.{◌≡◌, ◌<◌, ℕ, List, ◌∷◌, ◌++◌, length, None, Some, All};
ghost use Rattle.std.specs.Prelude.{Contains};
ghost use Rattle.conf_lex.specs.Grammar.{DerivesLongest, yield};
ghost use Rattle.expr_syntax.specs.Syntax.{rule};
ghost use Rattle.conf_ast.specs.declared.configurations.Statement.{Statement};
ghost use Rattle.conf_tree.specs.Read.{IsConfigText};
ghost use Rattle.conf_syntax.specs.Syntax.{statement};
ghost use Rattle.conf_tree.specs.View.{statement_tree, statements_tree};
ghost use Rattle.conf_ast.specs.Configurations.{Declaration, configuration_of, declaration_of};
ghost use Rattle.conf_names.specs.Known.{Known};
ghost use Rattle.conf_names.specs.Refusals.{first_in};
ghost use Rattle.conf_rules.specs.Statements.{refusals};
ghost use Rattle.conf_names.specs.declared.refusal.Refusal.{Refusal};
ghost use Rattle.conf_check.specs.Refused.{refusal_of};
ghost use Rattle.conf_places.specs.Configurations.{IsBefore, IsPlaceIn, places};
ghost use Rattle.conf_places.specs.Refused.{gathered};
ghost use Rattle.conf_places.specs.Words.{IsTokenPlace, of_words};

use conf_names::laws::first_refusals_are_the_first;
use conf_scan::laws::{tokens_are_slices, tokens_rise};

/// Whatever is declared before a statement, what is refused of it stands at a place that is written
/// in it: where one of its words begins.
pub fn refusals_stand_in_their_statement()
    ensures gathered { (known : Known) (d : Declaration)
        → All (λ (r : Refusal). Contains (places d) r.at) (refusals known d) }
    ensures counted { (known : Known) (d : Declaration) (r : Refusal)
        → first_in None (refusals known d) ≡ Some r → Contains (places d) r.at }
    ensures words { (known : Known) (s : Statement) → DerivesLongest rule (statement_tree s) statement
        → All (λ (r : Refusal). Contains (of_words (yield (statement_tree s))) r.at)
        (refusals known (declaration_of s)) }
{
    first_refusals_are_the_first();
}

/// The places of a statement are those of its words, and where a text is a configuration a token of
/// it begins at each of them, so each is a byte of it.
pub fn places_are_of_words()
    ensures words { (s : Statement) → DerivesLongest rule (statement_tree s) statement
        → All (Contains (of_words (yield (statement_tree s)))) (places (declaration_of s)) }
    ensures tokens { (text : List ℕ) (ss : List Statement)
        → IsConfigText text (statements_tree ss)
        → All (λ (d : Declaration). All (IsTokenPlace text) (places d)) (configuration_of ss) }
    ensures bytes { (text : List ℕ) (ss : List Statement)
        → IsConfigText text (statements_tree ss)
        → All (λ (d : Declaration). All (λ (at : ℕ). at < length text) (places d))
        (configuration_of ss) }
{
    tokens_are_slices();
}

/// The places of a statement of a text are before those of each statement behind it.
pub fn statements_follow_each_other()
    ensures { (text : List ℕ) (ss : List Statement) → IsConfigText text (statements_tree ss)
        → (front back : List Declaration) (d : Declaration)
        → configuration_of ss ≡ front ++ d ∷ back → All (IsBefore d) back }
{
    tokens_are_slices();
    tokens_rise();
}

/// The refusal that counts in a configuration stands in one of its statements. In a text a token
/// begins there, so it is a byte of the text; and it is the first by place, at one place by kind,
/// of all that is refused.
pub fn refusals_of_configurations_are_the_first()
    ensures statement { (known : Known) (ds : List Declaration) (r : Refusal)
        → refusal_of known ds ≡ Some r → IsPlaceIn ds r.at }
    ensures token { (text : List ℕ) (ss : List Statement) (known : Known) (r : Refusal)
        → IsConfigText text (statements_tree ss)
        → refusal_of known (configuration_of ss) ≡ Some r → IsTokenPlace text r.at }
    ensures byte { (text : List ℕ) (ss : List Statement) (known : Known) (r : Refusal)
        → IsConfigText text (statements_tree ss)
        → refusal_of known (configuration_of ss) ≡ Some r → r.at < length text }
    ensures first { (text : List ℕ) (ss : List Statement) (known : Known)
        → IsConfigText text (statements_tree ss)
        → refusal_of known (configuration_of ss)
        ≡ first_in None (gathered known (configuration_of ss)) }
{
    first_refusals_are_the_first();
    tokens_are_slices();
    tokens_rise();
}
