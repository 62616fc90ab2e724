//! What follows from the definitions alone. The functions are empty: their clauses are the laws.

ghost use Rattle.std.specs.Prelude.{◌≡◌, ℕ, ◌≤◌, ◌⊎◌, All, List, [], ◌∷◌, ◌++◌, length, None, Some};
ghost use Rattle.std.specs.Prelude.{Ok, slice_get, Vec};
ghost use Rattle.std.specs.Global.{Global};
ghost use Rattle.attrs.specs.declared.attributes.Attrs.{Attrs};
ghost use Rattle.filt_meaning.specs.declared.fixed.Fixed.{Fixed};
ghost use Rattle.filt_meaning.specs.Seen.{val_of_fixed};
ghost use Rattle.filt_meaning.specs.Configuration.{at_start, of_text, with_constant};
ghost use Rattle.filt_meaning.specs.Configuration as meaning;
ghost use Rattle.filt_meaning.specs.Names.{Around};
ghost use Rattle.filt_meaning.specs.declared.scope.Scope.{Scope};
ghost use Rattle.filt_meaning.specs.declared.scope.TFunction.{TFunction};
ghost use Rattle.filt_meaning.specs.declared.tree.TFilter.{TFilter};
ghost use Rattle.filt_meaning.specs.Scopes.{constant_values, context_of, function_trees, tables_of};
ghost use Rattle.filt_meaning.specs.Trees.{function, tables, tree_flow, with_function};
ghost use Rattle.filt_types.specs.declared.refusal.Refusal.{Refusal};
ghost use Rattle.filt_check.specs.Answers.{IsFault};
ghost use Rattle.filt_check.specs.declared.fault.TypeFault.{TypeFault};
ghost use Rattle.filt_check.specs.declared.fault.TypeFault.TheVariants.{Memory};

/// A filter does the same where the scope declares more behind what it sees.
pub fn filters_mean_the_same_behind_more()
    ensures { (around : Around) (cs more : List Fixed) (fs others : List TFunction) (f : TFilter)
        (attrs : Attrs) → f.constants ≤ length cs → f.functions ≤ length fs
        → tree_flow around (cs ++ more) (fs ++ others) f attrs
        ≡ tree_flow around cs fs f attrs }
{}

/// A function does the same where the scope declares more behind it, and keeps its number.
pub fn functions_do_the_same_behind_more()
    ensures constants { (around : Around) (cs more : List Fixed) (fs : List TFunction)
        (f : TFunction) → All (λ (g : TFunction). g.constants ≤ length cs) fs
        → f.constants ≤ length cs
        → function (tables around (cs ++ more) fs) f ≡ function (tables around cs fs) f }
    ensures number { (around : Around) (cs more : List Fixed) (fs others : List TFunction)
        (f : TFunction) → All (λ (g : TFunction). g.constants ≤ length cs) fs
        → f.constants ≤ length cs
        → slice_get (tables around (cs ++ more) (fs ++ f ∷ others)).functions (length fs)
        ≡ Some (function (tables around cs fs) f) }
{}

/// An empty scope is seen as the meaning of filters sees the first statement of a configuration, a
/// scope that declares one thing more as it sees what is behind that declaration, and over another
/// text as it sees a condition of its own text.
pub fn scopes_grow_as_configurations_do()
    ensures start { (text : List ℕ) (around : Around) (scope : Scope)
        → scope.constants.entries ≡ [] → scope.functions.entries ≡ []
        → context_of text around scope [] ≡ at_start text around }
    ensures text { (text other : List ℕ) (around : Around) (scope : Scope)
        (variables : List (List ℕ)) → of_text (context_of text around scope variables) other
        ≡ context_of other around scope variables }
    ensures tables { (around : Around) (scope after : Scope) (f : TFunction)
        → constant_values after ≡ constant_values scope
        → function_trees after ≡ function_trees scope ++ f ∷ []
        → tables_of around after
        ≡ with_function (tables_of around scope) (function (tables_of around scope) f) }
    ensures function { (text : List ℕ) (around : Around) (scope after : Scope)
        (key : Vec ℕ Global) (f : TFunction) (variables : List (List ℕ))
        → after.constants.entries ≡ scope.constants.entries
        → after.functions.entries ≡ scope.functions.entries ++ (key, f) ∷ []
        → context_of text around after variables
        ≡ meaning.with_function (context_of text around scope variables) key.items
        (function (tables_of around scope) f) }
    ensures constant { (text : List ℕ) (around : Around) (scope after : Scope)
        (key : Vec ℕ Global) (v : Fixed) (variables : List (List ℕ))
        → after.constants.entries ≡ scope.constants.entries ++ (key, v) ∷ []
        → after.functions.entries ≡ scope.functions.entries
        → All (λ (g : TFunction). g.constants ≤ length (constant_values scope))
        (function_trees scope)
        → context_of text around after variables
        ≡ with_constant (context_of text around scope variables) key.items
        (Ok (val_of_fixed v)) }
{}

/// What is checked is accepted or refused, and not both: where nothing is refused no fault but want
/// of memory is told, of a first refusal one fault alone, and for each refusal there is one.
pub fn filters_are_accepted_or_refused()
    ensures accepted { (weight : ℕ) (fault : TypeFault) → IsFault weight fault None
        → fault ≡ Memory }
    ensures one { (weight : ℕ) (a b : TypeFault) (r : Refusal) → IsFault weight a (Some r)
        → IsFault weight b (Some r) → (a ≡ Memory) ⊎ ((b ≡ Memory) ⊎ (a ≡ b)) }
    ensures refused { (weight : ℕ) (r : Refusal) → (fault : TypeFault)
        × (IsFault weight fault (Some r)) }
{}
