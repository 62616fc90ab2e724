//! What follows from the definitions alone. The functions are empty: their clauses are the laws.

ghost use Rattle.std.specs.Prelude.{◌≡◌, ℕ, ◌+◌, ◌<◌, ◌≤◌, ◌^◌, true, false, All, Contains, List, [], ◌∷◌, ◌++◌, None, Some, decimal};
ghost use Rattle.conf_names.specs.declared.joints.Joint.{Joint};
ghost use Rattle.conf_names.specs.Joints.{IsBridge, IsForest, joined};
ghost use Rattle.conf_names.specs.Known.{Known, is_declared};
ghost use Rattle.conf_names.specs.Names.{free_number, names};
ghost use Rattle.conf_names.specs.Refusals.{first_in, precedes};
ghost use Rattle.conf_names.specs.declared.refusal.Refusal.{Refusal};

/// The number of a protocol without a name gives a name that isn't declared, and each smaller one
/// from 1 on gives one that is. That a number is free rests on texts of numbers, which are known to
/// differ below 10^64.
pub fn own_names_are_free_and_the_least()
    ensures free { (known : Known) (stem : List ℕ) → names known + 1 < 10 ^ 64
        → is_declared known (stem ++ decimal (free_number known stem)) ≡ false }
    ensures least { (known : Known) (stem : List ℕ) (n : ℕ) → 1 ≤ n → n < free_number known stem
        → is_declared known (stem ++ decimal n) ≡ true }
{}

/// Where there is no first refusal nothing is refused. A first refusal is one of those that there
/// are, and none of them comes before it; there is one such refusal alone.
pub fn first_refusals_are_the_first()
    ensures accepted { (rs : List Refusal) → first_in None rs ≡ None → rs ≡ [] }
    ensures among { (rs : List Refusal) (r : Refusal) → first_in None rs ≡ Some r
        → Contains rs r }
    ensures before { (rs : List Refusal) (r : Refusal) → first_in None rs ≡ Some r
        → All (λ (other : Refusal). precedes other r ≡ false) rs }
    ensures only { (rs : List Refusal) (r : Refusal) → Contains rs r
        → All (λ (other : Refusal). precedes other r ≡ false) rs → first_in None rs ≡ Some r }
{}

/// The order in which refusals are gathered doesn't matter.
pub fn order_does_not_matter()
    ensures { (rs others : List Refusal) → first_in None (rs ++ others)
        ≡ first_in None (others ++ rs) }
{}

/// Being joined by pipes is the least equivalence of tables that has the two tables of each pipe: a
/// table is joined to itself, to whichever is joined to it, and to what these are joined to. Where
/// each pipe's tables have one colour, so have all that are joined.
pub fn joined_tables_are_those_that_pipes_lead_between()
    ensures itself { (pipes : List Joint) (a : ℕ) → joined pipes a a ≡ true }
    ensures back { (pipes : List Joint) (a b : ℕ) → joined pipes a b ≡ joined pipes b a }
    ensures onward { (pipes : List Joint) (a b c : ℕ) → joined pipes a b ≡ true
        → joined pipes b c ≡ true → joined pipes a c ≡ true }
    ensures each { (front back : List Joint) (p : Joint)
        → joined (front ++ p ∷ back) p.table p.peer ≡ true }
    ensures no_more { (pipes : List Joint) (colour : ℕ → ℕ)
        → All (λ (p : Joint). colour p.table ≡ colour p.peer) pipes
        → (a b : ℕ) → joined pipes a b ≡ true → colour a ≡ colour b }
{}

/// Each pipe of those that close no cycle is the only one between two sides of the tables.
pub fn pipes_of_a_forest_are_bridges()
    ensures { (front back : List Joint) (p : Joint) → IsForest (front ++ p ∷ back)
        → IsBridge p (front ++ back) }
{}
