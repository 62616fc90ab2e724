ghost use Rattle.std.specs.Prelude.{◌≡◌, ◌≢◌, ◌↔◌, ℕ, false, not, List, [], ◌∷◌, ◌++◌, Option, Some, None, IsTrue};
ghost use Rattle.bits_ip.specs.Prefix.{Net, Covers};
ghost use Rattle.attrs.specs.declared.route.Change.{Change};
ghost use Rattle.attrs.specs.History.{Content, after, IsReal};
ghost use Rattle.attrs.specs.Selection.{IsBest, before};
ghost use Rattle.attrs.specs.Select.{covers};
ghost use Rattle.attrs.specs.Table.{AreRoutesOf, IsBestOf, IsInOrder, IsOfSources, IsSorted, Shows};
ghost use Rattle.attrs.specs.declared.route.Route.{Route};
ghost use Rattle.attrs.specs.declared.route.Row.{Row};

/// Two lists of changes, one after the other, leave what the second leaves of the first's content.
pub fn changes_add_up()
    ensures { (start : Content) (first later : List Change) (net : Net) (num : ℕ)
        → after start (first ++ later) net num ≡ after (after start first) later net num }
{}

/// A history of real changes stays one with a change that differs from what stands for its key.
pub fn real_changes_add_up()
    ensures { (start : Content) (changes : List Change) (c : Change) → IsReal start changes
        → (after start changes c.net c.num ≢ c.new) → IsReal start (changes ++ c ∷ []) }
{}

/// No route is before itself, a route is before all that one behind it is before, and of two routes
/// of different sources exactly one is before the other.
pub fn selection_is_an_order()
    ensures itself { (r : Route) → before r r ≡ false }
    ensures onward { (a b c : Route) → IsTrue (before a b) → IsTrue (before b c)
        → IsTrue (before a c) }
    ensures either { (a b : Route) → (a.src.num ≢ b.src.num) → before a b ≡ not (before b a) }
{}

/// Routes of different sources are in selection order exactly where each is before all that follow
/// it.
pub fn order_is_sorted()
    ensures { (routes : List Route) → IsOfSources routes → IsInOrder routes ↔ IsSorted routes }
{}

/// The first of a net's routes in selection order is the best.
pub fn best_is_first()
    ensures { (r : Route) (rest : List Route) → IsInOrder (r ∷ rest) → IsBest (r ∷ rest) (Some r) }
{}

/// A net has one best route, or none.
pub fn best_is_one()
    ensures { (routes : List Route) (a b : Option Route) → IsBest routes a → IsBest routes b
        → a ≡ b }
{}

/// A content is shown by one list of rows.
pub fn shown_by_one()
    ensures { (rows others : List Row) (content : Content) → Shows rows content
        → Shows others content → rows ≡ others }
{}

/// Of the routes of a net in a content the best is none where there are none, and the first where
/// they are in selection order.
pub fn best_of_a_content()
    ensures none { (content : Content) (net : Net) → AreRoutesOf content net []
        → IsBestOf content net None }
    ensures first { (content : Content) (net : Net) (r : Route) (rest : List Route)
        → AreRoutesOf content net (r ∷ rest) → IsInOrder (r ∷ rest)
        → IsBestOf content net (Some r) }
{}

/// The test of covering by which rows are selected answers what the relation of prefixes says.
pub fn covering_is_tested()
    ensures { (a b : Net) → IsTrue (covers a b) ↔ Covers a b }
{}
