//! What holds of a protocol's imports, whatever the operations and the filter.
ghost use Rattle.std.specs.Prelude.{◌≡◌, ◌≢◌, ◌≤◌, ℕ, [], ◌∷◌, false, true, length, List, Some, None};
ghost use Rattle.bits_ip.specs.Prefix.{Net};
ghost use Rattle.attrs.specs.declared.route.Change.{Change};
ghost use Rattle.attrs.specs.declared.route.Route.{Route};
ghost use Rattle.attrs.specs.History.{after, empty, IsReal};
ghost use Rattle.import_core.specs.declared.import_spec.Action.TheVariants.{Warn};
ghost use Rattle.import_core.specs.declared.import_spec.ImportSpec.{ImportSpec};
ghost use Rattle.import_core.specs.declared.import_spec.Limit.{Limit};
ghost use Rattle.import_core.specs.declared.operation.Given.{Given};
ghost use Rattle.import_core.specs.declared.operation.Op.{Op};
ghost use Rattle.import_core.specs.declared.operation.Op.TheVariants.{Add};
ghost use Rattle.import_core.specs.Changes.{AreChanges, IsDifference, routes_from};
ghost use Rattle.import_core.specs.Decisions.{Filter, left_at};
ghost use Rattle.import_core.specs.Imports.{AreInOrder, Imports, Routes, is_up, nothing_yet, route_at};
ghost use Rattle.import_core.specs.Operations.{after_from, after_operations, done};

/// Received and accepted routes stand in the order of nets, each net once.
pub fn routes_are_in_order()
    ensures { (spec : ImportSpec) (verdict : Filter) (ops : List Op)
        → let i = after_operations spec verdict ops in
        AreInOrder i.received × AreInOrder i.accepted }
{}

/// Each accepted route is what the filter leaves of the received route of its net.
pub fn accepted_is_filtered()
    ensures { (spec : ImportSpec) (verdict : Filter) (ops : List Op) (net : Net) (route : Route)
        → let i = after_operations spec verdict ops in
        route_at net i.accepted ≡ Some route → left_at verdict net i.received ≡ Some route }
{}

/// Without a limit the accepted routes of a protocol that is up are what the filter leaves of the
/// received ones.
pub fn accepted_is_what_the_filter_leaves()
    ensures { (spec : ImportSpec) (verdict : Filter) (ops : List Op) (net : Net)
        → spec.limit ≡ None
        → let i = after_operations spec verdict ops in
        is_up i.mode ≡ true → route_at net i.accepted ≡ left_at verdict net i.received }
{}

/// A protocol that is not up has accepted nothing.
pub fn nothing_is_accepted_but_up()
    ensures { (spec : ImportSpec) (verdict : Filter) (ops : List Op)
        → let i = after_operations spec verdict ops in is_up i.mode ≡ false → i.accepted ≡ [] }
{}

/// But for a mere warning, no more nets are accepted than the limit says.
pub fn limit_is_kept()
    ensures { (spec : ImportSpec) (verdict : Filter) (ops : List Op) (limit : Limit)
        → spec.limit ≡ Some limit → (limit.action ≢ Warn)
        → length (after_operations spec verdict ops).accepted ≤ limit.count }
{}

/// Two states have one list of changes between them.
pub fn difference_is_one()
    ensures { (num : ℕ) (before later : Routes) (changes others : List Change)
        → IsDifference num before later changes → IsDifference num before later others
        → changes ≡ others }
{}

/// The changes of all operations, one after another, leave of an empty table what is accepted.
pub fn changes_leave_what_is_accepted()
    ensures { (spec : ImportSpec) (verdict : Filter) (ops : List Op) (changes : List Change)
        → AreChanges spec verdict nothing_yet ops changes → (net : Net) (num : ℕ)
        → after empty changes net num
        ≡ routes_from spec.src.num (after_from spec verdict nothing_yet ops).accepted net num }
{}

/// Each of these changes differs from what stood before it.
pub fn changes_are_real()
    ensures { (spec : ImportSpec) (verdict : Filter) (ops : List Op) (changes : List Change)
        → AreChanges spec verdict nothing_yet ops changes → IsReal empty changes }
{}

/// An announcement that is repeated gives no change.
pub fn repeated_announcement_changes_nothing()
    ensures { (spec : ImportSpec) (verdict : Filter) (net : Net) (given : Given) (i : Imports)
        (changes : List Change)
        → let told = (done spec verdict (Add net given) i).imports in
        IsDifference spec.src.num told.accepted
        (done spec verdict (Add net given) told).imports.accepted changes
        → changes ≡ [] }
{}
