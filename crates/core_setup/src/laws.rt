//! What holds of all that is played.
ghost use Rattle.std.specs.Prelude.{◌≡◌, ◌≢◌, ℕ, true, false, List, [], ◌∷◌, Option, Some, slice_get};
ghost use Rattle.std.specs.List.{AllByRecursion};
ghost use Rattle.attrs.specs.declared.route.Route.{Route};
ghost use Rattle.bits_ip.specs.Address.{family_of};
ghost use Rattle.bits_ip.specs.declared.address.Family.{Family};
ghost use Rattle.export_core.specs.Passing.{value_by};
ghost use Rattle.export_core.specs.declared.log.Key.{Key};
ghost use Rattle.import_core.specs.Changes.{IsDifference};
ghost use Rattle.import_core.specs.Imports.{AreInOrder, Routes};
ghost use Rattle.import_core.specs.declared.operation.Op.{Op};
ghost use Rattle.import_core.specs.declared.operation.Op.TheVariants.{Disable, Enable};
ghost use Rattle.core_machine.specs.Histories.{IsFrom};
ghost use Rattle.core_machine.specs.Lines.{Line};
ghost use Rattle.core_machine.specs.Match.{IsSpecOf};
ghost use Rattle.core_machine.specs.Rules.{IsRules};
ghost use Rattle.report.specs.declared.phase.PhaseReport.{PhaseReport};
ghost use Rattle.core_setup.specs.Announced.{IsOfFamily, fixed_at};
ghost use Rattle.core_setup.specs.Bridges.{IsBridgeOf, KeepsItsOwn, pipe_at};
ghost use Rattle.core_setup.specs.Channels.{Channel, channels};
ghost use Rattle.core_setup.specs.Differences.{differences};
ghost use Rattle.core_setup.specs.Plays.{IsLegalPlay, IsPlay};
ghost use Rattle.core_setup.specs.Protocols.{effect_at, exports_of, pipe_is_up, rules_of};
ghost use Rattle.core_setup.specs.Setup.{IsSetup, Pipe, Protocol, Setup};

use core_machine::laws::{
    bridges_keep_what_comes_by_them, levels_give_ways, phases_are_legal, phases_come_to_one_state,
};
use show_route::laws::a_query_has_one_reply;

/// Tables and protocols say rules of which the machine's laws hold.
pub fn setups_are_as_asked()
    ensures { (setup : Setup) → IsSetup setup → IsRules (rules_of setup) }
{
    levels_give_ways();
}

/// The gate and the filter of a channel's exporter say what the rules say of the channel: whether
/// it is a direction of a pipe, which sources it passes then, and what it sends of a route.
pub fn exporters_go_by_the_rules()
    ensures { (setup : Setup) (c : ℕ) (channel : Channel) → IsSetup setup
        → slice_get (channels setup) c ≡ Some channel
        → let exports = exports_of setup c channel in
        IsSpecOf (rules_of setup) c exports.spec
        × ((key : Key) (route : Route)
        → value_by exports.spec exports.filter key route
        ≡ (rules_of setup).value c key route) }
{
    levels_give_ways();
}

/// Each direction of a pipe that is a bridge, as each pipe of a forest is, keeps the routes that
/// come by the pipe itself to the table that it reads, and passes those of all other sources that
/// come there.
pub fn bridges_keep_their_own()
    ensures { (setup : Setup) (number : ℕ) (p : Pipe) (d e num : ℕ) → IsSetup setup
        → pipe_at setup number ≡ Some p → IsBridgeOf setup number p
        → (rules_of setup).belong number ≡ d ∷ e ∷ []
        → KeepsItsOwn setup d e num × KeepsItsOwn setup e d num }
{
    bridges_keep_what_comes_by_them();
}

/// A pipe is up or down by the last `enable` or `disable` that it was told, and up where it was
/// told neither.
pub fn pipes_obey_the_last_word()
    ensures first { pipe_is_up [] ≡ true }
    ensures enabled { (earlier : List Op) → pipe_is_up (Enable ∷ earlier) ≡ true }
    ensures disabled { (earlier : List Op) → pipe_is_up (Disable ∷ earlier) ≡ false }
    ensures others { (op : Op) (earlier : List Op) → op ≢ Enable → op ≢ Disable
        → pipe_is_up (op ∷ earlier) ≡ pipe_is_up earlier }
{}

/// The differences are the changes that the definition of imports asks for.
pub fn differences_are_the_changes()
    ensures { (num : ℕ) (before later : Routes) → AreInOrder before → AreInOrder later
        → IsDifference num before later (differences num before later) }
{}

/// The reports of a play are legal.
pub fn plays_are_legal()
    ensures { (setup : Setup) (actors : List (List ℕ)) (scripts : List (List Line))
        (reports : List PhaseReport) → IsSetup setup → IsPlay setup actors scripts reports
        → IsLegalPlay setup actors scripts reports }
{
    levels_give_ways();
    phases_are_legal();
}

/// Scripts come to one list of reports.
pub fn reports_are_determined()
    ensures { (setup : Setup) (actors : List (List ℕ)) (scripts : List (List Line))
        (reports others : List PhaseReport) → IsSetup setup → IsPlay setup actors scripts reports
        → IsPlay setup actors scripts others → reports ≡ others }
{
    levels_give_ways();
    phases_come_to_one_state();
    a_query_has_one_reply();
}

/// A protocol changes its own routes alone, and each new route of its changes has its number.
pub fn changes_tell_their_protocol()
    ensures { (setup : Setup) (i : ℕ) (earlier : List Op) (op : Op) → IsSetup setup
        → AllByRecursion (IsFrom i) ((rules_of setup).gives i earlier op).changes }
{}

/// Where the configured routes of a protocol and what its operations announce are of one family,
/// so are the nets of its changes.
pub fn changes_are_of_the_family()
    ensures { (p : Option Protocol) (family : Family) (earlier : List Op) (op : Op)
        → AllByRecursion (λ f. family_of f.net.addr ≡ family) (fixed_at p)
        → AllByRecursion (IsOfFamily family) (op ∷ earlier)
        → AllByRecursion (λ c. family_of c.net.addr ≡ family) (effect_at p earlier op).changes }
{}
