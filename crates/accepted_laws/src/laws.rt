ghost use Rattle.std.specs.Prelude.{◌≡◌, ℕ, All, List};
ghost use Rattle.conf_ast.specs.Configurations.{Declaration};
ghost use Rattle.conf_system.specs.System.{Protocol, System, system_in};
ghost use Rattle.conf_system.specs.Texts.{IsAcceptedText, IsSystem};
ghost use Rattle.accepted_laws.specs.Texts.{BothPolicies, IsSafePolicy};

use conf_system::filter_laws::{
    accepted_filters_are_never_stuck, accepted_filters_take_10_000_000_steps_at_most,
    what_runs_agrees_with_what_is_declared,
};

/// A text that comes to a system is of statements in which nothing is refused. So each policy of a
/// protocol of the system runs no filter, or one that is written there, is never stuck and ends
/// within 10,000,000 steps.
pub fn policies_of_systems_are_safe()
    ensures { (text : List ℕ) (system : System) → IsSystem text system
        → (ds : List Declaration) × IsAcceptedText text ds × (system ≡ system_in text ds)
        × All (λ (p : Protocol). BothPolicies (IsSafePolicy text ds) p.body) system.protocols }
{
    what_runs_agrees_with_what_is_declared();
    accepted_filters_are_never_stuck();
    accepted_filters_take_10_000_000_steps_at_most();
}
