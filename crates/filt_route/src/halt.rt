//! Why the run of a filter stops.

ghost use Rattle.std.specs.Prelude.{◌≡◌};
ghost use Rattle.filt_route.specs.declared.halt.Halt.TheVariants.{Memory};
ghost use Rattle.filt_route.specs.Seen.{IsHalt};
ghost use Rattle.filt_meaning.specs.declared.value.Failure.TheVariants as failures;
ghost use Rattle.filt_meaning.specs.declared.value.ListFailure.TheVariants.{Failed};

use attrs::FilterFault;
use bits_ip::OutOfMemory;
use filt_meaning::{Failure, ListFailure};

/// Why the run of a filter stops where it is.
#[derive(Clone, Copy, Debug, PartialEq, Eq)]
pub enum Halt {
    Fault(FilterFault),
    /// Memory was wanted and not given.
    Memory,
}

impl From<OutOfMemory> for Halt {
    ghost from_gives = { λ _ made. made ≡ Memory };

    fn from(_: OutOfMemory) -> Self {
        Halt::Memory
    }
}

/// Why the run stops at an operator that takes its values.
pub(crate) fn halted(failure: Failure) -> Halt
    requires { failure ≡ failures.Stuck → ⊥ }
    ensures { IsHalt result (Failed failure) }
{
    match failure {
        Failure::Fault(fault) => Halt::Fault(fault),
        Failure::Stuck => unreachable!(),
    }
}

/// The same of one that may want memory.
pub(crate) fn list_halted(failure: ListFailure) -> Halt
    requires { failure ≡ Failed failures.Stuck → ⊥ }
    ensures { IsHalt result failure }
{
    match failure {
        ListFailure::Failed(failure) => halted(failure),
        ListFailure::Memory => Halt::Memory,
    }
}
