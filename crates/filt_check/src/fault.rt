ghost use Rattle.std.specs.Prelude.{◌≡◌, ℕ, Some};
ghost use Rattle.filt_types.specs.Weight.{capped};
ghost use Rattle.filt_check.specs.Answers.{IsFault};
ghost use Rattle.filt_check.specs.declared.fault.TypeFault.TheVariants.{Memory};

use bits_ip::OutOfMemory;
use filt_types::{Cause, Refusal};
use thiserror::Error;

/// Why a filter, a condition or a function is refused: the first of all that is refused in it, by
/// place. `at` is the byte of the source.
#[derive(Clone, Copy, Debug, PartialEq, Eq, Drop, Error)]
pub enum TypeFault {
    /// The name has no declaration of the wanted sort before it.
    #[error("refused at byte {at}: C4 UnknownName")]
    UnknownName { at: usize },
    /// The name is declared already.
    #[error("refused at byte {at}: C5 DuplicateName")]
    DuplicateName { at: usize },
    /// What stands here is of a sort that its place doesn't take.
    #[error("refused at byte {at}: C6 TypeMismatch")]
    Mismatch { at: usize },
    /// What stands here can't be assigned to, changed or unset.
    #[error("refused at byte {at}: C7 NotAssignable")]
    NotAssignable { at: usize },
    /// The filter or function weighs over 10,000,000. The weight is told up to 2^127.
    #[error("refused at byte {at}: C8 TooHeavy ({weight})")]
    TooHeavy { at: usize, weight: u128 },
    /// A number, a range or a name is over its limit.
    #[error("refused at byte {at}: C14 Limit")]
    Limit { at: usize },
    /// Memory was wanted and not given.
    #[error("out of memory")]
    Memory,
}

impl From<OutOfMemory> for TypeFault {
    ghost from_gives = { λ _ fault. fault ≡ Memory };

    fn from(_: OutOfMemory) -> Self {
        TypeFault::Memory
    }
}

/// The fault that tells a refusal.
pub(crate) fn fault(refusal: Refusal, weight: u128) -> TypeFault
    ensures { (w : ℕ) → weight ≡ capped w → IsFault w result (Some refusal) }
{
    let at = refusal.at;
    match refusal.cause {
        Cause::UnknownName => TypeFault::UnknownName { at },
        Cause::DuplicateName => TypeFault::DuplicateName { at },
        Cause::Mismatch => TypeFault::Mismatch { at },
        Cause::NotAssignable => TypeFault::NotAssignable { at },
        Cause::TooHeavy => TypeFault::TooHeavy { at, weight },
        Cause::Limit => TypeFault::Limit { at },
    }
}
