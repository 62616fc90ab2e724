ghost use Rattle.std.specs.Prelude.{◌≡◌};
ghost use Rattle.conf_lex.specs.declared.refusal.Refusal.TheVariants.{Memory};

use crate::word::Word;
use std::alloc::{AllocError, AllocFailed};

/// Why nothing was read: the words from the refused one on.
#[derive(Clone, Copy, Debug)]
pub enum Refusal<'a> {
    Memory,
    /// No sentence has this word here.
    Bad(&'a [Word]),
    /// This word opens more levels than may be open.
    TooDeep(&'a [Word]),
}

impl From<AllocError> for Refusal<'_> {
    ghost from_gives = { λ _ e. e ≡ Memory };

    fn from(_: AllocError) -> Self {
        Refusal::Memory
    }
}

impl<T: Drop> From<AllocFailed<T>> for Refusal<'_> {
    ghost from_gives = { λ _ e. e ≡ Memory };

    fn from(_: AllocFailed<T>) -> Self {
        Refusal::Memory
    }
}
