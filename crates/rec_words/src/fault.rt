ghost use Rattle.std.specs.Prelude.{◌≡◌};
ghost use Rattle.rec_words.specs.declared.fault.WordsFault.TheVariants.{Memory};

use bits_ip::OutOfMemory;
use thiserror::Error;

/// Why words gave no entry.
#[derive(Clone, Copy, Debug, PartialEq, Eq, Drop, Error)]
pub enum WordsFault {
    /// They are the words of no entry.
    #[error("the words are no entry's")]
    BadWords,
    /// Memory was wanted and not given.
    #[error("out of memory")]
    Memory,
}

impl From<OutOfMemory> for WordsFault {
    ghost from_gives = { λ _ fault. fault ≡ Memory };

    fn from(_: OutOfMemory) -> Self {
        WordsFault::Memory
    }
}

/// Words aren't what they are read as.
#[derive(Clone, Copy, Debug, Drop)]
pub(crate) struct Misspelt;
