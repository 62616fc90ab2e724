//! What an update answers.
use thiserror::Error;

/// What became of a change.
#[derive(Clone, Copy, Debug, PartialEq, Eq, Drop)]
pub enum Done {
    /// The key's route was the given one already, at this head.
    Same { at: u64 },
    /// The change is the entry at this position.
    At(u64),
}

/// Why a change wasn't made. The table is then as before.
#[derive(Clone, Copy, Debug, PartialEq, Eq, Drop, Error)]
pub enum UpdateFault {
    /// The cursor stood at `at`, the whole journal behind the head.
    #[error("cursor {cursor} is the whole journal behind, at {at} of {head}")]
    Full { cursor: u32, at: u64, head: u64 },
    /// The head is the last position that there is.
    #[error("no position is left behind {head}")]
    Ended { head: u64 },
    /// Memory was wanted and not given.
    #[error("out of memory")]
    Memory,
}
