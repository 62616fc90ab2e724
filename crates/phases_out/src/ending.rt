//! How it ends.
ghost use Rattle.std.specs.Prelude.{◌≡◌};
ghost use Rattle.phases_out.specs.declared.ending.Ending.TheVariants as endings;

use bits_ip::OutOfMemory;

/// How it ended to play or to run a script.
#[derive(Clone, Copy, Debug, PartialEq, Eq, Drop)]
pub enum Ending {
    /// All phases were played or run, and their whole report was written.
    Written,
    /// The output failed. A front of the report was written.
    SinkFailed,
    /// Memory was refused. The reports of the first phases may have been written, each whole.
    OutOfMemory,
}

impl From<OutOfMemory> for Ending {
    ghost from_gives = { λ _ ending. ending ≡ endings.OutOfMemory };

    fn from(_: OutOfMemory) -> Self {
        Ending::OutOfMemory
    }
}
