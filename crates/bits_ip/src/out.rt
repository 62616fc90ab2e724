//! What text is appended to.
ghost use Rattle.std.specs.Prelude.{◌≡◌, ◌++◌, List, ℕ, OnOk, ⊤};
ghost use Rattle.bits_ip.specs.Out.{Kept};

use crate::OutOfMemory;

/// A place that text is appended to: a `Vec<u8>`, which may want memory, or a stream to a sink.
pub trait TextOut {
    /// Why a piece isn't taken.
    type Fault: Drop;

    /// All that was appended so far.
    ghost written: { Self → List ℕ };

    /// What is kept from the first state to the second, besides the text. The default says nothing.
    ghost follows: { Self → Self → Type 0 } = { λ _ _. ⊤ };

    /// Appends a piece of text. Where it isn't taken, a part of it may stand.
    fn put(&mut self, piece: &[u8]) -> Result<(), Self::Fault>
        ensures written { OnOk result (written self.new ≡ written self.old ++ piece.now) }
        ensures kept { Kept follows self.old self.new };
}

impl TextOut for Vec<u8> {
    type Fault = OutOfMemory;

    ghost written = { λ text. text.items };

    fn put(&mut self, piece: &[u8]) -> Result<(), OutOfMemory> {
        self.extend_from_slice(piece)?;
        Ok(())
    }
}
