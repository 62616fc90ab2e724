ghost use Rattle.std.specs.Prelude.{◌≡◌, ◌++◌, ◌↔◌, ℕ, IsTrue, MatchOption, OnOk, slice_index};
ghost use Rattle.bits_ip.specs.Numbers.{IsNumber};
ghost use Rattle.bits_ip.specs.Out.{Kept};

use crate::TextOut;
use itoa::{Buffer, Integer};

/// Reads the number that the whole text spells: one or more decimal digits and nothing else, so no
/// sign; zeros in front change nothing. A number of more than 32 bits gives nothing, nor does any
/// other text.
pub fn parse_decimal(text: &[u8]) -> Option<u32>
    ensures { MatchOption result ((n : ℕ) → IsNumber text.now n → ⊥) (λ n. IsNumber text.now n) }
{
    if begins_with_plus(text) {
        return None;
    }
    let digits = str::from_utf8(text).ok()?;
    digits.parse().ok()
}

/// With a plus sign, which std's readers of numbers take.
pub(crate) fn begins_with_plus(text: &[u8]) -> bool
    ensures { IsTrue result ↔ (slice_index text.now 0 ≡ 43) }
{
    match text.first() {
        Some(b'+') => true,
        _ => false,
    }
}

/// Appends an integer in decimal, as `{}` writes it: without leading zeros.
pub fn write_number<N: Integer, W: TextOut>(number: N, out: &mut W) -> Result<(), W::Fault>
    ensures written { OnOk result (W.written out.new ≡ W.written out.old ++ N.text number) }
    ensures kept { Kept W.follows out.old out.new }
{
    let mut buffer = Buffer::new();
    out.put(buffer.format(number).as_bytes())
}
