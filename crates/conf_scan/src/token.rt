ghost use Rattle.std.specs.Prelude.{◌≡◌, ◌≤◌, ◌+◌, length};
ghost use Rattle.conf_scan.specs.Spans.{slice_of};

use bits_ip::Addr;
use std::alloc::AllocFailed;
use thiserror::Error;

/// What a token is.
#[derive(Clone, Copy, Debug, PartialEq, Eq)]
pub enum TokenKind {
    /// A name or a word: a letter or `_`, then letters, digits and `_`.
    Name,
    /// A name between single quotes, which belong to the token.
    QuotedName,
    /// Decimal digits, or `0x` and hexadecimal digits.
    Number(u32),
    Ip(Addr),
    /// A text between double quotes, which belong to the token.
    Text,
    Punctuation,
}

/// A token, which is a slice of its source.
#[derive(Clone, Copy, Debug, PartialEq, Eq)]
pub struct Token {
    pub kind: TokenKind,
    /// Where its first byte stands in the source.
    pub at: usize,
    /// How many bytes it has.
    pub len: usize,
}

impl Token {
    /// Its bytes in the source, with the quotes.
    pub fn bytes(self, source: &[u8]) -> &[u8]
        requires { self.at + self.len ≤ length source.now }
        ensures { result.now ≡ slice_of source.now self }
    {
        &source[self.at..self.at + self.len]
    }
}

/// Why a text has no tokens.
#[derive(Clone, Copy, Debug, PartialEq, Eq, Drop, Error)]
pub enum LexFault {
    /// At this byte no token begins, or one that isn't complete or is too large, or a comment
    /// without an end.
    #[error("no token at byte {at}")]
    Bad { at: usize },
    #[error("out of memory")]
    Memory,
}

impl<T: Drop> From<AllocFailed<T>> for LexFault {
    ghost use Rattle.std.specs.Prelude.{◌≡◌};
    ghost use Rattle.conf_scan.specs.declared.token.LexFault.TheVariants.{Memory};

    ghost from_gives = { λ _ e. e ≡ Memory };

    fn from(_: AllocFailed<T>) -> Self {
        LexFault::Memory
    }
}
