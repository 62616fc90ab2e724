ghost use Rattle.std.specs.Prelude.{◌≡◌, slice_index_or};

use crate::symbol::Symbol;
use bits_ip::Prefix;
use conf_ast::{Attribute, Constant, PackedAddr};

/// What the grammars read: a token, or several that are one word to them. `at` is the byte of the
/// source at which the word begins. Places have 32 bits, since all words of a text are kept at
/// once: only a text of less than 2 ^ 32 bytes has words.
#[derive(Clone, Copy, Debug)]
pub enum Word {
    /// A name that is no word of the grammars, or any name that is quoted. `start` and `len` tell
    /// its bytes in the source, which are those between the quotes.
    Name { at: u32, start: u32, len: u32 },
    Number { at: u32, value: u32 },
    /// A text: `start` and `len` tell the bytes between its quotes.
    Text { at: u32, start: u32, len: u32 },
    /// An address with no slash and number behind it.
    Ip { at: u32, addr: PackedAddr },
    /// An address, a slash and a number that make a prefix.
    Prefix { at: u32, net: Prefix },
    /// An address, a slash and a number that make none: a host bit is set, or the length is too
    /// large.
    BadPrefix { at: u32 },
    Attribute { at: u32, attribute: Attribute },
    Constant { at: u32, constant: Constant },
    Symbol(Symbol),
    /// A symbol that can be a whole expression, begins one or a statement, or at which a later
    /// check may refuse.
    Placed { at: u32, symbol: Symbol },
}

const _: () = prove!(size_of::<Word>() == 28);

/// The words of a text, and in the same place of `starts` the number of each word's first token.
#[derive(Debug, Drop)]
pub struct Words {
    pub words: Vec<Word>,
    pub starts: Vec<usize>,
}

impl Words {
    /// The token with which the word in this place begins; behind the last word `end`, which is the
    /// number of the tokens.
    pub fn token_at(&self, place: usize, end: usize) -> usize
        ensures { result ≡ slice_index_or self.now.starts.items place end }
    {
        match self.starts.get(place) {
            Some(start) => *start,
            None => end,
        }
    }
}
