ghost use Rattle.std.specs.Prelude.{◌≡◌, take, drop};
ghost use Rattle.conf_ast.specs.Names.{name_bytes};

/// A name: `at` is the byte of the source at which it begins, `start` and `len` tell its bytes,
/// which are those between the quotes where it has some.
#[derive(Clone, Copy, Debug)]
pub struct Name {
    pub at: usize,
    pub start: usize,
    pub len: usize,
}

impl Name {
    /// The bytes of the name in the source, which is the text that the name was read from.
    pub fn bytes(self, text: &[u8]) -> &[u8]
        ensures { result.now ≡ name_bytes text.now self }
    {
        bytes_at(text, self.start, self.len)
    }
}

/// The `len` bytes of a text from `start` on, or as many of them as there are.
pub fn bytes_at(text: &[u8], start: usize, len: usize) -> &[u8]
    ensures { result.now ≡ take len (drop start text.now) }
{
    let tail = &text[start.min(text.len())..];
    &tail[..len.min(tail.len())]
}
