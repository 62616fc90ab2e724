//! An entry's words on a thread's own side.
ghost use Rattle.std.specs.Prelude.{◌≡◌, ◌==◌, ◌<◌, ◌≤◌, [], ◌∷◌, ◌++◌, length, slice_set};

use std::marker::Model;

/// 256 words with a length. Contracts see the list of the words that it has.
#[derive(Drop)]
pub struct Buf {
    words: [u64; 256],
    len: usize,
}

impl Model for Buf {
    ghost use Rattle.std.specs.Prelude.{List, ℕ, take, ◌≤◌};

    ghost Value = { List ℕ };

    ghost view = { λ b. take b.len b.words };

    ghost invariant = { λ b. b.len ≤ 256 };
}

impl Buf {
    /// One with no words.
    pub fn new() -> Buf
        ensures { result ≡ [] }
    {
        Buf {
            words: [0; 256],
            len: 0,
        }
    }

    /// How many words it has.
    pub fn len(&self) -> usize
        ensures length { result ≡ length self.now }
        ensures few { result ≤ 256 }
    {
        self.len
    }

    /// Whether it has no word.
    pub fn is_empty(&self) -> bool
        ensures { result ≡ (length self.now == 0) }
    {
        self.len == 0
    }

    /// Drops all words.
    pub fn clear(&mut self)
        ensures { self.new ≡ [] }
    {
        self.len = 0;
    }

    /// Puts a word behind the others.
    pub fn push(&mut self, word: u64)
        requires { length self.old < 256 }
        ensures { self.new ≡ self.old ++ word ∷ [] }
    {
        self.words[self.len] = word;
        self.len += 1;
    }

    /// Gives it so many words. Those that it hadn't are left as they come.
    pub fn resize(&mut self, count: usize)
        requires { count ≤ 256 }
        ensures { length self.new ≡ count }
    {
        self.len = count;
    }

    /// Puts a word in the place of another.
    pub fn set(&mut self, index: usize, word: u64)
        requires { (index < length self.old) × (index < 256) }
        ensures { self.new ≡ slice_set self.old index word }
    {
        self.words[index] = word;
    }

    /// The words.
    pub fn words(&self) -> &[u64]
        ensures { result.now ≡ self.now }
    {
        &self.words[..self.len]
    }
}
