//! Lines and words: what every reader of texts uses.
//!
//! A text is a slice of bytes, in no encoding; all marks are of ASCII. A reader takes the first
//! piece off the front of a slice and gives the piece and the rest, both parts of that slice, so
//! nothing is copied: `cut_line` a line, `next_word` a word.
//!
//! Contracts see the pieces of a whole text: `lines_of` (specs/Lines) is its list of lines,
//! `words_of` that of a line's words. Each reader's clause is one equation: the pieces of the text
//! are the first one and the pieces of the rest. So a loop over a reader goes through the list, and
//! ends, since the rest is shorter.
//!
//! All rests on one fact, proofs/Runs: a text is the longest front that passes a test of bytes, and
//! what stands behind it, and no other cut of it is that.
#![tactic(auto)]

mod lines;
mod words;

pub use lines::cut_line;
pub use words::{expect_word, is_end, next_word};
