//! The words of a text that the grammar of configurations reads, and the way back from a word to
//! its place in the text.
//!
//! What logs and device blocks hold says nothing and is left out (`specs/Significant`).
//! `walked_words` makes the list of all other words as the text is walked, and keeps marks of the
//! walk; `spot_of` finds again where a word of the list begins, by a walk from the mark before it
//! (`mark_before`). From there on `byte_past` counts tokens, and `bytes_ahead` has the bytes of the
//! next one (`specs/Bytes`).
//!
//! Not here: tokens (conf_scan) and the words that they are (conf_lex), the grammar (conf_syntax),
//! which words are a configuration and which of others is refused (conf_tree).
#![tactic(auto)]

mod significant;
mod tokens;

pub use significant::{Mark, Region, Walked, mark_before, spot_of, walked_words};
pub use tokens::{byte_past, bytes_ahead};
