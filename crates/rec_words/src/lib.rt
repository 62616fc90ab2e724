//! Entries of a table's journal as words.
//!
//! A journal's cells hold words, so that a cursor reads an entry without a lock. An entry has one
//! spelling (`entry_words` of specs/Spelling), which `put_words` writes and `get_words` reads; what
//! isn't the spelling of an entry is refused (`Spells` of specs/Entries, `laws`).
#![tactic(auto)]

mod build;
mod counts;
mod fault;
pub mod laws;
mod parts;
mod read;
mod shape;
mod word;
mod write;

pub use fault::WordsFault;
pub use read::get_words;
pub use write::put_words;
