//! The rule of a journal: a list of entries that one writer appends to and many cursors read, over
//! words that all threads share.
//!
//! Word 0 is the head, the position of the last entry. A word for each cursor is its position, and
//! behind these stand the cells of 256 words, one for each of the last entries. What a seat knows
//! of the journal is its `View`. The rule (`specs/Journal`, `specs/Cells`) ties the words to one
//! list of entries and to all views, and every step of `steps` keeps it, whoever makes it and
//! whenever. The journal itself is `jour`.
#![tactic(auto)]

pub mod buf;
pub mod law;
pub mod plays;
pub mod rule;
pub mod steps;
pub mod views;
