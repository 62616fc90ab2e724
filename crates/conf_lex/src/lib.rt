//! The words of BIRD's configuration language, and grammars over such words.
//!
//! A word is what a grammar reads: a token (conf_scan), or an address, a slash and a number, or
//! `else` and a colon next after it (`specs/Words`). `words_from` makes a list of them; `next_word`
//! walks along a text and keeps none. Numbers and addresses stand in the words, the bytes of names
//! and texts in the source alone.
//!
//! A grammar is data: a form (`specs/Grammar`) has trees, whose words are its sentences;
//! `specs/Sentences` says what stands at the front of some words, and which is the first that can't
//! stand there. Reading a form one word after another (`specs/Reading`) is exact, for each grammar
//! that passes a test that is computed (`proofs/Checks`, `proofs/Exact`). The functions of
//! `parsing` give what one step of such reading gives, so a parser made of them is exact too. The
//! grammars themselves stand in the crates above, filt_syntax and conf_tree.
#![tactic(auto)]

mod ahead;
mod attribute;
mod keywords;
mod lists;
pub mod parsing;
mod refusal;
mod symbol;
mod token_words;
mod word;

pub use ahead::next_word;
pub use lists::push_tight;
pub use refusal::Refusal;
pub use symbol::Symbol;
pub use token_words::{word_at, words_from};
pub use word::{Word, Words};
