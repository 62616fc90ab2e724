//! What `show route` is asked, by the words of a line.
//!
//! The words behind `show route` are a question (BIRD User's Guide, "Remote control"): which nets,
//! of which table, of which protocol's routes or of which one's exports, by which filter or
//! expression, the best routes alone, with their attributes, or only how many. `read_question`
//! makes a `Question` of what stands in a line behind the word `route`, or nothing where that is
//! none. Names stay names and an expression stays text, both as slices of the line: who they are
//! and what it says is for those who know the configuration.
//!
//! Contracts see the text as its words (`text`). specs/Question says what is asked as a grammar,
//! without an order of options: the words behind the selector are the question's options in some
//! order, each once. `laws` has that a text is one question at most, and that each is one or none.
//! `is_name` tells which words can be names, here and in all other lines of a script.
#![tactic(auto)]

pub mod laws;
mod names;
mod parts;
mod question;
mod read;
mod selector;

pub use names::is_name;
pub use question::Question;
pub use read::read_question;
