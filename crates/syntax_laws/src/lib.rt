//! Laws of tokens and words, of the grammar of filters and of its trees, which nothing that runs
//! needs.
//!
//! `words`: each text has tokens or a place of refusal, its words are made of all its tokens, and a
//! spelling says one thing. `expressions`, `statements`: how far the lines of the grammar decide by
//! themselves (BIRD User's Guide, "Filters"), and that each tree is the view of a value.
//! `readings`: from each token of a text on an expression or a block is parsed or refused, in one
//! way. Not here: the laws that the parsers of configurations stand on (`conf_scan::laws`), and
//! those of configurations (`conf_tree`, `conf_laws`). Nothing here runs.
#![tactic(auto)]

pub mod expressions;
pub mod readings;
pub mod statements;
pub mod words;
