//! The grammar of BIRD's filters (BIRD User's Guide, "Filters"), and the parsers of its
//! expressions, sets, masks and types: the tree of each and the words after it, or the word that is
//! refused.
//!
//! The grammar of expressions and statements is one, in `specs/Syntax`, since statements hold
//! expressions and count their levels; what the trees of expressions are of stands in `specs/View`,
//! `ItemView` and `Types`. `parts` gives the parsers. Not here: the parsers of statements, and
//! which word or token of a whole text is refused (`filt_syntax`).
#![tactic(auto)]

mod bracket;
mod expression;
mod items;
mod operators;
pub mod parts;
mod variable_type;
