//! The parser of BIRD's filters (BIRD User's Guide, "Filters"): which words or tokens of a text are
//! an expression or a block, the tree of each, and which word or token is refused and why.
//!
//! The grammar and the parsers of expressions stand in `expr_syntax`. What the trees of statements
//! are of stands in `specs/StatementView`, refusals in `specs/Parse` and `specs/Tokens`. `parts`
//! gives the parsers of some forms to the grammars that hold them. Not here: the declarations of
//! filters and functions and all other statements of a configuration (`conf_tree`), names, types
//! and what filters do (`filt_types`, `filt_meaning`), and the laws of the grammar and its trees,
//! which nothing that runs needs (`syntax_laws`).
#![tactic(auto)]

mod block_words;
mod followed;
mod parse;
pub mod parts;
mod refused_token;
mod simple_statement;
mod statement;
mod tokens;

pub use block_words::parse_block_words;
pub use parse::{SyntaxFault, parse_expr_words};
pub use tokens::{parse_block, parse_expr};
