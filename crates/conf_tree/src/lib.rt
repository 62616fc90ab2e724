//! The parser of BIRD's configuration: the tree of a text (conf_ast) or the first place that is
//! refused (`read_config`), and the line and column of a place (`place`). Four laws stand here, on
//! which crates on the way to the program rest.
//!
//! Not in it: tokens (conf_scan) and words (conf_lex), those of a text that the grammar reads
//! (conf_words), the grammar, its parts that hold no filter and what words tell of the next one
//! without a parser (conf_syntax), expressions (expr_syntax), statements and blocks of filters
//! (filt_syntax), the other laws of what is defined here (conf_laws), configurations as plain data
//! (conf_ast), and what is refused of names and values (conf_rules).
#![tactic(auto)]

mod bgp;
mod channel;
mod config;
mod followed;
mod function;
pub mod laws;
mod options;
mod pipe;
mod policy;
mod position;
mod protocol;
mod read;
mod refusal;
mod statement;
mod static_routes;
mod unsupported;

pub use conf_ast::{ConfFault, ConfKind};
pub use position::place;
pub use read::read_config;
