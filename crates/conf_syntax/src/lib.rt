//! The grammar of BIRD's configuration (BIRD User's Guide, "Configuration", "Protocols"), the
//! parsers of its parts that hold no filter, and what words tell of the next one without a parser.
//!
//! The grammar of all statements is one, in `specs/Syntax`; what the trees of the parts are of
//! stands in `specs/View`. `parts` gives the parsers: values of constants, addresses, switches,
//! limits, where a route leads to, and a BGP session's transport. By the grammar alone some words
//! can't stand behind others (`is_apart`), and some can (`is_joined`), as far as the last word
//! before, the kinds of the others and the brackets among them tell. So `conf_tree` parses no
//! statement again to find what a refused word could have been; where neither is said the parser is
//! asked.
//!
//! Not here: expressions (`expr_syntax`), what is asked of refused words (`filt_syntax`,
//! `conf_tree`), policies, channels, protocols, all other statements and whole texts (`conf_tree`).
#![tactic(auto)]

mod apart;
mod joined;
mod limits;
mod literal;
pub mod parts;
mod routes;
mod sets;
mod simple;
mod transport;

pub use apart::is_apart;
pub use joined::is_joined;
