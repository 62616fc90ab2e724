//! The syntax of configurations and filters: the trees in memory that the parsers make (`filters`,
//! `configurations`), with names and attributes as they are written (`named`, `attribute`), the same
//! as plain data for contracts (`specs/Filters`, `specs/Configurations`), and the kinds of refusals.
//!
//! Not here: the grammars and the parsers (filt_syntax, conf_tree), and the laws that a text is one
//! syntax at most and a syntax that of one tree (ast_laws).
#![tactic(auto)]

mod attribute;
pub mod configurations;
pub mod filters;
mod kind;
mod named;
mod packed_addr;

pub use attribute::{Attribute, Constant};
pub use kind::{ConfFault, ConfKind};
pub use named::{Name, bytes_at};
pub use packed_addr::PackedAddr;
