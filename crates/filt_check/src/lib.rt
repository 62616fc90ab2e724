//! Checks filters, conditions and functions: the first by place of what is refused for its sort,
//! its names, its limits or its weight (`specs/Answers`), or a tree in which each name is a place,
//! and which means what the source does.
//!
//! Names become places without a word of sorts (`filt_resolve`), so that a tree means the same as
//! its source whatever its types.
#![tactic(auto)]

mod blocks;
mod check;
mod collect;
mod fault;
pub mod laws;
mod simple;

pub use check::{
    check_block, check_expr, check_filter, check_function, resolve_condition, resolve_filter,
    resolve_function,
};
pub use fault::TypeFault;
