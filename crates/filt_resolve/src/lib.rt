//! Resolves the expressions of filters: names become places of variables, constants and functions.
//!
//! Resolving knows nothing of sorts: what stands for nothing is stuck in the tree, as it is in the
//! meaning of filters, so that a tree means the same as its source whatever its types.
#![tactic(auto)]

mod comparing;
mod expressions;
mod names;

pub use expressions::{boxed, resolve, resolve_all};
pub use names::{Names, function, named};
