//! What filters mean: the values of the filter language and what its operators give at them
//! (`specs/Values`, `specs/Operators`), filters as abstract syntax (`specs/Meaning`,
//! `specs/Configuration`) and as checked trees (`specs/Trees`), and laws of them (BIRD User's Guide,
//! "Filters").
//!
//! A `Value` is of one `Sort`. It borrows strings, sets and masks from where they were written, so
//! no set is ever copied, and owns paths and lists of communities, or borrows what nothing changes.
//! A `Fixed` is known before a filter runs, and lends its value. Contracts see both as a `Val`,
//! plain data without memory. A definition of `specs/Operators` is a line of the language, and
//! `specs/Sorts` says which sorts it takes and gives; filt_values has the operators as code.
//!
//! In a checked tree each name is a place. It has no types in it, and no sorts but those of its
//! variables. Each tree does something: where an operator meets a value that it doesn't take, or a
//! place stands for nothing, it is stuck. No filter that was checked comes there.
#![tactic(auto)]

mod fixed;
pub mod laws;
mod scope;
pub mod sorts;
mod tree;
mod value;

pub use fixed::Fixed;
pub use scope::{Scope, TFunction};
pub use tree::{Labels, TAccess, TArm, TExpr, TFilter, TStmt, TTarget, TTest};
pub use value::{Defaults, Failure, ListFailure, Sort, Value, copy, type_sort};
