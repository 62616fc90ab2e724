//! The rules of types and names in statements, filters and functions, and the weight of filters:
//! the passes whose definitions are `specs/Statements` and `specs/Weight` of filt_types.
//!
//! `first_in_block`, `first_in_condition` and `first_in_function` answer the first refusal of all
//! that there are, or none.
#![tactic(auto)]

mod filters;
mod statements;
mod targets;
mod weight;

pub use filters::{first_in_block, first_in_condition, first_in_function, sort_given};
pub use weight::{weigh, weigh_block, weigh_condition};
