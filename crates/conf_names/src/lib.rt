//! What a configuration declares before one of its statements (`Declared`), as the rules of
//! configurations see it: names, those of protocols without one (`own_name`), tables and what pipes
//! join, numbers and values of constants; and the first of several refusals.
//!
//! The definitions are `specs/Known`, `Names`, `Joints`, `Constants` and `Refusals`. Which
//! statements and protocols are refused stands in `conf_rules`.
#![tactic(auto)]

pub mod constants;
pub mod declared;
pub mod joints;
pub mod laws;
pub mod names;
pub mod refusal;
pub mod values;

pub use declared::{Declared, table_number, table_of};
pub use joints::Joint;
pub use names::{BGP_STEM, PIPE_STEM, STATIC_STEM, own_name};
pub use refusal::Refusal;
pub use values::number_of;
