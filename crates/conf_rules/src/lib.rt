//! The rules of configurations: what is refused in a statement, over what is declared before it
//! (`specs/Statements`), and which of its refusals comes first.
//!
//! What is declared stands in conf_names, the rules of filters are those of filt_types and
//! filt_rules. A statement's refusals are gathered, names, types, weights and numbers in all that
//! is written, what is missing or of the wrong family by the options that count.
#![tactic(auto)]

mod bgp;
mod channels;
mod filters;
mod pipes;
mod statements;
mod static_protocols;

pub use bgp::as_number;
pub use pipes::joint_of;
pub use statements::first_in_statement;
