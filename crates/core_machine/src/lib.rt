//! The machine of the core: what the lines of a script do to tables, protocols and channels
//! (`specs/Machine`), when a list of printed phases is legal (`specs/Legal`), and the laws that
//! join the two. Nothing here runs.
//!
//! The machine is the plain meaning of a script: histories of tables, the operations of protocols,
//! and for each channel a position, a floor, marks and a log. Legality speaks of what is printed
//! alone. What a configuration says comes in as `Rules` (`specs/Rules`), functions of which no more
//! is used than what they owe.
#![tactic(auto)]

pub mod laws;
