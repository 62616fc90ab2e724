//! Where refusals of a configuration stand: each in the statement that is refused. Nothing here
//! runs.
#![tactic(auto)]

pub mod laws;
