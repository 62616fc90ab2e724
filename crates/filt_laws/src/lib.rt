//! The laws that make the types of filters worth having: a filter in which nothing is refused
//! doesn't get stuck, and a function gives what its declaration says (`specs/Sound`). Nothing here
//! runs.
#![tactic(auto)]

pub mod laws;
