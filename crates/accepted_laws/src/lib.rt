//! What texts say, and what it is worth that a configuration is accepted.
//!
//! A text says one thing at most of a system, or as a condition (`said`). The policies of the
//! system that a text comes to run only filters that are written there, which are never stuck and
//! end within 10,000,000 steps (`laws`, `specs/Texts`). These are laws: the contract of `top` rests
//! on those of `said`, and nothing that runs calls any of them.
#![tactic(auto)]

pub mod laws;
pub mod routes;
pub mod said;
