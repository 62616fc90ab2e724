//! That a phase is legal once its threads have returned and its channels are settled: what is known
//! of tables, logs, operations and replies says what stands at its end. Nothing here runs.
//!
//! `specs/Ends` says what is known of such a phase.
#![tactic(auto)]

pub mod laws;
