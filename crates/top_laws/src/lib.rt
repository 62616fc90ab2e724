//! Laws of `top` that nothing running needs: files that are told come to an outcome (`outcomes`),
//! phases played come to one list of reports, and those of a play and of a run are legal
//! (`reports`).
//!
//! Not here: that files come to one outcome at most, on which the contract of `top` rests
//! (`birdcore_top::laws`).
#![tactic(auto)]

pub mod outcomes;
pub mod reports;
