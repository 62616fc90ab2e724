//! The compiler of checked filters.
//!
//! Code is emitted from its end: what runs behind is there first, so how far a jump leads is known
//! when it is emitted, and nothing is changed afterwards. What each part comes to is what its tree
//! does (`filt_meaning/specs/Trees`), with whatever code stands behind it (`specs/Emits`).
#![tactic(auto)]

mod act;
mod condition;
mod drafts;
mod emitted;
mod in_place;
pub mod laws;
mod questions;
mod ranges;
mod rest;
mod seen;
mod value;

pub use drafts::{compile, library};
