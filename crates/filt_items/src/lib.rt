//! Sets, masks and labels, made once of what is written in a filter or as a constant
//! (`filt_meaning/specs/Items`; BIRD User's Guide, "Filters", "Data types").
#![tactic(auto)]

mod items;

pub use items::{mask_of, number, set_of};
