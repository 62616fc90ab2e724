//! What an accepted configuration and a script give to play: the configuration's tables and
//! protocols, and the filters by which the script's queries choose; and a core of these and of the
//! queries (`specs/Setups`).
//!
//! `read_script` reads a script by the names that it may use (`specs/Names`), and judges the
//! conditions in it (`specs/Scripts`). `parts` makes what is played, whose filters are the policies
//! of the configuration, and those by which queries choose; `build` makes a core of it. Names count
//! as the core's numbers do, and what an accepted script asks for is there (`laws`).
#![tactic(auto)]

mod choices;
pub mod laws;
mod names;
mod protocols;
mod scripts;
mod tables;
mod whole;

pub use names::named;
pub use scripts::{ReadFault, ReadScript, read_script};
pub use whole::{OwnedParts, build, parts};
