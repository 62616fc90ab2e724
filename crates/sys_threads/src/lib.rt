//! A script is run: phases one after another, each with a thread for each actor (`Runner`). What a
//! run is reported as is legal, behind all phases that it ran before.
//!
//! `parts` has what is run, lent by who holds it; `playing` what a room of a phase knows of the
//! run; `fits` which scripts can be run; `runner` the runner, and `fault` why a phase of it doesn't
//! end. `named`, `logged` and `statics` serve the first phase.
#![tactic(auto)]

mod fault;
mod fits;
mod logged;
mod named;
mod parts;
mod playing;
mod runner;
mod statics;

pub use fault::RunFault;
pub use fits::can_run;
pub use parts::LentParts;
pub use playing::{Earlier, Playing};
pub use runner::Runner;
