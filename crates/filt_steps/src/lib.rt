//! How many steps filters take (`specs/Steps`), and the law that a filter ends within its weight:
//! what is refused as too heavy is all that could run for long. Nothing here is run.
#![tactic(auto)]

pub mod laws;
