//! Tests of tables: what changes leave and answer, in which order rows and routes stand, and which
//! rows are selected.
#![tactic(auto)]

#[cfg(test)]
mod selection;
mod shapes;
mod steps;
#[cfg(test)]
mod tests;

pub use shapes::{PLAIN, Shape, put_all};
pub use steps::{Step, change_of, net, new_route, play, route};
