//! Tests of imports, exports and reports where no script of a play leads: operations that the other
//! kind of protocol has, an outlet that refuses, pipes.
//!
//! What a script reaches is tried by the reports of `birdcore_top_cases`.
#![tactic(auto)]

#[cfg(test)]
mod directions;
#[cfg(test)]
mod exports;
#[cfg(test)]
mod feeds;
#[cfg(test)]
mod imports;
#[cfg(test)]
mod pipes;
#[cfg(test)]
mod samples;
