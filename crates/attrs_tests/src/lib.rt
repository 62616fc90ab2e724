//! Tests of routes and their attributes: lists and their limits, copies and equality, and the texts
//! that are written.
#![tactic(auto)]

#[cfg(test)]
mod lists;
#[cfg(test)]
mod routes;
#[cfg(test)]
mod samples;
#[cfg(test)]
mod texts;
