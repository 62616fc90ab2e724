//! Tests of `outside_io`.
#![tactic(auto)]

#[cfg(test)]
mod faults;
#[cfg(test)]
mod outside;
#[cfg(test)]
mod stream;
#[cfg(test)]
mod whole;
