//! The operators of the filter language, in BIRD's notation.
//!
//! Each case is answered over and over: with lists that stand elsewhere, with owned ones, and with
//! copies of the values; where these differ, the answer says so. What is no list is made as a value
//! that is known before a filter runs.
mod answer;
mod asked;
mod literal;
mod operators;
mod shown;
mod words;

pub use answer::answer;
