//! Tables of test cases as files: a line is a case, with the answer that is expected of it.
//!
//! A program that tests libraries reads such a table with `read`, asks a library for its answer to
//! each case, and hands it to a `Tally`, which prints the cases whose answer differs and at the end
//! how many there were. A case more is a line of a text file more: nothing has to be proved for it.
//!
//! A line is `EXPECTED | INPUT`. Blank lines and lines that begin with `#` are passed over. What
//! stands behind the first ` | ` is the input, to the line's end; the module `escape` says how
//! bytes are written there that a line can't hold.
#![tactic(auto)]

mod escape;
mod table;
mod tally;
#[cfg(test)]
mod tests;

pub use escape::unescape;
pub use table::{Case, read};
pub use tally::Tally;
