//! What the operators of the filter language give at values, as code (BIRD User's Guide,
//! "Filters").
//!
//! Each operator is a function of values of any sorts: where it doesn't take theirs it is `Stuck`,
//! which is no fault of a filter, since what is refused for its types isn't run. Faults are those
//! that a filter can meet, as a division by zero. What each gives is a line of filt_meaning's
//! `specs/Operators`, and `specs/Sorts` there says which sorts it takes and gives.
#![tactic(auto)]

mod compare;
mod contain;
mod kept;
pub mod laws;
mod lists;
mod logic;
mod members;
mod numbers;
mod parts;
mod properties;
mod same;

pub use compare::{equal, greater, greater_or_equal, less, less_or_equal, not_equal};
pub use contain::{matches, matches_not};
pub use lists::{add, delete, empty, filter, prepend};
pub use logic::{not, truth};
pub use numbers::{minus, over, plus, times};
pub use properties::{first, ip, last, len, pair};
