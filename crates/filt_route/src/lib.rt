//! The route of a filter that runs, and the conditions and operators over it: its attributes, as
//! the filter has left them so far (`Running`), and what `filt_code` asks of them.
//!
//! What the route holds is lent until the filter changes it. Each call answers what the definitions
//! of `filt_code/specs/Codes` give, or wants memory.
#![tactic(auto)]

mod elements;
mod halt;
mod labels;
mod operators;
mod parts;
mod questions;
mod running;
mod surroundings;

pub use elements::Elements;
pub use halt::Halt;
pub use labels::arms_before;
pub use operators::{apply_one, apply_two};
pub use parts::bool;
pub use questions::{answered, asked};
pub use running::Running;
pub use surroundings::Surroundings;
