//! The machine that runs compiled filters (`run`).
//!
//! What code means is `filt_code/specs/Codes`, and the machine says just that. It goes from
//! instruction to instruction: what a function or the body of a loop leaves behind waits in lists
//! of its own, so nothing here calls itself, and functions may call each other to any depth. It
//! ends, since each step leaves less to do (`specs/Machines`). The attributes of the route are lent
//! until the filter changes them, and sets and constants stay where they are.
//!
//! It runs only code that is never stuck (`IsNeverStuck`), whatever route it is run for: that is a
//! condition on what the code means alone. So no step answers for a value of a wrong sort, a
//! missing operand, or a variable or a function that there isn't.
#![tactic(auto)]

mod effects;
mod frames;
mod judging;
mod level;
mod machine;
mod operands;
mod passing;
mod step;
mod target;

pub use judging::run;
