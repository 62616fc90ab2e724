//! What a pipe has come to once its phase's threads have returned: its locks are open, the hands of
//! its turns and the stamps of its directions have ended, and of its directions the cursors and
//! ports in their tables.
//!
//! `stamps` ends a direction's stamp, `close` says what is left of a pipe then; `seats` ends a
//! direction's cursor in the table that it reads and its port in the one that it writes, and `end`
//! does both directions.
#![tactic(auto)]

mod close;
mod end;
pub mod laws;
mod seats;
mod stamps;

pub use close::{PipeLeft, close_pipe};
pub use end::{PipeEnded, end_pipe};
pub use seats::end_lane;
