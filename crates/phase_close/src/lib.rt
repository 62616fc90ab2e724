//! What a phase has come to once its threads have returned: locks are open, hands and stamps are
//! retired in the journals of turns and of marks, and what stands there is known of whole lists.
//!
//! `turns` ends the hands of a protocol, `marks` the stamp of a channel; `protocol` says what is
//! left of a protocol then, and `session` of one with its channel. `seats` ends ports and cursors
//! in their tables, `tables` has the tables, and actors' passes; by `laws` that is what a phase
//! owes.
#![tactic(auto)]

mod channel;
pub mod laws;
mod marks;
mod protocol;
mod seats;
mod session;
mod tables;
mod turns;

pub use marks::retire_stamp;
pub use protocol::{ProtocolLeft, close_protocol};
pub use seats::{SessionEnded, end_session_at};
pub use session::{SessionLeft, close_session};
pub use tables::{close_tables, end_tables, hear_actor, hear_actors};
pub use turns::retire_hands;
