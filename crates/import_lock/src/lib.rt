//! What lies under the import lock of a protocol with routes of its own, and the calls on it.
//!
//! An operation is applied, recorded in the journal of the protocol's turns under the hand of the
//! actor who asks for it, and its changes wait (`ImportState::plan_turn`); each that waits enters
//! the table through the protocol's port (`send_turn`). So once nothing waits the port has made
//! what the turns give. `op_turn` does all of this, and `give_mark` then has the protocol's channel
//! come up, go down or send anew as the operation asks (`TakesMarks`), under its stamp. By `share`
//! a pass learns what the port has made. A lock keeps all this with a key that names the phase and
//! the journals (`ImportKey`, `Imports`).
//!
//! `state` has the value, `begin` what it is as a phase begins, `key` what the lock is of; `plan`,
//! `send`, `turn`, `mark` and `share` have the calls.
#![tactic(auto)]

mod begin;
mod key;
mod mark;
mod plan;
mod send;
mod share;
mod state;
mod turn;

pub use key::{ImportKey, Imports, Phase};
pub use mark::TakesMarks;
pub use plan::Plan;
pub use state::{Hand, ImportState, Marks, OpFault, OpRecord, Stamp, Turns};
pub use turn::Helper;
