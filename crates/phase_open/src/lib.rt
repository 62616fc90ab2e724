//! What stands between two phases with threads (`standing`), of tables and of protocols with routes
//! of their own.
#![tactic(auto)]

mod standing;

pub use standing::{StandingChannel, StandingProtocol, StandingTable};
