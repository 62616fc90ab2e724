//! What the options of a channel, of a BGP protocol and of a pipe come to: of options of one kind
//! the one that is written last counts (`specs/Options`), and where none is written there is a
//! default (`specs/Defaults`).
//!
//! Not here: what is refused of options (conf_rules), and what they come to over what is declared
//! (conf_check).
#![tactic(auto)]

mod bgp;
mod channel;
mod defaults;
pub mod laws;
mod pipe;

pub use bgp::{BgpOptions, Neighbor};
pub use channel::ChannelOptions;
pub use defaults::{
    BGP_PREFERENCE, DEFAULT_LOCAL_PREF, DEFAULT_MED, STATIC_PREFERENCE, action_or, address_or,
    interprets, is_on, limit_or,
};
pub use pipe::PipeOptions;
