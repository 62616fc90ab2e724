//! Checks configurations: `check_config` answers what a configuration comes to (`specs/Checked`),
//! or the first of what is refused in it (`specs/Refused`).
//!
//! Statements are checked in their order, each over what is declared before it. The rules are those
//! of conf_rules, the trees of filters those of filt_check.
#![tactic(auto)]

mod bgp;
mod channel;
mod check;
mod checked;
mod constants;
mod declare;
pub mod laws;
mod pipe;
mod policy;
mod statements;
mod static_protocol;

pub use check::check_config;
pub use checked::{
    BgpDef, ChannelDef, Checked, ImportLimit, PipeDef, PolicyDef, ProtocolBody, ProtocolDef,
    StaticDef, StaticRoute,
};
