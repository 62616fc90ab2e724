//! What a phase with threads is played over: tables, and the locks of protocols and channels.
//!
//! `lists` makes the journals of turns and of marks, `locks` the locks as a phase begins, from what
//! stands then (`laws`); `session` has a protocol with its channel, if it has one, and opens their
//! locks at the end; `turns` does an operation under its locks.
//!
//! As a phase begins `opened` has the seats of tables by protocol, by channel and by actor
//! (`deals`); `begin` makes sessions of `parts`.
#![tactic(auto)]

mod begin;
mod deals;
pub mod laws;
mod lists;
mod locks;
mod opened;
mod parts;
mod session;
mod turns;

pub use begin::{begin_neighbour, begin_static};
pub use deals::{no_lists, push_each, split_pass};
pub use lists::{open_marks, open_turns};
pub use locks::{ExportLock, ImportLock, lock_export, lock_import};
pub use opened::Opened;
pub use parts::{ChannelPart, ProtocolPart};
pub use session::Session;
