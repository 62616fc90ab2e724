//! What a configuration comes to when it is played: its tables, and its protocols with what their
//! policies say of routes (`specs/System`, `specs/Policies`).
//!
//! `read_system` reads a text: the system, or where it is refused and why (`specs/Texts`).
//! `System::condition` reads a condition that stands elsewhere, over the system
//! (`specs/Conditions`). Filters run as code: `System::code` compiles the functions and the filters
//! by name, once each (`Code`). Policies, filters and conditions are judges of one type over it
//! (`Passes`): `System::passes` gives the one of a channel's or a pipe's policy, `System::filter`
//! that of a filter. What holds of each accepted configuration are the `laws`, and of the filters
//! of a configuration in which nothing is refused the `filter_laws` (`specs/Written`): none of them
//! is ever stuck, so what `Passes` runs isn't either. That a text says one thing at most stands in
//! `accepted_laws`.
#![tactic(auto)]

mod code;
mod condition;
pub mod filter_laws;
pub mod laws;
mod passes;
mod read;
mod system;

pub use code::Code;
pub use passes::Passes;
pub use read::{SystemFault, read_system};
pub use system::System;
