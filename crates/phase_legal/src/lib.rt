//! That a phase whose threads work at once is legal: what the locks of protocols and channels keep,
//! and what the seats of ports, hands, stamps and passes have seen, makes of what is printed what
//! `core_machine::specs::Legal` asks. Nothing here runs.
//!
//! `specs/Turns` says what the journal of a protocol's turns tells, `specs/Changes` what ports make
//! of a table, `specs/Stamps` what the journal of a channel's marks tells, `specs/Shown` what an
//! actor has seen and was told, `specs/Ended` what is known once the threads have returned.
#![tactic(auto)]

pub mod laws;
