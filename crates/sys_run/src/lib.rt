//! Plays scripts over tables, protocols and channels, on one thread.
//!
//! A `Core` is made of the parts of tables and protocols (`parts`) and plays one phase of a script
//! after another (`play`): its lines in their order, and then a sync, in which each channel that is
//! up takes to the head of its table and sends all. Each phase comes to a report.
//!
//! Contracts say it by the machine of `core_machine`: what a core has played are the machine's
//! phases, and its reports are what is reported of these (`specs/Playing`).
#![tactic(auto)]

pub mod laws;
mod made;
mod parts;
mod phase;
mod player;
mod protocol;
mod ways;

pub use made::{direction_gate, passed_by, table_family, take_list};
pub use parts::{BodyParts, ExportParts, PipeParts, ProtocolParts, SourceParts, TableParts};
pub use player::Core;
