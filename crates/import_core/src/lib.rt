//! Imports: what a protocol's routes become on their way into a table.
//!
//! A neighbour's word is an operation, `Op`; an announcement carries what the neighbour says of the
//! route, `Given`. Who the neighbour is, and what holds for all its routes, is an `ImportSpec`.
//!
//! An `Importer` is the imports of one protocol with its filter and its limit. It does operations,
//! and says of each what changed in what is accepted (`Step`): specs/Operations has what each of
//! them does in each `Mode`, specs/Changes what the changes are.
//!
//! Contracts see the types as plain data. The only attribute of an announced route that is not
//! copied from the spec or from what is given is the local preference, which an external neighbour
//! cannot set (RFC 4271, section 5.1.5; specs/Import).
#![tactic(auto)]

mod held;
mod import_spec;
mod importer;
mod imports;
pub mod laws;
mod mode;
mod nets;
mod operation;
mod step;

pub use import_spec::{Action, Fixed, ImportSpec, Limit};
pub use importer::Importer;
pub use mode::Mode;
pub use operation::{Given, Op};
pub use step::{Done, Mark, Step};
