//! What is played answers the queries of actors (`Answering`): it has the names, the filters and
//! the channels that a query's reply is made of, all of them lent.
//!
//! `answering` has the type and its answer, `naming` what a query names, `lent` how filters,
//! channels, names and rows are lent for a reply.
#![tactic(auto)]

mod answering;
mod lent;
mod naming;

pub use answering::Answering;
pub use lent::{Lent, copy_exports};
