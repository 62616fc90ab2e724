//! Actors do their lines, as `@p1 add ..` and `@p1 show route`, over the room of a phase that other
//! actors share. Its protocols have routes of their own or are pipes.
//!
//! An actor, what it is told and who answers queries are those of phase_actors. Once an actor is
//! through (`act`), its hands have recorded just its lines, each text answers its query over the
//! table as it stood at one position, and that isn't before what the actor had done and seen there
//! until then.
//!
//! `apply` does an operation, `show` answers a query, `acting` goes through the lines; `laws` has
//! that lines can be done.
#![tactic(auto)]

mod acting;
mod apply;
pub mod laws;
mod show;

pub use acting::act;
