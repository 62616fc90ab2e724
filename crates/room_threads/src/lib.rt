//! A thread for each actor of a phase, whose protocols have routes of their own or are pipes.
//!
//! A thread owes what its actor is once it is through (`Owes`), and an actor whose thread can't be
//! started does its lines at once. `act_all` waits for all of them, and `act_and_serve` has workers
//! serve the channels meanwhile, and pipes.
//!
//! `actor` has an actor that is through, `thread` starts one and waits for it, `all` does so for
//! all, `serve` has workers beside them.
#![tactic(auto)]

mod actor;
mod all;
mod serve;
mod thread;

pub use actor::{Acted, Owes};
pub use all::act_all;
pub use serve::act_and_serve;
