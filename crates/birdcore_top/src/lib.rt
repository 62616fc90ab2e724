//! What the program does: it plays or runs a script over a configuration, and reports what came
//! about, or checks a configuration and a script.
//!
//! `top` does all of it, and owes one record of eleven promises (specs/Answered). What its words
//! and its files come to is an `Outcome` (specs/Outcome): files that are told come to one at most,
//! which the laws say, and `top` answers it, or want of memory, unless a file that decides it, or
//! the sink, fails. Of a play the outcome is the phases of the script over what the configuration
//! gives to play (specs/Given, specs/Setups of `sys_build`), and what is written are the reports of
//! the phases to which the machine of `core_machine` comes on them, each as soon as it has ended
//! (specs/Written, and that of `phases_out`). A run is refused as a play is, and where its script
//! has a `!` line; what it writes are the reports of some legal phases. Which ones isn't promised:
//! each actor has a thread of its own. A check is refused as a play of its files is, and writes
//! `ok` where they can be played.
//!
//! `words` reads the command line, `files` the files, `play` and `run` make of a configuration and
//! a script what `phases_out` plays or runs, `write` writes what is accepted, `status` is how the
//! program ends, `laws` what files say; `surely` is `top` over what never fails. Other laws of
//! `top` stand in the crate `top_laws`.
#![tactic(auto)]

mod files;
pub mod laws;
mod play;
mod run;
mod status;
pub mod surely;
pub mod top;
mod words;
mod write;

pub use status::Status;
