//! Phases are played by a core or run by threads, and the report of each is written as soon as it
//! has ended.
//!
//! What is written are the reports of the phases to which the machine of `core_machine` comes on
//! their lines (`specs/Written`), which ask for what there is (`specs/Given`). Of a run they are
//! the reports of some legal phases. Which ones isn't promised: each actor has a thread of its own.
//! It ends when all is written, or when the output fails or memory is refused (`Ending`); then the
//! reports of the first phases stand there. A run that threads can't do has no ending, and writes
//! nothing.
//!
//! `play` has a core play one phase after another, `run` has a runner run them by threads, `output`
//! writes, `ending` is how it ends. Which script and configuration they are of says `birdcore_top`.
#![tactic(auto)]

mod ending;
mod output;
mod play;
mod run;

pub use ending::Ending;
pub use play::play_all;
pub use run::run_all;
pub use sys_threads::LentParts;
