//! Tries scripts that files of cases hold, over a few protocols, tables and filters: what a script
//! says, or the line at which it is refused; and scripts that may not schedule.
//!
//! The module `names` has the protocols, `answer` says how what a script says is written.
#![tactic(auto)]

mod answer;
mod names;

use cases::{Tally, read};
use std::io;
use std::process::ExitCode;

fn are_read(rt: &HostRuntime, name: &str, schedule: bool) -> io::Result<bool> {
    let mut tally = Tally::new(name);
    for case in read(rt, name)?.iter() {
        let answer = answer::answer(rt.alloc(), case.input.as_slice(), schedule)?;
        tally.note(rt, case, answer.as_str())?;
    }
    tally.finish(rt)
}

fn main(rt: HostRuntime) -> io::Result<ExitCode> {
    let accepted = are_read(&rt, "accepted.txt", true)?;
    let refused = are_read(&rt, "refused.txt", true)?;
    let barred = are_read(&rt, "barred.txt", false)?;
    Ok(if accepted && refused && barred {
        ExitCode::SUCCESS
    } else {
        ExitCode::FAILURE
    })
}
