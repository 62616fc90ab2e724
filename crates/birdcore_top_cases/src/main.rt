//! Tries plays, runs, checks and queries that files of cases hold: what the program answers to
//! each, and which report or reply it writes.
#![tactic(auto)]

mod checks;
mod plays;
mod replies;

use cases::{Case, Tally, read};
use std::io;
use std::process::ExitCode;
use std::random::RandomSource;
use std::sync::Wait;
use std::thread::Threads;

/// What the inputs of a table are, and what is expected of them.
#[derive(Clone, Copy, Debug, Drop)]
enum Sort {
    /// Two texts, and the status.
    Texts,
    /// The name of a configuration's file and a script, and the status.
    Scripts,
    /// The same, and the status of a run.
    Barred,
    /// One text or two, and what `check` answers.
    Checks,
    /// The program's words, and the status, `ok` or the report's name.
    Words,
    /// Two texts, and the report's name.
    Reports,
    /// The names of two files, and the report's name.
    Plays,
    /// The same of a run, which is tried a hundred times.
    Runs,
    /// The names of two files and a query, and the reply.
    Replies,
}

fn answer<T: RandomSource + Threads + Wait + Sync>(
    rt: &HostRuntime,
    threads: &T,
    sort: Sort,
    case: &Case,
) -> io::Result<String> {
    let name = case.expected.as_str();
    let input = case.input.as_slice();
    match sort {
        Sort::Texts => plays::answer(rt, threads, input),
        Sort::Scripts => plays::refusal(rt, threads, input),
        Sort::Barred => plays::barred(rt, threads, input),
        Sort::Checks => checks::answer(rt, threads, input),
        Sort::Words => plays::words(rt, threads, name, input),
        Sort::Reports => plays::report(rt, threads, name, input),
        Sort::Plays => plays::play(rt, threads, "play", name, input),
        Sort::Runs => plays::runs(rt, threads, name, input),
        Sort::Replies => replies::reply(rt, threads, input),
    }
}

fn are_as_expected<T: RandomSource + Threads + Wait + Sync>(
    rt: &HostRuntime,
    threads: &T,
    sort: Sort,
    name: &str,
) -> io::Result<bool> {
    let mut tally = Tally::new(name);
    for case in read(rt, name)?.iter() {
        let answer = answer(rt, threads, sort, case)?;
        tally.note(rt, case, answer.as_str())?;
    }
    tally.finish(rt)
}

fn main(rt: HostRuntime) -> io::Result<ExitCode> {
    let tables = [
        (Sort::Texts, "answers.txt"),
        (Sort::Scripts, "refused.txt"),
        (Sort::Barred, "barred.txt"),
        (Sort::Checks, "checks.txt"),
        (Sort::Words, "words.txt"),
        (Sort::Reports, "reports.txt"),
        (Sort::Plays, "plays.txt"),
        (Sort::Plays, "examples.txt"),
        (Sort::Runs, "runs.txt"),
        (Sort::Replies, "replies.txt"),
    ];
    let mut good = true;
    for (sort, name) in tables {
        good = are_as_expected(&rt, &rt, sort, name)? && good;
    }
    Ok(if good {
        ExitCode::SUCCESS
    } else {
        ExitCode::FAILURE
    })
}
