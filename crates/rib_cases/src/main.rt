//! Tries which of two routes is preferred, for cases that a file holds.
#![tactic(auto)]

mod shape;

use crate::shape::{bad, shaped};
use cases::{Case, Tally, read};
use rib::before;
use std::alloc::Global;
use std::io;
use std::process::ExitCode;

/// Which of `ROUTE; ROUTE` is before the other.
fn preferred(alloc: Global, text: &str) -> io::Result<&'static str> {
    let (first, second) = text.split_once("; ").ok_or(bad())?;
    let first = shaped(alloc, first)?;
    let second = shaped(alloc, second)?;
    Ok(match (before(&first, &second), before(&second, &first)) {
        (true, false) => "first",
        (false, true) => "second",
        (true, true) => "both",
        (false, false) => "neither",
    })
}

fn answer(rt: &HostRuntime, case: &Case) -> io::Result<&'static str> {
    let text = str::from_utf8(case.input.as_slice()).map_err(|_| bad())?;
    preferred(rt.alloc(), text)
}

fn main(rt: HostRuntime) -> io::Result<ExitCode> {
    let name = "selection.txt";
    let mut tally = Tally::new(name);
    for case in read(&rt, name)?.iter() {
        tally.note(&rt, case, answer(&rt, case)?)?;
    }
    Ok(if tally.finish(&rt)? {
        ExitCode::SUCCESS
    } else {
        ExitCode::FAILURE
    })
}
