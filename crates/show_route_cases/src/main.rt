//! Tries queries that files hold over tables of routes that others hold.
#![tactic(auto)]

mod judges;
mod queries;
mod routes;

use crate::queries::answered;
use crate::routes::{bad, table};
use cases::{Case, Tally, read};
use rib::Rib;
use std::alloc::Global;
use std::io;
use std::process::ExitCode;

/// The text with newlines and tabs as `\n` and `\t`.
fn escaped(alloc: Global, text: &[u8]) -> io::Result<String> {
    let mut out = String::new(alloc);
    for byte in text {
        match *byte {
            b'\n' => out.push_str("\\n")?,
            b'\t' => out.push_str("\\t")?,
            byte => out.push(char::from(byte))?,
        }
    }
    Ok(out)
}

fn answer(alloc: Global, rib: &Rib, case: &Case) -> io::Result<String> {
    let text = str::from_utf8(case.input.as_slice()).map_err(|_| bad())?;
    let reply = answered(alloc, rib, text)?;
    escaped(alloc, reply.as_slice())
}

/// Whether the queries of a file are answered as it says, over the routes of another.
fn are_answered(rt: &HostRuntime, routes: &str, queries: &str) -> io::Result<bool> {
    let rib = table(rt.alloc(), read(rt, routes)?.as_slice())?;
    let mut tally = Tally::new(queries);
    for case in read(rt, queries)?.iter() {
        tally.note(rt, case, answer(rt.alloc(), &rib, case)?.as_str())?;
    }
    tally.finish(rt)
}

fn main(rt: HostRuntime) -> io::Result<ExitCode> {
    let many = are_answered(&rt, "routes.txt", "queries.txt")?;
    let two = are_answered(&rt, "two.txt", "of_two.txt")?;
    let three = are_answered(&rt, "three.txt", "of_three.txt")?;
    let alike = are_answered(&rt, "alike.txt", "of_alike.txt")?;
    let unnamed = are_answered(&rt, "unnamed.txt", "of_unnamed.txt")?;
    let empty = are_answered(&rt, "empty.txt", "of_empty.txt")?;
    Ok(if many && two && three && alike && unnamed && empty {
        ExitCode::SUCCESS
    } else {
        ExitCode::FAILURE
    })
}
