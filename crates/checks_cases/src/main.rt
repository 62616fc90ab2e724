//! Tries filters and configurations that tables hold: what a filter says of a route, what a
//! configuration comes to, and where each is refused and why.
//!
//! A module says what the cases of its tables are and how their answers are written. With the words
//! `rounds CONFIG NUMBER` the program prints how many routes the filter of a configuration accepts
//! in so many rounds: for measuring how long a verdict takes.
#![tactic(auto)]

mod configurations;
mod deciding;
mod faults;
mod filters;
mod policies;
mod rounds;
mod systems;

use crate::faults::bad;
use cases::{Case, Tally, read};
use std::process::ExitCode;
use std::{env, io};

/// What is asked of a table's cases.
#[derive(Clone, Copy, Debug)]
enum Table {
    Filters,
    Configurations,
    Systems,
    Policies,
    Rounds,
}

const TABLES: [(&str, Table); 8] = [
    ("filters/verdicts.txt", Table::Filters),
    ("filters/refused.txt", Table::Filters),
    ("filters/operators.txt", Table::Filters),
    ("configurations/refused.txt", Table::Configurations),
    ("configurations/accepted.txt", Table::Configurations),
    ("systems/systems.txt", Table::Systems),
    ("systems/policies.txt", Table::Policies),
    ("rounds/rounds.txt", Table::Rounds),
];

fn answer(rt: &HostRuntime, table: Table, case: &Case) -> io::Result<String> {
    let input = case.input.as_slice();
    match table {
        Table::Filters => filters::answer(rt.alloc(), input),
        Table::Configurations => configurations::answer(rt.alloc(), input),
        Table::Systems => systems::answer(rt.alloc(), input),
        Table::Policies => policies::answer(rt.alloc(), input),
        Table::Rounds => rounds::answer(rt, input),
    }
}

fn are_as_expected(rt: &HostRuntime, name: &str, table: Table) -> io::Result<bool> {
    let mut tally = Tally::new(name);
    for case in &read(rt, name)? {
        let answer = answer(rt, table, case)?;
        tally.note(rt, case, &answer)?;
    }
    tally.finish(rt)
}

fn try_tables(rt: &HostRuntime) -> io::Result<ExitCode> {
    let mut all = true;
    for (name, table) in TABLES {
        all &= are_as_expected(rt, name, table)?;
    }
    Ok(if all {
        ExitCode::SUCCESS
    } else {
        ExitCode::FAILURE
    })
}

fn main(rt: HostRuntime) -> io::Result<ExitCode> {
    let mut words = env::args(&rt)?.skip(1);
    let Some(word) = words.next() else {
        return try_tables(&rt);
    };
    if word.as_str() != "rounds" {
        return Err(bad());
    }
    let config = words.next().ok_or(bad())?;
    let number = words.next().ok_or(bad())?;
    let accepted = rounds::accepted(&rt, &config, &number)?;
    println!(&rt; "{accepted}")?;
    Ok(ExitCode::SUCCESS)
}
