//! Tries what tables hold of the values of a router: addresses and nets, texts, the sets and masks
//! of filters, and the operators of filters.
//!
//! A module is a folder of tables, and says what a case of it is and how its answer is written.
#![tactic(auto)]

mod addresses;
mod items;
mod notation;
mod sets;
mod texts;
mod values;

use cases::{Tally, read};
use std::alloc::Global;
use std::io;
use std::process::ExitCode;

/// Whose cases a table has.
#[derive(Clone, Copy, Debug)]
enum Table {
    Addresses(addresses::Table),
    Texts(texts::Table),
    Sets(sets::Table),
    Values,
}

const TABLES: [(&str, Table); 19] = [
    (
        "addresses/addresses.txt",
        Table::Addresses(addresses::Table::Addresses),
    ),
    (
        "addresses/prefixes.txt",
        Table::Addresses(addresses::Table::Prefixes),
    ),
    (
        "addresses/whole.txt",
        Table::Addresses(addresses::Table::Whole),
    ),
    (
        "addresses/numbers.txt",
        Table::Addresses(addresses::Table::Numbers),
    ),
    (
        "addresses/written.txt",
        Table::Addresses(addresses::Table::Written),
    ),
    (
        "addresses/made.txt",
        Table::Addresses(addresses::Table::Made),
    ),
    (
        "addresses/bits.txt",
        Table::Addresses(addresses::Table::Bits),
    ),
    (
        "addresses/pairs.txt",
        Table::Addresses(addresses::Table::Pairs),
    ),
    ("texts/lines.txt", Table::Texts(texts::Table::Lines)),
    ("texts/words.txt", Table::Texts(texts::Table::Words)),
    ("sets/ints.txt", Table::Sets(sets::Table::Ints)),
    ("sets/pairs.txt", Table::Sets(sets::Table::Pairs)),
    ("sets/prefixes.txt", Table::Sets(sets::Table::Prefixes)),
    ("sets/masks.txt", Table::Sets(sets::Table::Masks)),
    ("values/numbers.txt", Table::Values),
    ("values/comparing.txt", Table::Values),
    ("values/matching.txt", Table::Values),
    ("values/lists.txt", Table::Values),
    ("values/sorts.txt", Table::Values),
];

fn answer(alloc: Global, table: Table, case: &[u8]) -> io::Result<String> {
    match table {
        Table::Addresses(table) => addresses::answer(alloc, table, case),
        Table::Texts(table) => texts::answer(alloc, table, case),
        Table::Sets(table) => sets::answer(alloc, table, case),
        Table::Values => values::answer(alloc, case),
    }
}

fn are_as_expected(rt: &HostRuntime, name: &str, table: Table) -> io::Result<bool> {
    let mut tally = Tally::new(name);
    for case in &read(rt, name)? {
        let answer = answer(rt.alloc(), table, &case.input)?;
        tally.note(rt, case, &answer)?;
    }
    tally.finish(rt)
}

fn main(rt: HostRuntime) -> io::Result<ExitCode> {
    let mut all = true;
    for (name, table) in TABLES {
        all &= are_as_expected(&rt, name, table)?;
    }
    Ok(if all {
        ExitCode::SUCCESS
    } else {
        ExitCode::FAILURE
    })
}
