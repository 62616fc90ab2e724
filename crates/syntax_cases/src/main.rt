//! Tries texts that tables hold: which tokens and words a text has, which filters it begins with,
//! and whether it is a configuration, or where it is refused.
//!
//! A module says how the answers of its tables are written.
#![tactic(auto)]

ghost use Rattle.std.specs.Prelude.{◌<◌, ◌^◌, ◌-◌, length};

mod configurations;
mod filters;
mod tokens;
mod words;

use crate::filters::Reader;
use cases::{Tally, read};
use std::alloc::Global;
use std::io;
use std::io::{Error, ErrorKind};
use std::process::ExitCode;

/// What is asked of a table's texts.
#[derive(Clone, Copy, Debug)]
enum Table {
    Tokens,
    Words,
    Filters(Reader),
    Configurations,
}

const TABLES: [(&str, Table); 11] = [
    ("tokens/tokens.txt", Table::Tokens),
    ("tokens/words.txt", Table::Words),
    (
        "filters/expressions.txt",
        Table::Filters(Reader::Expression),
    ),
    ("filters/blocks.txt", Table::Filters(Reader::Block)),
    (
        "filters/word_expressions.txt",
        Table::Filters(Reader::WordExpression),
    ),
    ("filters/word_blocks.txt", Table::Filters(Reader::WordBlock)),
    ("configurations/accepted.txt", Table::Configurations),
    ("configurations/no_token.txt", Table::Configurations),
    ("configurations/out_of_place.txt", Table::Configurations),
    ("configurations/unsupported.txt", Table::Configurations),
    ("configurations/too_deep.txt", Table::Configurations),
];

/// The longest text of a case, in bytes.
const LONGEST: usize = 1_000_000;

fn answer_text(alloc: Global, table: Table, text: &[u8]) -> io::Result<String>
    requires { length text.now < 2 ^ 32 - 1 }
{
    match table {
        Table::Tokens => tokens::answer(alloc, text),
        Table::Words => words::answer(alloc, text),
        Table::Filters(reader) => filters::answer(alloc, reader, text),
        Table::Configurations => configurations::answer(alloc, text),
    }
}

fn answer(alloc: Global, table: Table, text: &[u8]) -> io::Result<String> {
    if text.len() > LONGEST {
        return Err(Error::from(ErrorKind::FileTooLarge));
    }
    answer_text(alloc, table, text)
}

fn are_as_expected(rt: &HostRuntime, name: &str, table: Table) -> io::Result<bool> {
    let mut tally = Tally::new(name);
    for case in &read(rt, name)? {
        let answer = answer(rt.alloc(), table, &case.input)?;
        tally.note(rt, case, &answer)?;
    }
    tally.finish(rt)
}

fn main(rt: HostRuntime) -> io::Result<ExitCode> {
    let mut all = true;
    for (name, table) in TABLES {
        all &= are_as_expected(&rt, name, table)?;
    }
    Ok(if all {
        ExitCode::SUCCESS
    } else {
        ExitCode::FAILURE
    })
}
