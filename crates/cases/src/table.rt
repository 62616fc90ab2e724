//! The cases of a file.
use crate::escape::unescape;
use std::alloc::Global;
use std::io::{Error, ErrorKind};
use std::{fs, io};

/// A case: what is expected of an input.
#[derive(Debug, Drop)]
pub struct Case {
    /// The number of its line, from 1.
    pub line: usize,
    pub expected: String,
    pub input: Vec<u8>,
}

fn is_passed_over(line: &str) -> bool {
    line.trim().is_empty() || line.starts_with('#')
}

fn case_of(alloc: Global, number: usize, line: &str) -> io::Result<Case> {
    let (expected, input) = line
        .split_once(" | ")
        .ok_or(Error::from(ErrorKind::InvalidData))?;
    Ok(Case {
        line: number,
        expected: String::from_str(alloc, expected.trim())?,
        input: unescape(alloc, input.as_bytes())?,
    })
}

/// The cases of the table in a file, in the order of its lines.
///
/// # Errors
/// `InvalidData` where a line has no ` | ` or an escape that isn't one, and what reading the file
/// gives.
pub fn read(rt: &HostRuntime, name: &str) -> io::Result<Vec<Case>> {
    let alloc = rt.alloc();
    let text = fs::read_to_string(rt, name)?;
    let mut cases = Vec::new(alloc);
    let mut number: usize = 0;
    for line in text.lines() {
        number = number.saturating_add(1);
        if !is_passed_over(line) {
            cases.push(case_of(alloc, number, line)?)?;
        }
    }
    Ok(cases)
}
