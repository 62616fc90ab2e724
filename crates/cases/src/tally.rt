//! How many cases came out as expected.
use crate::table::Case;
use std::io;

/// The count of a table's cases, and of those whose answer was the expected one.
#[derive(Debug, Drop)]
pub struct Tally<'a> {
    name: &'a str,
    cases: u64,
    expected: u64,
}

impl<'a> Tally<'a> {
    /// Begins a count for the table in the file of this name.
    pub fn new(name: &'a str) -> Tally<'a> {
        Tally {
            name,
            cases: 0,
            expected: 0,
        }
    }

    /// Counts a case, and prints it where the answer isn't the expected one.
    pub fn note(&mut self, rt: &HostRuntime, case: &Case, answer: &str) -> io::Result<()> {
        self.cases = self.cases.saturating_add(1);
        if case.expected.as_str() == answer {
            self.expected = self.expected.saturating_add(1);
            return Ok(());
        }
        let Tally { name, .. } = self;
        let Case { line, expected, .. } = case;
        println!(rt; "{name}:{line}: expected {expected}, got {answer}")
    }

    /// Prints how many cases there were, and tells whether each came out as expected.
    pub fn finish(self, rt: &HostRuntime) -> io::Result<bool> {
        let Tally {
            name,
            cases,
            expected,
        } = self;
        println!(rt; "{name}: {cases} cases, {expected} as expected")?;
        Ok(cases == expected)
    }
}
