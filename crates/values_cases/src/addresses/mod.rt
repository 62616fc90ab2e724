//! Spellings of addresses, prefixes and numbers, how they are written, and how prefixes lie to one
//! another.
//!
//! An address is told as its family and its number in hexadecimal digits, a prefix with its length
//! behind a slash.
mod nets;
mod spellings;

use std::alloc::Global;
use std::io;

/// What is tried.
#[derive(Clone, Copy, Debug)]
pub enum Table {
    /// The address at the front of a text, and how many bytes spell it.
    Addresses,
    /// The prefix at the front of a text, and how many bytes spell it.
    Prefixes,
    /// What a whole text spells.
    Whole,
    /// A number in decimal.
    Numbers,
    /// How what a text spells is written.
    Written,
    /// Whether an address and a length make a prefix.
    Made,
    /// The bits of a prefix that count.
    Bits,
    /// How two prefixes lie to one another.
    Pairs,
}

/// What is answered to a text.
pub fn answer(alloc: Global, table: Table, text: &[u8]) -> io::Result<String> {
    match table {
        Table::Addresses => spellings::address(alloc, text),
        Table::Prefixes => spellings::prefix(alloc, text),
        Table::Whole => spellings::whole(alloc, text),
        Table::Numbers => spellings::number(alloc, text),
        Table::Written => spellings::written(alloc, text),
        Table::Made => nets::made(alloc, text),
        Table::Bits => nets::bits(alloc, text),
        Table::Pairs => nets::pair(alloc, text),
    }
}
