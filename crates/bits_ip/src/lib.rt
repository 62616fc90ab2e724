//! Internet addresses and prefixes: what they are, their order and their texts; and numbers in
//! decimal.
//!
//! An address is a number with a family, the first bit the greatest. A `Prefix` is an address and
//! how many of its bits count; those behind are zero, so two prefixes are the same net exactly
//! where they are equal. Contracts see it as a `Net`. The order of nets is by family, then by
//! address, then by length.
//!
//! `parse_..` reads a whole text, `read_..` the longest front of a text's bytes that an address or
//! a prefix can have. Each gives a value exactly where the text spells it, and what is written of a
//! value is read as this value (`laws`). `OutOfMemory` stands here because each crate above answers
//! it.
#![tactic(auto)]

mod address;
mod ipv6;
pub mod laws;
mod memory;
mod numbers;
mod out;
mod prefix;
mod read;
mod read_v6;
mod write;

pub use address::{Addr, Family};
pub use memory::OutOfMemory;
pub use numbers::{parse_decimal, write_number};
pub use out::TextOut;
pub use prefix::{NotPrefix, Prefix};
pub use read::{BadText, parse_addr, parse_prefix, parse_v4, read_addr, read_prefix};
pub use write::{append_addr, append_prefix, write_addr, write_prefix};
