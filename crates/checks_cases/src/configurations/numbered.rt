//! Inputs in which many things have names.
use bits_ip::{OutOfMemory, write_number};
use std::alloc::Global;

/// The configuration that an input stands for: each `$` is a number, counted from 1. So a piece
/// that is repeated declares another name each time.
pub fn numbered(alloc: Global, input: &[u8]) -> Result<Vec<u8>, OutOfMemory> {
    let mut out = Vec::new(alloc);
    let mut number: u32 = 0;
    for byte in input {
        if *byte == b'$' {
            number = number.saturating_add(1);
            write_number(number, &mut out)?;
        } else {
            out.push(*byte)?;
        }
    }
    Ok(out)
}
