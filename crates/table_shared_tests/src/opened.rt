//! A table for a test, with its seats.
ghost use Rattle.std.specs.Prelude.{◌<◌, ◌≤◌, ◌^◌};

use crate::Bench;
use bits_ip::OutOfMemory;
use std::alloc::Global;
use std::process::Abort;

/// A table without routes, with two ports and a cursor, which is closed.
pub fn opened(rt: &impl Abort, alloc: Global, cells: u32, start: u64) -> Result<Bench, OutOfMemory>
    requires { (0 < cells) × (cells ≤ 4096) × (start < 2 ^ 63) }
{
    match Bench::open(alloc, cells, start)? {
        Some(bench) => Ok(bench),
        None => panic!(rt; "a table without its ports or its cursor"),
    }
}
