//! The errors of cases.
use bits_ip::OutOfMemory;
use std::io::{Error, ErrorKind};

/// The error of a case that isn't in the notation.
pub fn bad() -> Error {
    Error::from(ErrorKind::InvalidData)
}

pub fn no_memory(_: OutOfMemory) -> Error {
    Error::from(ErrorKind::OutOfMemory)
}
