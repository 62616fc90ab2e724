//! What the cases of sets and of values are written in.
use filt_sets::IntItem;
use std::io;
use std::io::{Error, ErrorKind};

/// The error of a case that isn't in the notation.
pub fn bad() -> Error {
    Error::from(ErrorKind::InvalidData)
}

/// What stands between the two texts that surround it.
pub fn inside<'a>(text: &'a str, open: &str, close: &str) -> Option<&'a str> {
    text.strip_prefix(open)?.strip_suffix(close)
}

/// The two sides of the text between them.
pub fn sides<'a>(text: &'a str, between: &str) -> io::Result<(&'a str, &'a str)> {
    Ok(text.split_once(between).ok_or(bad())?)
}

pub fn number(text: &str) -> io::Result<u32> {
    text.parse::<u32>().map_err(|_| bad())
}

/// A number of 16 bits.
fn part(text: &str) -> io::Result<u16> {
    u16::try_from(number(text)?).map_err(|_| bad())
}

/// Two numbers of 16 bits and a comma between them.
pub fn pair(text: &str) -> io::Result<(u16, u16)> {
    let (first, second) = sides(text, ",")?;
    Ok((part(first)?, part(second)?))
}

/// A range `lo..hi`, or a number alone.
pub fn range(text: &str) -> io::Result<IntItem> {
    let (lo, hi) = text.split_once("..").unwrap_or((text, text));
    Ok(IntItem {
        lo: number(lo)?,
        hi: number(hi)?,
    })
}
