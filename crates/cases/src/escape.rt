//! Inputs as they are written in a table.
use std::alloc::Global;
use std::io;
use std::io::{Error, ErrorKind};

/// Where in an input a reader stands.
#[derive(Clone, Copy, Debug, Drop)]
enum Place {
    Plain,
    /// Behind a backslash.
    Escaped,
    /// Behind `\x`, and behind its first digit.
    Hex,
    HexLow(u8),
    /// Behind a backslash and some decimal digits.
    Count(usize),
    /// Between the braces of a piece that is repeated.
    Body(usize),
    BodyEscaped(usize),
}

fn bad() -> Error {
    Error::from(ErrorKind::InvalidData)
}

fn letter(byte: u8) -> Option<u8> {
    match byte {
        b'n' => Some(b'\n'),
        b'r' => Some(b'\r'),
        b't' => Some(b'\t'),
        b'\\' | b'{' | b'}' => Some(byte),
        _ => None,
    }
}

fn hex_digit(byte: u8) -> Option<u8> {
    match byte {
        b'0'..=b'9' => Some(byte - b'0'),
        b'a'..=b'f' => Some(byte - b'a' + 10),
        _ => None,
    }
}

fn repeat(body: &[u8], count: usize, out: &mut Vec<u8>) -> io::Result<()> {
    for _ in 0..count {
        out.extend_from_slice(body)?;
    }
    Ok(())
}

/// What follows a backslash.
fn escaped(byte: u8, out: &mut Vec<u8>) -> io::Result<Place> {
    if byte == b'x' {
        return Ok(Place::Hex);
    }
    if byte.is_ascii_digit() {
        return Ok(Place::Count(usize::from(byte - b'0')));
    }
    out.push(letter(byte).ok_or(bad())?)?;
    Ok(Place::Plain)
}

fn count(number: usize, byte: u8) -> io::Result<Place> {
    if byte == b'{' {
        return Ok(Place::Body(number));
    }
    let digit = hex_digit(byte).ok_or(bad())?;
    Ok(Place::Count(number.saturating_mul(10).saturating_add(usize::from(digit))))
}

fn body(number: usize, byte: u8, body: &mut Vec<u8>, out: &mut Vec<u8>) -> io::Result<Place> {
    match byte {
        b'\\' => Ok(Place::BodyEscaped(number)),
        b'}' => {
            repeat(body.as_slice(), number, out)?;
            body.clear();
            Ok(Place::Plain)
        }
        _ => {
            body.push(byte)?;
            Ok(Place::Body(number))
        }
    }
}

fn step(place: Place, byte: u8, piece: &mut Vec<u8>, out: &mut Vec<u8>) -> io::Result<Place> {
    match place {
        Place::Plain if byte == b'\\' => Ok(Place::Escaped),
        Place::Plain => {
            out.push(byte)?;
            Ok(Place::Plain)
        }
        Place::Escaped => escaped(byte, out),
        Place::Hex => Ok(Place::HexLow(hex_digit(byte).ok_or(bad())?)),
        Place::HexLow(high) => {
            let low = hex_digit(byte).ok_or(bad())?;
            out.push((high << 4) | low)?;
            Ok(Place::Plain)
        }
        Place::Count(number) => count(number, byte),
        Place::Body(number) => body(number, byte, piece, out),
        Place::BodyEscaped(number) => {
            piece.push(letter(byte).ok_or(bad())?)?;
            Ok(Place::Body(number))
        }
    }
}

/// The bytes that an input of a table stands for.
///
/// `\n`, `\r`, `\t`, `\\`, `\{` and `\}` are one byte each, `\xHH` is the byte of two hexadecimal
/// digits in small letters, and `\N{TEXT}` is TEXT N times, N in decimal. Another backslash, or an
/// escape that isn't finished, is `InvalidData`.
pub fn unescape(alloc: Global, text: &[u8]) -> io::Result<Vec<u8>> {
    let mut out = Vec::new(alloc);
    let mut piece = Vec::new(alloc);
    let mut place = Place::Plain;
    for byte in text {
        place = step(place, *byte, &mut piece, &mut out)?;
    }
    match place {
        Place::Plain => Ok(out),
        _ => Err(bad()),
    }
}
