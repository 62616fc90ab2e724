//! The lines of a text, and the words of a line.
//!
//! They are written in brackets, one behind another, with `\t` for a tab and `\r` for a return; `-`
//! is none.
use std::alloc::Global;
use std::io;
use text::{cut_line, next_word};

/// What a text is cut into.
#[derive(Clone, Copy, Debug)]
pub enum Table {
    Lines,
    Words,
}

fn push_piece(piece: &[u8], out: &mut String) -> io::Result<()> {
    out.push('[')?;
    for byte in piece {
        match byte {
            b'\t' => out.push_str("\\t")?,
            b'\r' => out.push_str("\\r")?,
            other => out.push(char::from(*other))?,
        }
    }
    out.push(']')?;
    Ok(())
}

fn lines_text(alloc: Global, text: &[u8]) -> io::Result<String> {
    let mut out = String::new(alloc);
    let mut rest = text;
    while let Some((line, after)) = cut_line(rest) {
        push_piece(line, &mut out)?;
        rest = after;
    }
    Ok(out)
}

fn words_text(alloc: Global, text: &[u8]) -> io::Result<String> {
    let mut out = String::new(alloc);
    let mut rest = text;
    while let Some((word, after)) = next_word(rest) {
        push_piece(word, &mut out)?;
        rest = after;
    }
    Ok(out)
}

/// The pieces of a text.
pub fn answer(alloc: Global, table: Table, text: &[u8]) -> io::Result<String> {
    let pieces = match table {
        Table::Lines => lines_text(alloc, text)?,
        Table::Words => words_text(alloc, text)?,
    };
    if pieces.is_empty() {
        return Ok(String::from_str(alloc, "-")?);
    }
    Ok(pieces)
}
