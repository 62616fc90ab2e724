//! Tries entries and their words, which files of cases hold: each entry is written as its words,
//! and read back from them; and words of no entry are refused.
#![tactic(auto)]

mod entry;
mod fields;

use crate::entry::read_entry;
use crate::fields::bad;
use attrs::{JEntry, Route};
use cases::{Case, Tally, read};
use jour_rule::buf::Buf;
use rec_words::{WordsFault, get_words, put_words};
use std::alloc::Global;
use std::io;
use std::process::ExitCode;

fn words(alloc: Global, text: &str) -> io::Result<Vec<u64>> {
    let mut words = Vec::new(alloc);
    for word in text.split_whitespace() {
        words.push(word.parse::<u64>().map_err(|_| bad())?)?;
    }
    Ok(words)
}

fn is_same_route(one: Option<&Route>, other: Option<&Route>) -> bool {
    match (one, other) {
        (Some(one), Some(other)) => one.is_same(other),
        (None, None) => true,
        _ => false,
    }
}

fn is_same(one: &JEntry, other: &JEntry) -> bool {
    one.net == other.net
        && one.num == other.num
        && is_same_route(one.new.as_ref(), other.new.as_ref())
        && is_same_route(one.best.as_ref(), other.best.as_ref())
}

fn is_read_as(alloc: Global, words: &[u64], entry: &JEntry) -> bool {
    match get_words(alloc, words) {
        Ok(read) => is_same(&read, entry),
        Err(_) => false,
    }
}

fn is_written_as(entry: &JEntry, words: &[u64]) -> bool {
    let mut buf = Buf::new();
    put_words(entry, &mut buf);
    buf.words() == words
}

/// Whether the entry is written as the words, and they are read as the entry: `WORDS = ENTRY`.
fn both_ways(alloc: Global, case: &str) -> io::Result<&'static str> {
    let (left, right) = case.split_once(" = ").ok_or(bad())?;
    let words = words(alloc, left)?;
    let entry = read_entry(alloc, right)?;
    if !is_written_as(&entry, &words) {
        return Ok("other words");
    }
    Ok(if is_read_as(alloc, &words, &entry) {
        "same"
    } else {
        "another entry"
    })
}

/// Whether the words are those of an entry.
fn is_entry(alloc: Global, case: &str) -> io::Result<&'static str> {
    let words = words(alloc, case)?;
    Ok(match get_words(alloc, &words) {
        Ok(_) => "an entry",
        Err(WordsFault::BadWords) => "no entry",
        Err(WordsFault::Memory) => "no memory",
    })
}

fn entries(rt: &HostRuntime, name: &str) -> io::Result<bool> {
    let mut tally = Tally::new(name);
    for case in read(rt, name)?.iter() {
        let text = str::from_utf8(case.input.as_slice()).map_err(|_| bad())?;
        tally.note(rt, case, both_ways(rt.alloc(), text)?)?;
    }
    tally.finish(rt)
}

fn refused(rt: &HostRuntime, name: &str) -> io::Result<bool> {
    let mut tally = Tally::new(name);
    for case in read(rt, name)?.iter() {
        let text = str::from_utf8(case.input.as_slice()).map_err(|_| bad())?;
        tally.note(rt, case, is_entry(rt.alloc(), text)?)?;
    }
    tally.finish(rt)
}

fn main(rt: HostRuntime) -> io::Result<ExitCode> {
    let entries = entries(&rt, "entries.txt")?;
    let refused = refused(&rt, "refused.txt")?;
    Ok(if entries && refused {
        ExitCode::SUCCESS
    } else {
        ExitCode::FAILURE
    })
}
