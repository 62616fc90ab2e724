//! What a query is answered.
//!
//! An input is `CONF SCRIPT @@ QUERY`: the names of two files, and what stands behind `show route`
//! in a line behind the script; `-` stands for nothing.
use crate::plays::{bad_line, done, put_file, status_of, text_of};
use birdcore_top::Status;
use outside_io::MemFile;
use std::alloc::Global;
use std::random::RandomSource;
use std::sync::Wait;
use std::thread::Threads;
use std::{fs, io};

/// The two files, with the query behind the script.
fn files_asked(rt: &HostRuntime, names: &str, query: &str) -> io::Result<Vec<MemFile>> {
    let (conf, script) = names.split_once(' ').ok_or(bad_line())?;
    let asked = if query == "-" { "" } else { query };
    let line = format!(in rt.alloc(); "@x show route {asked}\n")?;
    let mut lines = fs::read(rt, script)?;
    lines.extend_from_slice(line.as_bytes())?;
    let mut files = Vec::new(rt.alloc());
    put_file(rt.alloc(), "conf", fs::read(rt, conf)?, &mut files)?;
    put_file(rt.alloc(), "script", lines, &mut files)?;
    Ok(files)
}

/// The text with newlines and tabs as `\n` and `\t`.
fn escaped(alloc: Global, text: &str) -> io::Result<String> {
    let mut out = String::new(alloc);
    for letter in text.chars() {
        match letter {
            '\n' => out.push_str("\\n")?,
            '\t' => out.push_str("\\t")?,
            letter => out.push(letter)?,
        }
    }
    Ok(out)
}

/// The one reply of the actor `x` in a report.
fn reply_in(report: &str) -> io::Result<&str> {
    let (_, behind) = report.split_once("\nreply x ").ok_or(bad_line())?;
    let (reply, _) = behind.split_once("\nstate\n").ok_or(bad_line())?;
    Ok(reply)
}

/// The reply to the query of an input, with its heading.
pub fn reply<T: RandomSource + Threads + Wait + Sync>(
    rt: &HostRuntime,
    threads: &T,
    input: &[u8],
) -> io::Result<String> {
    let (names, query) = text_of(input)?.split_once(" @@ ").ok_or(bad_line())?;
    let (status, text) = done(
        rt,
        threads,
        files_asked(rt, names, query)?,
        "play conf script",
    )?;
    if status != Status::Ok {
        return status_of(rt, status, text.as_slice());
    }
    let reply = reply_in(text_of(text.as_slice())?)?;
    let whole = format!(in rt.alloc(); "reply x {reply}\n")?;
    escaped(rt.alloc(), whole.as_str())
}
