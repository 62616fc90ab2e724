//! What a play or a run answers and writes.
//!
//! An input is `CONF @@ SCRIPT`, the two files' texts; `none` stands for a file that isn't there.
//! Where the files lie beside the table it is `CONF SCRIPT`, their names, and what stands behind
//! them is given to the command behind its three words. What is refused is checked too, with the
//! same answer, and what is played is accepted by a check.
use crate::checks::{also_checked, checked_so};
use birdcore_top::Status;
use birdcore_top::top::top;
use outside_io::{MemFile, MemShelf, MemSink, OpenGate};
use std::alloc::Global;
use std::io::{Error, ErrorKind};
use std::random::RandomSource;
use std::sync::Wait;
use std::thread::Threads;
use std::{fs, io, str};

/// The error of a case that isn't in the notation.
pub fn bad_line() -> Error {
    Error::from(ErrorKind::InvalidData)
}

pub fn text_of(input: &[u8]) -> io::Result<&str> {
    let Ok(text) = str::from_utf8(input) else {
        return Err(bad_line());
    };
    Ok(text)
}

pub fn put_file(
    alloc: Global,
    name: &str,
    bytes: Vec<u8>,
    files: &mut Vec<MemFile>,
) -> io::Result<()> {
    let name = String::from_str(alloc, name)?;
    files.push(MemFile::new(name, bytes))?;
    Ok(())
}

/// The files of these texts.
pub fn files_with(alloc: Global, conf: &str, script: &str) -> io::Result<Vec<MemFile>> {
    let mut files = Vec::new(alloc);
    for (name, text) in [("conf", conf), ("script", script)] {
        if text != "none" {
            put_file(alloc, name, text.as_bytes().to_vec(alloc)?, &mut files)?;
        }
    }
    Ok(files)
}

fn files_of(alloc: Global, input: &[u8]) -> io::Result<Vec<MemFile>> {
    let (conf, script) = text_of(input)?.split_once(" @@ ").ok_or(bad_line())?;
    files_with(alloc, conf, script)
}

fn files_at(rt: &HostRuntime, conf: &str, script: &str) -> io::Result<Vec<MemFile>> {
    let mut files = Vec::new(rt.alloc());
    for (name, source) in [("conf", conf), ("script", script)] {
        put_file(rt.alloc(), name, fs::read(rt, source)?, &mut files)?;
    }
    Ok(files)
}

/// The words of a text, between which one space each stands.
fn words_of(alloc: Global, text: &str) -> io::Result<Vec<String>> {
    let mut words = Vec::new(alloc);
    for word in text.split(' ') {
        words.push(String::from_str(alloc, word)?)?;
    }
    Ok(words)
}

/// The status of the program with these words over these files, and what was written.
pub fn done<T: RandomSource + Threads + Wait + Sync>(
    rt: &HostRuntime,
    threads: &T,
    files: Vec<MemFile>,
    words: &str,
) -> io::Result<(Status, Vec<u8>)> {
    let alloc = rt.alloc();
    let words = words_of(alloc, words)?;
    let mut shelf = MemShelf::new(alloc, files);
    let mut sink = MemSink::new(alloc);
    let status = top(threads, alloc, &words, &mut shelf, &mut sink, &OpenGate);
    Ok((status, sink.bytes))
}

/// The status, and that something was written beside a status with which nothing should be.
pub fn status_of(rt: &HostRuntime, status: Status, text: &[u8]) -> io::Result<String> {
    if text.is_empty() {
        Ok(format!(in rt.alloc(); "{status}")?)
    } else {
        let len = text.len();
        Ok(format!(in rt.alloc(); "{status}, {len} bytes written")?)
    }
}

/// Whether a file of that name holds this text.
fn is_held(rt: &HostRuntime, name: &str, text: &[u8]) -> bool {
    match fs::read(rt, name) {
        Ok(held) => text == held.as_slice(),
        Err(_) => false,
    }
}

/// The name of the expected report's file where the program is done and wrote it, `ok` where it
/// wrote that, and else what it did.
fn compared(rt: &HostRuntime, name: &str, status: Status, text: &[u8]) -> io::Result<String> {
    if status != Status::Ok {
        return status_of(rt, status, text);
    }
    let answer = if text == b"ok\n".as_slice() {
        "ok"
    } else if is_held(rt, name, text) {
        name
    } else {
        "another report"
    };
    Ok(String::from_str(rt.alloc(), answer)?)
}

/// The status of the play of an input.
pub fn answer<T: RandomSource + Threads + Wait + Sync>(
    rt: &HostRuntime,
    threads: &T,
    input: &[u8],
) -> io::Result<String> {
    let files = files_of(rt.alloc(), input)?;
    let (status, text) = done(rt, threads, files, "play conf script")?;
    let played = status_of(rt, status, text.as_slice())?;
    checked_so(rt, threads, played, files_of(rt.alloc(), input)?)
}

fn script_over(rt: &HostRuntime, input: &[u8]) -> io::Result<Vec<MemFile>> {
    let (conf, script) = text_of(input)?.split_once(" @@ ").ok_or(bad_line())?;
    let script = script.as_bytes().to_vec(rt.alloc())?;
    let mut files = Vec::new(rt.alloc());
    put_file(rt.alloc(), "conf", fs::read(rt, conf)?, &mut files)?;
    put_file(rt.alloc(), "script", script, &mut files)?;
    Ok(files)
}

/// The status of the play of a script, which stands behind the name of a configuration's file.
pub fn refusal<T: RandomSource + Threads + Wait + Sync>(
    rt: &HostRuntime,
    threads: &T,
    input: &[u8],
) -> io::Result<String> {
    let (status, text) = done(rt, threads, script_over(rt, input)?, "play conf script")?;
    let played = status_of(rt, status, text.as_slice())?;
    checked_so(rt, threads, played, script_over(rt, input)?)
}

/// The status of the run of a script, which stands behind the name of a configuration's file.
pub fn barred<T: RandomSource + Threads + Wait + Sync>(
    rt: &HostRuntime,
    threads: &T,
    input: &[u8],
) -> io::Result<String> {
    let (status, text) = done(rt, threads, script_over(rt, input)?, "run conf script")?;
    status_of(rt, status, text.as_slice())
}

/// What the program answers to these words over two files that are played by `play conf script`,
/// or what it writes: `ok`, or the name of the expected report.
pub fn words<T: RandomSource + Threads + Wait + Sync>(
    rt: &HostRuntime,
    threads: &T,
    name: &str,
    input: &[u8],
) -> io::Result<String> {
    let files = files_at(rt, "one_peer.conf", "one_route.script")?;
    let (status, text) = done(rt, threads, files, text_of(input)?)?;
    compared(rt, name, status, text.as_slice())
}

/// Which report the play of an input writes.
pub fn report<T: RandomSource + Threads + Wait + Sync>(
    rt: &HostRuntime,
    threads: &T,
    name: &str,
    input: &[u8],
) -> io::Result<String> {
    let files = files_of(rt.alloc(), input)?;
    let (status, text) = done(rt, threads, files, "play conf script")?;
    let played = compared(rt, name, status, text.as_slice())?;
    also_checked(rt, threads, played, files_of(rt.alloc(), input)?)
}

/// Which report the command of this word, `play` or `run`, writes of files of these names.
pub fn play<T: RandomSource + Threads + Wait + Sync>(
    rt: &HostRuntime,
    threads: &T,
    word: &str,
    name: &str,
    input: &[u8],
) -> io::Result<String> {
    let (conf, rest) = text_of(input)?.split_once(' ').ok_or(bad_line())?;
    let (script, more) = rest.split_once(' ').unwrap_or((rest, ""));
    let files = files_at(rt, conf, script)?;
    let mut words = format!(in rt.alloc(); "{word} conf script")?;
    if !more.is_empty() {
        words = format!(in rt.alloc(); "{word} conf script {more}")?;
    }
    let (status, text) = done(rt, threads, files, words.as_str())?;
    let played = compared(rt, name, status, text.as_slice())?;
    also_checked(rt, threads, played, files_at(rt, conf, script)?)
}

/// Which report a run of files of these names writes, each of a hundred times: the first other one.
pub fn runs<T: RandomSource + Threads + Wait + Sync>(
    rt: &HostRuntime,
    threads: &T,
    name: &str,
    input: &[u8],
) -> io::Result<String> {
    for _ in 0..99 {
        let written = play(rt, threads, "run", name, input)?;
        if written.as_str() != name {
            return Ok(written);
        }
    }
    play(rt, threads, "run", name, input)
}
