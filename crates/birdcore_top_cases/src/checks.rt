//! What `check` answers and writes.
//!
//! An input is `CONF @@ SCRIPT`, the two files' texts, or `CONF` alone; `none` stands for a file
//! that isn't there.
use crate::plays::{done, files_with, status_of, text_of};
use birdcore_top::Status;
use outside_io::MemFile;
use std::io;
use std::random::RandomSource;
use std::sync::Wait;
use std::thread::Threads;

/// What the program answers to these words over these files, and `ok` where it writes that.
fn checked<T: RandomSource + Threads + Wait + Sync>(
    rt: &HostRuntime,
    threads: &T,
    files: Vec<MemFile>,
    words: &str,
) -> io::Result<String> {
    let (status, text) = done(rt, threads, files, words)?;
    if status == Status::Ok && text.as_slice() == b"ok\n".as_slice() {
        Ok(String::from_str(rt.alloc(), "ok")?)
    } else {
        status_of(rt, status, text.as_slice())
    }
}

/// What the check of an input answers.
pub fn answer<T: RandomSource + Threads + Wait + Sync>(
    rt: &HostRuntime,
    threads: &T,
    input: &[u8],
) -> io::Result<String> {
    let text = text_of(input)?;
    match text.split_once(" @@ ") {
        Some((conf, script)) => {
            let files = files_with(rt.alloc(), conf, script)?;
            checked(rt, threads, files, "check conf script")
        }
        None => checked(
            rt,
            threads,
            files_with(rt.alloc(), text, "none")?,
            "check conf",
        ),
    }
}

/// What a play came to, and how a check of its files differs from what is wanted.
fn beside(rt: &HostRuntime, played: String, wanted: bool, checked: &str) -> io::Result<String> {
    if wanted {
        Ok(played)
    } else {
        Ok(format!(in rt.alloc(); "{played}, and checked: {checked}")?)
    }
}

/// The status of a play, where the check of its files has the same.
pub fn checked_so<T: RandomSource + Threads + Wait + Sync>(
    rt: &HostRuntime,
    threads: &T,
    played: String,
    files: Vec<MemFile>,
) -> io::Result<String> {
    let checked = checked(rt, threads, files, "check conf script")?;
    let wanted = checked.as_str() == played.as_str();
    beside(rt, played, wanted, checked.as_str())
}

/// What a play wrote, where the check of its files writes `ok`.
pub fn also_checked<T: RandomSource + Threads + Wait + Sync>(
    rt: &HostRuntime,
    threads: &T,
    played: String,
    files: Vec<MemFile>,
) -> io::Result<String> {
    let checked = checked(rt, threads, files, "check conf script")?;
    beside(rt, played, checked.as_str() == "ok", checked.as_str())
}
