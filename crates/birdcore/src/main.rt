//! The program: it plays or runs a script over a configuration, and reports what came about.
//!
//! All that it does is one call, `top`, over the system's files and standard output. Here
//! the status that comes back becomes a line on standard error and an exit status.
#![tactic(auto)]

use birdcore_top::Status;
use birdcore_top::top::top;
use outside_io::{FileShelf, OpenGate, StdSink};
use std::env;
use std::io::ErrorKind;
use std::process::ExitCode;

/// The program's words, behind its name.
fn words_of(rt: &HostRuntime) -> Result<Vec<String>, Status> {
    let mut words = Vec::new(rt.alloc());
    match env::args(rt) {
        Ok(args) => {
            for word in args.skip(1) {
                if words.push(word).is_err() {
                    return Err(Status::OutOfMemory);
                }
            }
            Ok(words)
        }
        Err(error) if error.kind() == ErrorKind::OutOfMemory => Err(Status::OutOfMemory),
        Err(_) => Err(Status::Usage),
    }
}

fn main(rt: HostRuntime) -> ExitCode {
    let status = match words_of(&rt) {
        Ok(words) => {
            let mut shelf = FileShelf::new(&rt);
            let mut out = StdSink::new(&rt);
            top(&rt, rt.alloc(), &words, &mut shelf, &mut out, &OpenGate)
        }
        Err(status) => status,
    };
    if status != Status::Ok {
        let _ = eprintln!(&rt; "{status}");
    }
    ExitCode::from(status.number())
}
