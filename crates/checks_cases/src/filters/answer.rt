//! What is answered to an input.
ghost use Rattle.std.specs.Prelude.{◌<◌, ◌^◌, ◌-◌, IfOk, length};
ghost use Rattle.conf_system.specs.Coded.{AllCanRun};

use crate::deciding::verdict;
use crate::faults::{bad, no_memory};
use crate::filters::judging::see;
use attrs::{Attrs, Names, Verdict};
use case_routes::{read_route, write_changes};
use conf_system::{System, read_system};
use conf_tree::{ConfFault, place, read_config};
use filt_check::TypeFault;
use std::alloc::{AllocError, Global};
use std::io;
use std::io::{Error, ErrorKind};

/// The longest configuration of a case, in bytes.
const LONGEST: usize = 1_000_000;

/// What stands between a route and a configuration.
const MARK: u8 = b'@';

/// The route's words and the configuration.
fn parts(input: &[u8]) -> (&[u8], &[u8]) {
    let Some(mark) = input.iter().position(|byte| *byte == MARK) else {
        return (&[], input);
    };
    let (words, rest) = input.split_at(mark);
    (words, rest.get(2..).unwrap_or(&[]))
}

fn refused(alloc: Global, text: &[u8], at: usize, kind: &str) -> Result<String, AllocError>
    requires { length text.now < 2 ^ 32 - 1 }
{
    let (line, column) = place(text, at.min(text.len()));
    format!(in alloc; "{line}:{column} {kind}")
}

fn refusal(alloc: Global, text: &[u8], fault: TypeFault) -> io::Result<String>
    requires { length text.now < 2 ^ 32 - 1 }
{
    match fault {
        TypeFault::UnknownName { at } => Ok(refused(alloc, text, at, "C4 UnknownName")?),
        TypeFault::DuplicateName { at } => Ok(refused(alloc, text, at, "C5 DuplicateName")?),
        TypeFault::Mismatch { at } => Ok(refused(alloc, text, at, "C6 TypeMismatch")?),
        TypeFault::NotAssignable { at } => Ok(refused(alloc, text, at, "C7 NotAssignable")?),
        TypeFault::TooHeavy { at, weight } => {
            let kind = format!(in alloc; "C8 TooHeavy {weight}")?;
            Ok(refused(alloc, text, at, &kind)?)
        }
        TypeFault::Limit { at } => Ok(refused(alloc, text, at, "C14 Limit")?),
        TypeFault::Memory => Err(Error::from(ErrorKind::OutOfMemory)),
    }
}

fn accepted(alloc: Global, before: &Attrs, after: &Attrs) -> io::Result<String> {
    let mut out = b"accept".as_slice().to_vec(alloc)?;
    write_changes(before, after, &mut out).map_err(no_memory)?;
    String::from_utf8(out).map_err(|_| bad())
}

/// The system with one name of a protocol, `p1`: the one that the routes of cases come from.
fn with_name(alloc: Global, system: System) -> io::Result<System>
    requires { AllCanRun system }
    ensures { IfOk result AllCanRun }
{
    let names = Names::make(vec![in alloc; String::from_str(alloc, "p1")?]?);
    let System { checked, .. } = system;
    Ok(System { checked, names })
}

fn judged(alloc: Global, system: &System, words: &[u8]) -> io::Result<String>
    requires { AllCanRun system.now }
{
    let code = system.code(alloc).map_err(no_memory)?;
    let (net, route) = read_route(alloc, words)?;
    match verdict(alloc, system, &code, &net, &route).map_err(no_memory)? {
        Some(Verdict::Accept(after)) => accepted(alloc, &route.attrs, &after),
        Some(Verdict::Reject(None)) => Ok(String::from_str(alloc, "reject")?),
        Some(Verdict::Reject(Some(fault))) => Ok(format!(in alloc; "fault {fault:?}")?),
        None => Ok(String::from_str(alloc, "no filter")?),
    }
}

fn answer_accepted(alloc: Global, words: &[u8], text: &[u8]) -> io::Result<String>
    requires { length text.now < 2 ^ 32 - 1 }
{
    match read_system(alloc, text) {
        Ok(system) => judged(alloc, &with_name(alloc, system)?, words),
        Err(fault) => Ok(format!(in alloc; "{fault}")?),
    }
}

fn answer_text(alloc: Global, words: &[u8], text: &[u8]) -> io::Result<String>
    requires { length text.now < 2 ^ 32 - 1 }
{
    match read_config(alloc, text) {
        Ok(config) => match see(alloc, &config)? {
            Ok(()) => answer_accepted(alloc, words, text),
            Err(fault) => refusal(alloc, text, fault),
        },
        Err(ConfFault::Refused { at, kind }) => {
            let (line, column) = place(text, at);
            Ok(format!(in alloc; "{line}:{column} {kind}")?)
        }
        Err(ConfFault::Memory) => Err(Error::from(ErrorKind::OutOfMemory)),
    }
}

/// What the filter of an input says of its route: `accept` and the attributes that it changed,
/// `reject`, or `fault` and which one; or the line, the column and the kind of its refusal, of a
/// filter that is too heavy with its weight.
pub fn answer(alloc: Global, input: &[u8]) -> io::Result<String> {
    let (words, text) = parts(input);
    if text.len() > LONGEST {
        return Err(Error::from(ErrorKind::FileTooLarge));
    }
    answer_text(alloc, words, text)
}
