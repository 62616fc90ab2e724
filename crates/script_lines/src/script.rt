//! A script and its lines.
ghost use Rattle.std.specs.Prelude.{◌≡◌, ◌<◌, ◌+◌, ◌-◌, ◌^◌, length, map, MatchResult};
ghost use Rattle.script_lines.specs.Script.{Answers, Accepted, Tells};
ghost use Rattle.script_lines.specs.Kinds.{AreFew};
ghost use Rattle.script_lines.specs.Inside.{Finishes, fault_at};

use crate::faults::ScriptFault;
use crate::named::{Name, Named};
use crate::reading::{Reading, read_one};
use crate::refusal::LineFault;
use import_core::Op;
use show_route::Query;
use std::alloc::Global;
use text::cut_line;

/// A line of a script that does or asks something. Channels, actors and protocols have their
/// numbers from 0.
#[derive(Debug, Drop)]
pub enum Line {
    /// The channel takes so many entries.
    Take {
        channel: u32,
        count: u32,
    },
    /// The channel pushes so many nets.
    Push {
        channel: u32,
        count: u32,
    },
    /// An operation on a protocol.
    Apply {
        actor: u32,
        /// The line's number in the script. All lines are counted, from 1.
        line: u32,
        protocol: u32,
        op: Op,
    },
    /// `show route`.
    Show {
        actor: u32,
        /// The query's number.
        query: u32,
    },
}

/// A condition: what stands behind `where`, to the line's end.
#[derive(Debug, Drop)]
pub struct Condition {
    /// The line's number in the script.
    pub line: u32,
    /// Its bytes. Whether they say anything isn't known yet.
    pub text: Name,
}

/// What a script says.
#[derive(Debug, Drop)]
pub struct Script {
    /// The lines of each phase. A script of k `sync` lines has k + 1 phases.
    pub phases: Vec<Vec<Line>>,
    /// Who speaks, in the order of their first lines.
    pub actors: Vec<Name>,
    /// What each `show route` asks, in the order of lines. Tables, protocols and filters have their
    /// numbers from 0. The filter of a query with a condition is the condition's place among
    /// conditions, behind all filters that have names.
    pub queries: Vec<Query>,
    /// The conditions, in the order of lines.
    pub conditions: Vec<Condition>,
}

/// Reads a script over what a configuration declares. Commands have the names of BIRD's client
/// (BIRD User's Guide, "Remote control").
///
/// A newline ends a line, the last one may do without, and a return directly before a newline is
/// dropped. Spaces and tabs separate words. Blank lines and comments, whose first word begins with
/// `#`, say nothing and are counted.
///
/// # Errors
/// `Refused` exactly where a line is refused, with the number of the first one, the least kind that
/// applies to it, and the conditions of the lines before it. Of a condition only its place is
/// judged. `Memory` where memory was wanted and not given.
pub fn read_script(alloc: Global, text: &[u8], named: &Named) -> Result<Script, ScriptFault>
    requires short { length named.now.filters + length text.now < 2 ^ 32 - 1 }
    requires few { AreFew named.now }
    ensures { MatchResult result
        (λ script. Answers named.now text.now
        (Accepted (map (λ phase. phase.items) script.phases.items) script.actors.items
        script.queries.items script.conditions.items))
        (Tells named.now text.now) }
{
    let mut reading = Reading::new(alloc);
    let mut number: u32 = 0;
    let mut rest = text;
    while let Some((line, after)) = cut_line(rest) {
        number += 1;
        match read_one(alloc, named, number, line, &mut reading) {
            Ok(()) => {}
            Err(fault) => return Err(at_line(number, fault, reading)),
        }
        rest = after;
    }
    finish(reading)
}

/// The fault of the line of this number, behind those that were read.
fn at_line(line: u32, fault: LineFault, reading: Reading) -> ScriptFault
    ensures { result ≡ fault_at line fault reading }
{
    match fault {
        LineFault::Refused(kind) => ScriptFault::Refused {
            line,
            kind,
            conditions: reading.conditions,
        },
        LineFault::Memory => ScriptFault::Memory,
    }
}

/// What all lines come to.
fn finish(reading: Reading) -> Result<Script, ScriptFault>
    ensures { Finishes reading result }
{
    let mut phases = reading.phases;
    if phases.push(reading.lines).is_err() {
        return Err(ScriptFault::Memory);
    }
    Ok(Script {
        phases,
        actors: reading.actors,
        queries: reading.queries,
        conditions: reading.conditions,
    })
}
