//! Scripts, with what their conditions ask for.
ghost use Rattle.std.specs.Prelude.{◌<◌, ◌+◌, ◌-◌, ◌^◌, ℕ, All, IfOk, List, MatchResult, length, map};
ghost use Rattle.script_lines.specs.Script as lines;
ghost use Rattle.script_lines.specs.declared.script.Condition.{Condition};
ghost use Rattle.sys_build.specs.Scripts.{Accepted, Answers, AreAsked, Tells, TellsFirst, TellsOne};
ghost use Rattle.sys_build.specs.Names.{named_of};
ghost use Rattle.conf_system.specs.Coded.{AllCanRun, CanRunOver};
ghost use Rattle.conf_system.specs.Conditions.{IsCondition};
ghost use Rattle.conf_system.specs.Seen.{filter_says, system_of};
ghost use Rattle.conf_system.specs.Texts.{IsSystem};

use crate::laws::{accepted_configurations_are_few, accepted_configurations_have_their_tables};
use crate::names::named;
use bits_ip::OutOfMemory;
use conf_system::System;
use conf_system::laws::configurations_have_few_tables_and_filters;
use filt_meaning::TFilter;
use script_lines::laws::conditions_are_short;
use script_lines::{Condition, Line, Name, Script, ScriptFault, ScriptKind};
use show_route::Query;
use std::alloc::{AllocFailed, Global};
use thiserror::Error;

/// What a script says over a configuration.
#[derive(Drop)]
pub struct ReadScript {
    /// The lines of each phase.
    pub phases: Vec<Vec<Line>>,
    /// Who speaks, in the order of their first lines.
    pub actors: Vec<Name>,
    /// What each `show route` asks, in the order of lines.
    pub queries: Vec<Query>,
    /// The conditions, in the order of lines. Their numbers are behind those of the configuration's
    /// filters.
    pub filters: Vec<TFilter>,
}

/// Why a text isn't read as a script.
#[derive(Clone, Copy, Debug, PartialEq, Eq, Drop, Error)]
pub enum ReadFault {
    /// The line of this number is refused. It is the first such line; all lines are counted, from
    /// 1.
    #[error("{line} {kind}")]
    Refused { line: u32, kind: ScriptKind },
    #[error("out of memory")]
    Memory,
}

/// Reads a script over an accepted configuration: its lines, and the conditions in them.
///
/// # Errors
/// `Refused` exactly where a line is refused, with the number of the first one and the least kind
/// that applies to it; that a condition is refused, which stands behind `where`, is the last kind.
/// Where scripts may not schedule, a `!` line is refused.
pub fn read_script(
    alloc: Global,
    text: &[u8],
    system: &System,
    schedule: bool,
) -> Result<ReadScript, ReadFault>
    requires { (conf : List ℕ) × IsSystem conf (system_of system.now)
        × (length conf + length text.now < 2 ^ 32 - 1) }
    ensures told { MatchResult result
        (λ script. Answers (system_of system.now) schedule text.now
        (Accepted (map (λ phase. phase.items) script.phases.items) script.actors.items
        script.queries.items (map (filter_says system.now) script.filters.items)))
        (Tells (system_of system.now) schedule text.now) }
    ensures before { AllCanRun system.now
        → IfOk result (λ script. All (CanRunOver system.now) script.filters.items) }
{
    accepted_configurations_are_few();
    accepted_configurations_have_their_tables();
    configurations_have_few_tables_and_filters();
    let named = match named(alloc, system, schedule) {
        Ok(named) => named,
        Err(OutOfMemory) => return Err(ReadFault::Memory),
    };
    match script_lines::read_script(alloc, text, &named) {
        Ok(script) => accepted(alloc, text, system, schedule, script),
        Err(
            ScriptFault::Refused {
                line,
                kind,
                conditions,
            },
        ) => refused(alloc, text, system, schedule, line, kind, &conditions),
        Err(ScriptFault::Memory) => Err(ReadFault::Memory),
    }
}

/// What lines come to of which none is refused for its words.
fn accepted(
    alloc: Global,
    text: &[u8],
    system: &System,
    schedule: bool,
    script: Script,
) -> Result<ReadScript, ReadFault>
    requires short { length text.now < 2 ^ 32 }
    requires lines { lines.Answers (named_of (system_of system.now) schedule) text.now
        (lines.Accepted (map (λ phase. phase.items) script.phases.items) script.actors.items
        script.queries.items script.conditions.items) }
    ensures told { MatchResult result
        (λ read. Answers (system_of system.now) schedule text.now
        (Accepted (map (λ phase. phase.items) read.phases.items) read.actors.items
        read.queries.items (map (filter_says system.now) read.filters.items)))
        (Tells (system_of system.now) schedule text.now) }
    ensures before { AllCanRun system.now
        → IfOk result (λ read. All (CanRunOver system.now) read.filters.items) }
{
    conditions_are_short();
    let filters = judged(alloc, system, &script.conditions)?;
    Ok(ReadScript {
        phases: script.phases,
        actors: script.actors,
        queries: script.queries,
        filters,
    })
}

/// What lines come to of which this one is the first that is refused for its words, behind these
/// conditions: it is refused, or the line of one of these.
fn refused(
    alloc: Global,
    text: &[u8],
    system: &System,
    schedule: bool,
    line: u32,
    kind: ScriptKind,
    conditions: &[Condition],
) -> Result<ReadScript, ReadFault>
    requires short { length text.now < 2 ^ 32 }
    requires lines { lines.Answers (named_of (system_of system.now) schedule) text.now
        (lines.Refused line kind conditions.now) }
    ensures told { MatchResult result
        (λ read. Answers (system_of system.now) schedule text.now
        (Accepted (map (λ phase. phase.items) read.phases.items) read.actors.items
        read.queries.items (map (filter_says system.now) read.filters.items)))
        (Tells (system_of system.now) schedule text.now) }
    ensures before { AllCanRun system.now
        → IfOk result (λ read. All (CanRunOver system.now) read.filters.items) }
{
    conditions_are_short();
    let _judged = judged(alloc, system, conditions)?;
    Err(ReadFault::Refused { line, kind })
}

/// What these conditions ask for, or the first that is refused.
fn judged(
    alloc: Global,
    system: &System,
    conditions: &[Condition],
) -> Result<Vec<TFilter>, ReadFault>
    requires { All (λ (condition : Condition). length condition.text < 2 ^ 32) conditions.now }
    ensures told { MatchResult result
        (λ filters. AreAsked (system_of system.now) conditions.now
        (map (filter_says system.now) filters.items))
        (TellsFirst (system_of system.now) conditions.now) }
    ensures before { AllCanRun system.now
        → IfOk result (λ filters. All (CanRunOver system.now) filters.items) }
{
    let mut filters = Vec::new(alloc);
    for condition in conditions {
        filters.push(judge(alloc, system, condition)?)?;
    }
    Ok(filters)
}

/// What a condition asks for, where it isn't refused.
fn judge(alloc: Global, system: &System, condition: &Condition) -> Result<TFilter, ReadFault>
    requires { length condition.now.text < 2 ^ 32 }
    ensures told { MatchResult result
        (λ filter. IsCondition (system_of system.now) condition.now.text
        (filter_says system.now filter))
        (TellsOne (system_of system.now) condition.now) }
    ensures before { AllCanRun system.now → IfOk result (CanRunOver system.now) }
{
    match system.condition(alloc, condition.text.as_slice()) {
        Ok(Some(filter)) => Ok(filter),
        Ok(None) => Err(ReadFault::Refused {
            line: condition.line,
            kind: ScriptKind::Expression,
        }),
        Err(OutOfMemory) => Err(ReadFault::Memory),
    }
}

impl From<AllocFailed<TFilter>> for ReadFault {
    ghost use Rattle.std.specs.Prelude.{◌≡◌};
    ghost use Rattle.sys_build.specs.declared.scripts.ReadFault.TheVariants.{Memory};

    ghost from_gives = { λ _ fault. fault ≡ Memory };

    fn from(_: AllocFailed<TFilter>) -> Self {
        ReadFault::Memory
    }
}
