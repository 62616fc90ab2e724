//! One line after another.
ghost use Rattle.std.specs.Prelude.{◌≡◌, ◌∷◌, ◌≤◌, ◌<◌, ◌+◌, ◌^◌, ℕ, List, length, codes, IsTrue, ◌↔◌};
ghost use Rattle.std.specs.Prelude.{MatchOption};
ghost use Rattle.text.specs.Lines.{begins_with, behind_words, words_of};
ghost use Rattle.script_lines.specs.Grammar.{IsActor};
ghost use Rattle.script_lines.specs.Kinds.{AreFew};
ghost use Rattle.announcements.specs.Limits.{fits};
ghost use Rattle.script_lines.specs.Inside.{AreStep, Steps, mark_text, state_of};
ghost use Rattle.announcements.specs.Reading.{IsKept};
ghost use Rattle.script_lines.specs.Inside.{start, ReadsOne, ReadsLine, Numbers, Does};
ghost use Rattle.script_lines.specs.Inside.{HasRoom, PutsCondition, choice_after};
ghost use Rattle.script_lines.specs.declared.commands.Act.TheVariants.{Show};
ghost use Rattle.script_lines.specs.declared.reading.Mark.{Mark};

use crate::commands::{Act, read_command};
use crate::faults::ScriptKind;
use crate::named::{Name, Named, channel_of, place_of};
use crate::refusal::LineFault;
use crate::script::{Condition, Line};
use announcements::next_number;
use queries::is_name;
use show_route::Query;
use std::alloc::Global;
use std::mem;
use text::{is_end, next_word};

/// The most actors of a script.
const MAX_ACTORS: usize = 64;

/// The most bytes of an actor's name.
const MAX_NAME: usize = 64;

/// What the lines so far come to.
#[derive(Drop)]
pub struct Reading {
    /// Who has spoken, in the order of their first lines.
    pub actors: Vec<Name>,
    /// The phases that have ended.
    pub phases: Vec<Vec<Line>>,
    /// The lines of the phase that hasn't.
    pub lines: Vec<Line>,
    /// What was asked.
    pub queries: Vec<Query>,
    /// The conditions there.
    pub conditions: Vec<Condition>,
}

impl Reading {
    /// Nothing is read.
    pub fn new(alloc: Global) -> Reading
        ensures { state_of result ≡ start }
    {
        Reading {
            actors: Vec::new(alloc),
            phases: Vec::new(alloc),
            lines: Vec::new(alloc),
            queries: Vec::new(alloc),
            conditions: Vec::new(alloc),
        }
    }
}

/// Reads the line of this number, behind those before.
pub fn read_one(
    alloc: Global,
    named: &Named,
    number: u32,
    line: &[u8],
    reading: &mut Reading,
) -> Result<(), LineFault>
    requires few { AreFew named.now }
    requires room { HasRoom named.now number (state_of reading.old) }
    ensures { ReadsOne named.now number line.now
        (state_of reading.old) result (state_of reading.new) }
{
    let Some((word, rest)) = next_word(line) else {
        return Ok(());
    };
    if is_comment(word) {
        return Ok(());
    }
    read_line(alloc, named, number, word, rest, reading)
}

/// Whether a line that begins with this word is a comment.
fn is_comment(word: &[u8]) -> bool
    ensures { result ≡ begins_with 35 word.now }
{
    word.first() == Some(&b'#')
}

/// Reads the line that begins with this word.
fn read_line(
    alloc: Global,
    named: &Named,
    number: u32,
    word: &[u8],
    rest: &[u8],
    reading: &mut Reading,
) -> Result<(), LineFault>
    requires few { AreFew named.now }
    requires room { HasRoom named.now number (state_of reading.old) }
    ensures { ReadsLine named.now number (behind_words 2 rest.now) (word.now ∷ words_of rest.now)
        (state_of reading.old) result (state_of reading.new) }
{
    match actor_of(word) {
        Some(actor) => speak(alloc, named, number, actor, rest, reading),
        None => work(alloc, named, number, word, rest, reading),
    }
}

/// Who speaks in a line that begins with this word.
fn actor_of(word: &[u8]) -> Option<&[u8]>
    ensures { MatchOption result
        ((actor : List ℕ) → word.now ≡ 64 ∷ actor → ⊥)
        (λ actor. word.now ≡ 64 ∷ actor.now) }
{
    let (sign, actor) = word.split_first()?;
    if *sign == b'@' { Some(actor) } else { None }
}

/// The first word of a line in which nobody speaks.
#[derive(Clone, Copy)]
enum Mark {
    Sync,
    Take,
    Push,
}

fn mark_of(word: &[u8]) -> Option<Mark>
    ensures { MatchOption result
        ((mark : Mark) → word.now ≡ mark_text mark → ⊥)
        (λ mark. word.now ≡ mark_text mark) }
{
    if word == b"sync".as_slice() {
        Some(Mark::Sync)
    } else if word == b"!take".as_slice() {
        Some(Mark::Take)
    } else if word == b"!push".as_slice() {
        Some(Mark::Push)
    } else {
        None
    }
}

/// Reads a line in which nobody speaks.
fn work(
    alloc: Global,
    named: &Named,
    number: u32,
    word: &[u8],
    rest: &[u8],
    reading: &mut Reading,
) -> Result<(), LineFault>
    requires few { AreFew named.now }
    requires spoken { (actor : List ℕ) → word.now ≡ 64 ∷ actor → ⊥ }
    ensures { ReadsLine named.now number (behind_words 2 rest.now) (word.now ∷ words_of rest.now)
        (state_of reading.old) result (state_of reading.new) }
{
    match mark_of(word) {
        Some(Mark::Sync) => sync_line(alloc, rest, reading),
        Some(Mark::Take) => take_line(named, rest, reading),
        Some(Mark::Push) => push_line(named, rest, reading),
        None => Err(LineFault::Refused(ScriptKind::Syntax)),
    }
}

fn sync_line(alloc: Global, rest: &[u8], reading: &mut Reading) -> Result<(), LineFault>
    ensures { (named : Named) (number : ℕ)
        → ReadsLine named number (behind_words 2 rest.now) (codes "sync" ∷ words_of rest.now)
        (state_of reading.old) result (state_of reading.new) }
{
    if !is_end(rest) {
        return Err(LineFault::Refused(ScriptKind::Syntax));
    }
    let lines = mem::replace(&mut reading.lines, Vec::new(alloc));
    reading.phases.push(lines)?;
    Ok(())
}

fn take_line(named: &Named, rest: &[u8], reading: &mut Reading) -> Result<(), LineFault>
    requires { AreFew named.now }
    ensures { (number : ℕ)
        → ReadsLine named.now number (behind_words 2 rest.now) (codes "!take" ∷ words_of rest.now)
        (state_of reading.old) result (state_of reading.new) }
{
    let (channel, count) = read_step(named, rest)?;
    reading.lines.push(Line::Take { channel, count })?;
    Ok(())
}

fn push_line(named: &Named, rest: &[u8], reading: &mut Reading) -> Result<(), LineFault>
    requires { AreFew named.now }
    ensures { (number : ℕ)
        → ReadsLine named.now number (behind_words 2 rest.now) (codes "!push" ∷ words_of rest.now)
        (state_of reading.old) result (state_of reading.new) }
{
    let (channel, count) = read_step(named, rest)?;
    reading.lines.push(Line::Push { channel, count })?;
    Ok(())
}

/// A channel's number, and how much it does, where scripts may say that.
fn read_step(named: &Named, rest: &[u8]) -> Result<(u32, u32), LineFault>
    requires { AreFew named.now }
    ensures { Steps named.now (words_of rest.now) result }
{
    let Some((name, count)) = step_of(rest) else {
        return Err(LineFault::Refused(ScriptKind::Syntax));
    };
    let Some(channel) = channel_of(named, name) else {
        return Err(LineFault::Refused(ScriptKind::UnknownName));
    };
    let Some(count) = count else {
        return Err(LineFault::Refused(ScriptKind::AttrLimit));
    };
    if !named.schedule {
        return Err(LineFault::Refused(ScriptKind::ScheduleInRun));
    }
    Ok((channel, count))
}

/// A channel's name and a number, where it fits.
fn step_of(rest: &[u8]) -> Option<(&[u8], Option<u32>)>
    ensures { MatchOption result
        ((name : List ℕ) (count : ℕ) → AreStep (words_of rest.now) name count → ⊥)
        (λ found. IsKept fits (AreStep (words_of rest.now) found.0.now) found.1) }
{
    let (name, rest) = next_word(rest)?;
    let (count, rest) = next_number(rest)?;
    if is_name(name) && is_end(rest) {
        Some((name, count))
    } else {
        None
    }
}

/// Reads what this actor says.
fn speak(
    alloc: Global,
    named: &Named,
    number: u32,
    actor: &[u8],
    rest: &[u8],
    reading: &mut Reading,
) -> Result<(), LineFault>
    requires few { AreFew named.now }
    requires room { HasRoom named.now number (state_of reading.old) }
    ensures { ReadsLine named.now number (behind_words 2 rest.now)
        ((64 ∷ actor.now) ∷ words_of rest.now) (state_of reading.old) result
        (state_of reading.new) }
{
    if !is_actor(actor) {
        return Err(LineFault::Refused(ScriptKind::Syntax));
    }
    let act = read_command(alloc, named, actor, rest)?;
    let actor = actor_number(alloc, actor, &mut reading.actors)?;
    put_act(named, number, actor, act, reading)
}

fn is_actor(name: &[u8]) -> bool
    ensures { IsTrue result ↔ IsActor name.now }
{
    is_name(name) && name.len() <= MAX_NAME
}

/// The actor's number. Who speaks for the first time is put last.
fn actor_number(alloc: Global, actor: &[u8], actors: &mut Vec<Name>) -> Result<u32, LineFault>
    requires { length actors.old.items ≤ 64 }
    ensures { Numbers actor.now actors.old.items result actors.new.items }
{
    if let Some(place) = place_of(actors, actor) {
        return Ok(place as u32);
    }
    if actors.len() >= MAX_ACTORS {
        return Err(LineFault::Refused(ScriptKind::Actors));
    }
    let place = actors.len();
    actors.push(Name::new(alloc, actor)?)?;
    Ok(place as u32)
}

/// Puts what was said behind what was said before.
fn put_act(
    named: &Named,
    number: u32,
    actor: u32,
    act: Act,
    reading: &mut Reading,
) -> Result<(), LineFault>
    requires { HasRoom named.now number (state_of reading.old) }
    ensures { Does named.now number actor act (state_of reading.old) result (state_of reading.new) }
{
    match act {
        Act::Apply { protocol, op } => {
            reading.lines.push(Line::Apply {
                actor,
                line: number,
                protocol,
                op,
            })?;
            Ok(())
        }
        Act::Show { query, condition } => {
            put_query(named, number, actor, query, condition, reading)
        }
    }
}

/// Puts a query behind those before, its condition, and the line that asks it.
fn put_query(
    named: &Named,
    number: u32,
    actor: u32,
    query: Query,
    condition: Option<Name>,
    reading: &mut Reading,
) -> Result<(), LineFault>
    requires { HasRoom named.now number (state_of reading.old) }
    ensures { Does named.now number actor (Show query condition) (state_of reading.old) result
        (state_of reading.new) }
{
    let place = reading.queries.len() as u32;
    let choice = choice_after(named, reading.conditions.len(), &condition, query.choice);
    reading.queries.push(Query { choice, ..query })?;
    put_condition(number, condition, &mut reading.conditions)?;
    reading.lines.push(Line::Show {
        actor,
        query: place,
    })?;
    Ok(())
}

/// The number of the filter of a query: with a condition, behind so many others, its place behind
/// all filters that have names.
fn choice_after(
    named: &Named,
    before: usize,
    condition: &Option<Name>,
    choice: Option<u32>,
) -> Option<u32>
    requires { length named.now.filters + before < 2 ^ 32 }
    ensures { result ≡ choice_after named.now before condition.now choice }
{
    match condition {
        Some(_) => {
            let place = named.filters.len() + before;
            Some(place as u32)
        }
        None => choice,
    }
}

/// Puts the condition of a line behind those before.
fn put_condition(
    number: u32,
    condition: Option<Name>,
    conditions: &mut Vec<Condition>,
) -> Result<(), LineFault>
    ensures { PutsCondition number condition conditions.old.items result conditions.new.items }
{
    if let Some(text) = condition {
        conditions.push(Condition { line: number, text })?;
    }
    Ok(())
}
