//! The names of protocols.

ghost use Rattle.std.specs.Prelude.{◌≡◌, ◌+◌, ◌*◌, ◌^◌, ◌<◌, ◌++◌, ◌∷◌, [], ℕ, List, None, IfOk, OnOk, decimal, nat_lt, not};
ghost use Rattle.std.specs.List.{list_any};
ghost use Rattle.conf_names.specs.Known as known;
ghost use Rattle.conf_names.specs.Names as of;
ghost use Rattle.conf_names.specs.Refusals.{first_in};
ghost use Rattle.conf_names.specs.Seen.{known_of};

use crate::declared::{Declared, is_declared, too_long};
use crate::refusal::{Refusal, note_if};
use bits_ip::{OutOfMemory, write_number};
use conf_ast::{ConfKind, Name};
use std::alloc::Global;

/// What the names that are made for protocols begin with, by kind.
pub const STATIC_STEM: &[u8] = b"static";

pub const BGP_STEM: &[u8] = b"bgp";

pub const PIPE_STEM: &[u8] = b"pipe";

/// How many protocols there may be.
const MOST_PROTOCOLS: usize = 256;

// ---- names that are made

fn copied(alloc: Global, text: &[u8]) -> Result<Vec<u8>, OutOfMemory>
    ensures { IfOk result (λ bytes. bytes.items ≡ text.now) }
{
    Ok(text.to_vec(alloc)?)
}

/// A text, and behind it another one.
fn joined(alloc: Global, text: &[u8], more: &[u8]) -> Result<Vec<u8>, OutOfMemory>
    ensures { IfOk result (λ bytes. bytes.items ≡ text.now ++ more.now) }
{
    let mut bytes = Vec::new(alloc);
    bytes.extend_from_slice(text)?;
    bytes.extend_from_slice(more)?;
    Ok(bytes)
}

fn numbered(alloc: Global, stem: &[u8], number: u128) -> Result<Vec<u8>, OutOfMemory>
    ensures { IfOk result (λ bytes. bytes.items ≡ stem.now ++ decimal number) }
{
    let mut bytes = Vec::new(alloc);
    bytes.extend_from_slice(stem)?;
    write_number(number, &mut bytes)?;
    Ok(bytes)
}

/// How many names are declared.
fn names(declared: &Declared) -> u128
    ensures count { (text : List ℕ) → result ≡ of.names (known_of text declared.now) }
    ensures small { result < 3 * 2 ^ 63 }
{
    let constants = declared.scope.constants.len() as u128;
    let functions = declared.scope.functions.len() as u128;
    let others = declared.scope.others.len() as u128;
    constants + (functions + others)
}

/// The stem with the least number from 1 on that isn't declared so.
fn free_name(alloc: Global, declared: &Declared, stem: &[u8]) -> Result<Vec<u8>, OutOfMemory>
    ensures { (text : List ℕ) → IfOk result (λ bytes. bytes.items
        ≡ of.own_name (known_of text declared.now) stem.now None) }
{
    let mut left = names(declared);
    let mut number = 1;
    while 0 < left {
        let bytes = numbered(alloc, stem, number)?;
        if !is_declared(declared, &bytes) {
            return Ok(bytes);
        }
        left -= 1;
        number += 1;
    }
    numbered(alloc, stem, number)
}

/// The name that a protocol has: its own, or the stem of its kind and the least number from 1 on
/// that gives a name not declared so far. An error is want of memory.
pub fn own_name(
    alloc: Global,
    text: &[u8],
    declared: &Declared,
    stem: &[u8],
    name: Option<Name>,
) -> Result<Vec<u8>, OutOfMemory>
    ensures { IfOk result (λ bytes. bytes.items
        ≡ of.own_name (known_of text.now declared.now) stem.now name) }
{
    match name {
        None => free_name(alloc, declared, stem),
        Some(name) => copied(alloc, name.bytes(text)),
    }
}

// ---- what is refused

/// Where a protocol is refused: at its name, or at its kind's word.
pub fn place_of(at: usize, name: Option<Name>) -> usize
    ensures { result ≡ of.place_of at name }
{
    match name {
        None => at,
        Some(name) => name.at,
    }
}

/// As `too_long` of `declared`, of a protocol that may have no name.
pub fn name_too_long(text: &[u8], name: Option<Name>, first: &mut Option<Refusal>)
    ensures { (declared : Declared) → first.new
        ≡ first_in first.old (of.name_too_long (known_of text.now declared) name) }
{
    match name {
        None => (),
        Some(name) => too_long(text, name, first),
    }
}

/// Whether there may be no more protocols.
fn is_full(protocols: usize) -> bool
    ensures { result ≡ not (nat_lt protocols of.most_protocols) }
{
    MOST_PROTOCOLS <= protocols
}

/// What is refused of a protocol, some of whose names may be declared already, and of there being
/// one more.
fn one_more(
    text: &[u8],
    declared: &Declared,
    at: usize,
    name: Option<Name>,
    is_taken: bool,
    first: &mut Option<Refusal>,
)
    ensures { (names : List (List ℕ))
        → is_taken ≡ list_any (known.is_declared (known_of text.now declared.now)) names
        → first.new
        ≡ first_in first.old (of.declaring (known_of text.now declared.now) at name names) }
{
    let place = place_of(at, name);
    note_if(first, is_taken, place, ConfKind::DuplicateName);
    name_too_long(text, name, first);
    note_if(first, is_full(declared.protocols), place, ConfKind::Limit);
}

/// A protocol with one name.
pub fn declaring(
    alloc: Global,
    text: &[u8],
    declared: &Declared,
    stem: &[u8],
    at: usize,
    name: Option<Name>,
    first: &mut Option<Refusal>,
) -> Result<(), OutOfMemory>
    ensures { OnOk result (first.new
        ≡ first_in first.old (of.declaring (known_of text.now declared.now) at name
        (of.own_name (known_of text.now declared.now) stem.now name ∷ []))) }
{
    let bytes = own_name(alloc, text, declared, stem, name)?;
    let is_taken = is_declared(declared, &bytes);
    one_more(text, declared, at, name, is_taken, first);
    Ok(())
}

/// Whether a name of a pipe is declared.
fn is_pipe_declared(alloc: Global, declared: &Declared, name: &[u8]) -> Result<bool, OutOfMemory>
    ensures { (text : List ℕ) → IfOk result (λ is_taken. is_taken
        ≡ list_any (known.is_declared (known_of text declared.now)) (of.pipe_names name.now)) }
{
    let export = joined(alloc, name, b".export")?;
    let import = joined(alloc, name, b".import")?;
    let own = is_declared(declared, name);
    let exports = is_declared(declared, &export);
    let imports = is_declared(declared, &import);
    Ok(own | (exports | imports))
}

/// A pipe, with the names of its channels.
pub fn declaring_pipe(
    alloc: Global,
    text: &[u8],
    declared: &Declared,
    at: usize,
    name: Option<Name>,
    first: &mut Option<Refusal>,
) -> Result<(), OutOfMemory>
    ensures { OnOk result (first.new
        ≡ first_in first.old (of.declaring (known_of text.now declared.now) at name
        (of.pipe_names (of.own_name (known_of text.now declared.now) of.pipe_stem name)))) }
{
    let bytes = own_name(alloc, text, declared, PIPE_STEM, name)?;
    let is_taken = is_pipe_declared(alloc, declared, &bytes)?;
    one_more(text, declared, at, name, is_taken, first);
    Ok(())
}
