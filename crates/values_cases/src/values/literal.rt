//! The values of a case, as it writes them.
//!
//! `(1 2)` is a path and `{(1,2) (3,4)}` a list of communities, `(1,2)` a pair, `default SORT` what
//! a variable of this sort holds without a value. The rest is as in BIRD.
use crate::items::{ints, mask, net, pairs, path, prefixes};
use crate::notation::{bad, inside, number, pair};
use crate::values::words::{Word, sort_named, word_of};
use attrs::{Clist, Path};
use bits_ip::{OutOfMemory, parse_addr};
use filt_meaning::{Defaults, Fixed, Sort, Value, copy};
use filt_sets::{IntSet, Mask, PairSet, PrefixSet};
use std::alloc::Global;
use std::io;

#[derive(Drop)]
pub enum Literal {
    Fixed(Fixed),
    Path(Path),
    Clist(Clist),
    Default(Sort),
}

/// How a list of a case is handed on.
#[derive(Clone, Copy)]
pub enum Way {
    /// It stands elsewhere.
    Lent,
    Owned,
    /// What is handed on is a copy of an owned one.
    Copied,
}

fn word(word: Word) -> Fixed {
    match word {
        Word::Bool(truth) => Fixed::Bool(truth),
        Word::EmptyPath => Fixed::EmptyPath,
        Word::EmptyClist => Fixed::EmptyClist,
        Word::Source(source) => Fixed::Source(source),
        Word::Dest(dest) => Fixed::Dest(dest),
        Word::Origin(origin) => Fixed::Origin(origin),
    }
}

/// What stands between brackets.
fn items(alloc: Global, text: &str) -> io::Result<Fixed> {
    if let Some(items) = inside(text, "=", "=") {
        return Ok(Fixed::Mask(Mask::make(mask(alloc, items)?)));
    }
    if text.contains("/") {
        return Ok(Fixed::PrefixSet(PrefixSet::make(prefixes(alloc, text)?)));
    }
    if text.contains("(") {
        return Ok(Fixed::PairSet(PairSet::make(pairs(alloc, text)?)));
    }
    Ok(Fixed::IntSet(IntSet::make(ints(alloc, text)?)))
}

fn plain(text: &str) -> io::Result<Fixed> {
    if text.contains("/") {
        return Ok(Fixed::Prefix(net(text)?));
    }
    match parse_addr(text.as_bytes()) {
        Some(addr) => Ok(Fixed::Ip(addr)),
        None => Ok(Fixed::Int(number(text)?)),
    }
}

fn clist(alloc: Global, text: &str) -> io::Result<Clist> {
    let mut list = Clist::new(alloc);
    for community in text.split_whitespace() {
        let (first, second) = pair(inside(community, "(", ")").ok_or(bad())?)?;
        list.add(first, second).map_err(|_| bad())?;
    }
    Ok(list)
}

/// What stands between parentheses.
fn in_parentheses(alloc: Global, text: &str) -> io::Result<Box<Literal>> {
    if text.contains(",") {
        let (first, second) = pair(text)?;
        return boxed(alloc, Fixed::Pair(first, second));
    }
    let path = Path::try_from_vec(path(alloc, text)?).ok_or(bad())?;
    Ok(Box::new(alloc, Literal::Path(path))?)
}

fn boxed(alloc: Global, fixed: Fixed) -> io::Result<Box<Literal>> {
    Ok(Box::new(alloc, Literal::Fixed(fixed))?)
}

/// What stands between braces.
fn in_braces(alloc: Global, text: &str) -> io::Result<Box<Literal>> {
    let list = clist(alloc, text)?;
    Ok(Box::new(alloc, Literal::Clist(list))?)
}

fn string(alloc: Global, text: &str) -> io::Result<Fixed> {
    let bytes = text.as_bytes().to_vec(alloc)?;
    Ok(Fixed::String(bytes))
}

/// The literal that a text is. It is boxed, since proofs look into what isn't.
pub fn read_literal(alloc: Global, text: &str) -> io::Result<Box<Literal>> {
    if let Some(found) = word_of(text) {
        return boxed(alloc, word(found));
    }
    if let Some(name) = text.strip_prefix("default ") {
        let sort = sort_named(name).ok_or(bad())?;
        return Ok(Box::new(alloc, Literal::Default(sort))?);
    }
    if let Some(text) = inside(text, "(", ")") {
        return in_parentheses(alloc, text);
    }
    if let Some(text) = inside(text, "{", "}") {
        return in_braces(alloc, text);
    }
    boxed(alloc, fixed(alloc, text)?)
}

/// What is no list, no word and no pair.
fn fixed(alloc: Global, text: &str) -> io::Result<Fixed> {
    if let Some(text) = inside(text, "\"", "\"") {
        return string(alloc, text);
    }
    match inside(text, "[", "]") {
        Some(text) => items(alloc, text),
        None => plain(text),
    }
}

/// The value of a literal.
pub fn value<'a>(
    alloc: Global,
    literal: &'a Literal,
    defaults: &'a Defaults,
    way: Way,
) -> Result<Value<'a>, OutOfMemory> {
    match way {
        Way::Lent => Ok(lent(alloc, literal, defaults)),
        Way::Owned => owned(alloc, literal, defaults),
        Way::Copied => {
            let value = owned(alloc, literal, defaults)?;
            copy(&value)
        }
    }
}

fn lent<'a>(alloc: Global, literal: &'a Literal, defaults: &'a Defaults) -> Value<'a> {
    match literal {
        Literal::Fixed(fixed) => fixed.value(alloc),
        Literal::Path(path) => Value::PathOf(path),
        Literal::Clist(list) => Value::ClistOf(list),
        Literal::Default(sort) => defaults.value(alloc, *sort),
    }
}

fn owned<'a>(
    alloc: Global,
    literal: &'a Literal,
    defaults: &'a Defaults,
) -> Result<Value<'a>, OutOfMemory> {
    match literal {
        Literal::Path(path) => Ok(Value::Path(path.copy()?)),
        Literal::Clist(list) => Ok(Value::Clist(list.copy()?)),
        _ => Ok(lent(alloc, literal, defaults)),
    }
}
