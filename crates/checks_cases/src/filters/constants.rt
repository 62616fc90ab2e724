//! The values of constants.
use crate::faults::{bad, no_memory};
use conf_ast::bytes_at;
use conf_ast::configurations::{Literal, StringLiteral};
use conf_ast::filters::{Item, MaskItem, Num};
use filt_items::{mask_of, number, set_of};
use filt_meaning::{Fixed, Labels, Scope};
use std::alloc::Global;
use std::io;

fn part(text: &[u8], scope: &Scope, num: &Num) -> io::Result<u16> {
    let number = number(text, scope, num).ok_or(bad())?;
    u16::try_from(number).map_err(|_| bad())
}

fn pair(text: &[u8], scope: &Scope, first: &Num, second: &Num) -> io::Result<Fixed> {
    Ok(Fixed::Pair(part(text, scope, first)?, part(text, scope, second)?))
}

fn string(alloc: Global, text: &[u8], quoted: &StringLiteral) -> io::Result<Fixed> {
    let bytes = bytes_at(text, quoted.start, quoted.len);
    Ok(Fixed::String(bytes.to_vec(alloc)?))
}

fn set(alloc: Global, text: &[u8], scope: &Scope, items: &[Item]) -> io::Result<Fixed> {
    match set_of(alloc, text, scope, items).map_err(no_memory)? {
        Labels::Ints(set) => Ok(Fixed::IntSet(set)),
        Labels::Pairs(set) => Ok(Fixed::PairSet(set)),
        Labels::Prefixes(set) => Ok(Fixed::PrefixSet(set)),
        Labels::Stuck => Err(bad()),
    }
}

fn mask(alloc: Global, text: &[u8], scope: &Scope, items: &[MaskItem]) -> io::Result<Fixed> {
    let mask = mask_of(alloc, text, scope, items).map_err(no_memory)?;
    Ok(Fixed::Mask(mask.ok_or(bad())?))
}

/// The value of a constant behind `define`. The name of another constant is no value here.
pub fn constant(alloc: Global, text: &[u8], scope: &Scope, value: &Literal) -> io::Result<Fixed> {
    match value {
        Literal::Number { value, .. } => Ok(Fixed::Int(*value)),
        Literal::Text(quoted) => string(alloc, text, quoted),
        Literal::Ip(address) => Ok(Fixed::Ip(address.addr)),
        Literal::Prefix { net, .. } => Ok(Fixed::Prefix(*net)),
        Literal::True { .. } => Ok(Fixed::Bool(true)),
        Literal::False { .. } => Ok(Fixed::Bool(false)),
        Literal::Name(_) => Err(bad()),
        Literal::Pair { first, second, .. } => pair(text, scope, first, second),
        Literal::Set { items, .. } => set(alloc, text, scope, items),
        Literal::Mask { items, .. } => mask(alloc, text, scope, items),
    }
}
