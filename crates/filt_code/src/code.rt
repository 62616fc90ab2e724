//! Code as it is emitted.

use crate::instr::Instr;
use filt_meaning::Sort;

/// The code of a function. Its first variables are its arguments.
#[derive(Drop)]
pub struct Routine<'a> {
    /// The sorts of its parameters.
    pub parameters: &'a [Sort],
    /// The sort of what it gives, where it gives something.
    pub gives: Option<Sort>,
    /// It calls only functions before it.
    pub code: Vec<Instr<'a>>,
}

/// The code of a filter.
#[derive(Drop)]
pub struct Draft<'a> {
    /// How many of the first functions it may call.
    pub functions: usize,
    pub code: Vec<Instr<'a>>,
}
