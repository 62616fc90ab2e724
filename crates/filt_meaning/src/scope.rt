use crate::{Fixed, Sort, TStmt};
use indexmap::{IndexMap, IndexSet};

/// A checked function.
#[derive(Drop)]
pub struct TFunction {
    /// The sorts of its parameters, which are its first variables.
    pub parameters: Vec<Sort>,
    /// The sort of what it gives, where it gives something.
    pub gives: Option<Sort>,
    /// How much a call of it weighs, at most 2^127.
    pub weight: u128,
    /// It sees the first constants of the scope, as many as there were before it, and the functions
    /// before it.
    pub constants: usize,
    /// The sorts of the variables of its block, behind the parameters.
    pub sorts: Vec<Sort>,
    pub body: Vec<TStmt>,
}

/// What is declared before a place of a configuration: the constants and functions that filters can
/// name, and the other names that are taken.
#[derive(Drop)]
pub struct Scope {
    pub constants: IndexMap<Vec<u8>, Fixed>,
    pub functions: IndexMap<Vec<u8>, TFunction>,
    /// The names of filters, tables and protocols.
    pub others: IndexSet<Vec<u8>>,
}
