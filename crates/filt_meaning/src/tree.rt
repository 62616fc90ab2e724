// The trees of checked filters. A variable is its place in the frame, a constant or a function its
// number in the scope.

use crate::{Fixed, Sort};
use conf_ast::filters::{AddOp, Attribute, CompareOp, LogicalOp, MethodKind, MulOp, Property};
use filt_sets::{IntSet, PairSet, PrefixSet};

/// What stands behind a dot. `E` is `TExpr`.
#[derive(Drop)]
pub enum TAccess<E> {
    Property(Property),
    Method(MethodKind, E),
}

/// A comparison of what the route holds with what the filter says, in place of `CompareOp` over these
/// two: it has no boxes, so that a filter of many conditions reads little memory.
#[derive(Clone, Copy, Debug, PartialEq, Eq)]
pub enum TTest {
    /// An attribute, and a number.
    Attribute(Attribute, CompareOp, u32),
    /// A property of an attribute, and a number.
    Property(Attribute, Property, CompareOp, u32),
    /// A pair, and an attribute.
    Pair(u16, u16, CompareOp, Attribute),
}

/// An expression.
#[derive(Drop)]
pub enum TExpr {
    Value(Fixed),
    Constant(usize),
    Local(usize),
    Attribute(Attribute),
    Defined(Attribute),
    /// What a variable of that sort holds without a value.
    Default(Sort),
    Call(usize, Vec<TExpr>),
    Pair(Box<TExpr>, Box<TExpr>),
    /// A method of a list, and its argument.
    Method(MethodKind, Box<TExpr>, Box<TExpr>),
    /// The empty list of the same sort.
    Empty(Box<TExpr>),
    Access(Box<TExpr>, Vec<TAccess<TExpr>>),
    Not(Box<TExpr>),
    Product(Box<TExpr>, Vec<(MulOp, TExpr)>),
    Sum(Box<TExpr>, Vec<(AddOp, TExpr)>),
    Compare(CompareOp, Box<TExpr>, Box<TExpr>),
    Test(TTest),
    Joint(Box<TExpr>, Vec<(LogicalOp, TExpr)>),
    /// What stands for nothing; in no checked filter.
    Stuck,
}

/// What is assigned to.
#[derive(Clone, Copy, Debug, PartialEq, Eq)]
pub enum TTarget {
    Local(usize),
    Attribute(Attribute),
    /// In no checked filter.
    Nowhere,
}

/// The labels of an arm: a set of which the value is or isn't an element.
#[derive(Debug, Drop)]
pub enum Labels {
    Ints(IntSet),
    Pairs(PairSet),
    Prefixes(PrefixSet),
    /// Of more than one sort; in no checked filter.
    Stuck,
}

/// An arm of a `case`. `S` is `TStmt`.
#[derive(Drop)]
pub struct TArm<S> {
    pub labels: Labels,
    pub body: Vec<S>,
}

/// A statement.
#[derive(Drop)]
pub enum TStmt {
    /// The sorts of the block's own variables, and its statements.
    Block(Vec<Sort>, Vec<TStmt>),
    Nothing,
    Assign(TTarget, TExpr),
    Unset(Attribute),
    If(TExpr, Box<TStmt>),
    IfElse(TExpr, Box<TStmt>, Box<TStmt>),
    /// The value, the arms, and what is done where no label has the value.
    Case(TExpr, Vec<TArm<TStmt>>, Vec<TStmt>),
    /// The list, and what is done for each element, which is one variable more.
    For(TExpr, Box<TStmt>),
    Accept,
    Reject,
    Return(Option<TExpr>),
    /// Expressions that are evaluated, and dropped.
    Print(Vec<TExpr>),
    Call(usize, Vec<TExpr>),
}

/// A checked filter: it sees the first constants and functions of the scope, as many as there were
/// before it.
#[derive(Drop)]
pub struct TFilter {
    pub constants: usize,
    pub functions: usize,
    /// The sorts of the variables of its block.
    pub sorts: Vec<Sort>,
    pub body: Vec<TStmt>,
}
