//! Instructions.

use conf_ast::filters::{AddOp, Attribute, CompareOp, LogicalOp, MethodKind, MulOp, Property};
use filt_meaning::{Fixed, Sort, TArm, TStmt, TTest};
use filt_sets::PrefixSet;

/// An operator of one value.
#[derive(Clone, Copy)]
pub enum OfOne {
    Not,
    /// The value itself, which is a truth value.
    Truth,
    Empty,
    Property(Property),
}

/// An operator of two values.
#[derive(Clone, Copy)]
pub enum OfTwo {
    Pair,
    Method(MethodKind),
    Factor(MulOp),
    Term(AddOp),
    Compare(CompareOp),
}

/// What changes variables, operands and attributes alone. The operand that was put last is on top.
#[derive(Clone, Copy)]
pub enum Effect<'a> {
    /// Puts a value that stands in the source, or is a constant.
    Push(&'a Fixed),
    /// Puts what a variable holds, by its place.
    Local(usize),
    /// Puts what an attribute holds.
    Attribute(Attribute),
    /// Puts whether an attribute holds anything.
    Defined(Attribute),
    /// Puts what a variable of that sort holds without a value.
    Default(Sort),
    /// Puts what an operator gives of the top operand, which it takes.
    One(OfOne),
    /// Puts what an operator gives of the two top operands, which it takes; the right one is on
    /// top.
    Two(OfTwo),
    /// Takes the top operand away.
    Discard,
    /// Makes a variable hold the top operand, which it takes.
    Store(usize),
    /// Makes an attribute hold the top operand, which it takes.
    Assign(Attribute),
    Unset(Attribute),
    /// One variable more, without a value.
    Declare(Sort),
    /// So many of the last variables are gone.
    Leave(usize),
}

/// A number that a route holds.
#[derive(Clone, Copy)]
pub enum Number {
    NetLength,
    Preference,
    Med,
    LocalPref,
    IgpMetric,
    PathLength,
    /// The first number of the path.
    First,
    /// Its last one.
    Last,
    /// How many communities there are.
    Communities,
}

/// A condition that needs no operands.
#[derive(Clone, Copy)]
pub enum Question<'a> {
    /// Whether a number is at least the first one and at most the second one.
    Within(Number, u32, u32),
    Test(TTest),
    /// Whether the net is in a set.
    NetIn(&'a PrefixSet),
    Defined(Attribute),
}

/// An instruction. A jump passes over so many of the instructions behind its own.
#[derive(Clone, Copy)]
pub enum Instr<'a> {
    Do(Effect<'a>),
    Jump(usize),
    /// Takes the top operand, a truth value, and jumps where it is this one.
    JumpIf(bool, usize),
    /// Jumps where the answer is this one.
    JumpIfAsked(bool, Question<'a>, usize),
    /// Behind the left side of `&&` or `||`: where that decides it stays, and the code jumps; else
    /// it is taken away.
    JumpIfDecided(LogicalOp, usize),
    /// Takes the top operand, and jumps over as many instructions as there are arms before the
    /// first one whose labels have it, or over as many as there are arms. Each of those behind is a
    /// jump.
    Switch(&'a [TArm<TStmt>]),
    /// Takes the top operand, a list, and runs the code behind it for each element, which is one
    /// variable more; then it jumps. The body has its own operands.
    ForEach(usize),
    /// The end of a loop's body.
    EndTurn,
    /// Calls a function, by its number, with so many operands, which it takes, and puts what it
    /// gives.
    Call(usize, usize),
    /// The same, of which nothing is put.
    Perform(usize, usize),
    Accept,
    Reject,
    /// Returns the top operand.
    Return,
    ReturnNothing,
    /// In no code of a checked filter.
    Stuck,
}
