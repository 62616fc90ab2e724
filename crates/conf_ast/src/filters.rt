//! The trees of filters: expressions, statements, functions. Each `at` is the byte of the source at
//! which what it is of begins, and `open` the byte of a parenthesis.

pub use crate::{Attribute, Constant};
use crate::{Name, PackedAddr};
use bits_ip::Prefix;

/// A written number, or the name of a constant that is one.
#[derive(Clone, Copy, Debug)]
pub enum Num {
    Number { at: usize, value: u32 },
    Name(Name),
}

/// A number, or those from one to another.
#[derive(Clone, Copy, Debug)]
pub struct NumRange {
    pub low: Num,
    pub high: Option<Num>,
}

/// A part of a pair in a set.
#[derive(Clone, Copy, Debug)]
pub enum PairPart {
    /// `*`
    Any,
    Range(NumRange),
}

/// Which lengths a prefix in a set has.
#[derive(Clone, Copy, Debug)]
pub enum Lengths {
    /// `+`: its own and longer ones.
    AndLonger,
    /// `-`: its own and shorter ones.
    AndShorter,
    /// `{low,high}`
    Between(Num, Num),
}

/// An item of a set or a label.
#[derive(Clone, Copy, Debug)]
pub enum Item {
    Range(NumRange),
    /// A pair; `at` is the place of its parenthesis.
    Pair {
        at: usize,
        first: PairPart,
        second: PairPart,
    },
    Prefix {
        at: usize,
        net: Prefix,
        lengths: Option<Lengths>,
    },
}

/// An element of a mask.
#[derive(Clone, Copy, Debug)]
pub enum MaskAtom {
    /// `?`
    One,
    /// `*`
    Any,
    Range(NumRange),
}

/// An element of a mask, and whether a `+` stands behind it.
#[derive(Clone, Copy, Debug)]
pub struct MaskItem {
    pub atom: MaskAtom,
    pub many: bool,
}

/// A word that is an expression: a value, an attribute or a constant, and its place.
#[derive(Clone, Copy, Debug)]
pub enum Atom {
    Number { at: usize, value: u32 },
    /// The bytes between the quotes.
    Text { at: usize, start: usize, len: usize },
    Ip { at: usize, addr: PackedAddr },
    Prefix { at: usize, net: Prefix },
    True { at: usize },
    False { at: usize },
    /// `+empty+`
    EmptyPath { at: usize },
    /// `-empty-`
    EmptyClist { at: usize },
    Attribute { at: usize, attribute: Attribute },
    Constant { at: usize, constant: Constant },
}

/// What a path or a list of communities can be asked for.
#[derive(Clone, Copy, Debug, PartialEq, Eq)]
pub enum Property {
    Len,
    First,
    Last,
    Ip,
}

/// What makes another list of a list.
#[derive(Clone, Copy, Debug, PartialEq, Eq)]
pub enum MethodKind {
    Prepend,
    Add,
    Delete,
    Filter,
}

/// A method, and the place of its word.
#[derive(Clone, Copy, Debug)]
pub struct Method {
    pub at: usize,
    pub kind: MethodKind,
}

/// What stands behind a dot. `E` is `Expr`.
#[derive(Drop)]
pub enum Access<E> {
    Property(Property),
    /// A method and its argument; `open` is the place of the parenthesis before it.
    Method {
        method: Method,
        open: usize,
        argument: E,
    },
}

#[derive(Clone, Copy, Debug, PartialEq, Eq)]
pub enum MulOp {
    Times,
    Over,
}

#[derive(Clone, Copy, Debug, PartialEq, Eq)]
pub enum AddOp {
    Plus,
    Minus,
}

#[derive(Clone, Copy, Debug, PartialEq, Eq)]
pub enum CompareOp {
    Equal,
    NotEqual,
    Less,
    LessOrEqual,
    Greater,
    GreaterOrEqual,
    Matches,
    MatchesNot,
}

#[derive(Clone, Copy, Debug, PartialEq, Eq)]
pub enum LogicalOp {
    And,
    Or,
}

/// An expression. Chains of operators and of methods are lists, so that no tree is deeper than its
/// brackets.
#[derive(Drop)]
pub enum Expr {
    Atom(Atom),
    /// A variable, or a constant of the configuration.
    Name(Name),
    /// A call; `open` is the place of the parenthesis behind the name.
    Call {
        name: Name,
        open: usize,
        arguments: Vec<Expr>,
    },
    /// An expression in parentheses; `at` is the place of the first of them.
    Group {
        at: usize,
        inner: Box<Expr>,
    },
    /// A pair; `at` is the place of its parenthesis.
    Pair {
        at: usize,
        first: Box<Expr>,
        second: Box<Expr>,
    },
    Set {
        at: usize,
        items: Vec<Item>,
    },
    Mask {
        at: usize,
        items: Vec<MaskItem>,
    },
    /// `defined(attribute)`
    Defined {
        at: usize,
        open: usize,
        attribute_at: usize,
        attribute: Attribute,
    },
    /// `method(list, argument)`
    MethodCall {
        method: Method,
        open: usize,
        list: Box<Expr>,
        argument: Box<Expr>,
    },
    /// An operand and, one after another, what stands behind its dots.
    Postfix(Box<Expr>, Vec<Access<Expr>>),
    Not {
        at: usize,
        operand: Box<Expr>,
    },
    Product(Box<Expr>, Vec<(MulOp, Expr)>),
    Sum(Box<Expr>, Vec<(AddOp, Expr)>),
    Compare(CompareOp, Box<Expr>, Box<Expr>),
    Logical(Box<Expr>, Vec<(LogicalOp, Expr)>),
}

/// A type of variables (BIRD User's Guide, "Data types").
#[derive(Clone, Copy, Debug, PartialEq, Eq)]
pub enum VariableType {
    Int,
    Bool,
    Ip,
    Prefix,
    Pair,
    String,
    Path,
    Mask,
    Clist,
    IntSet,
    PairSet,
    PrefixSet,
}

/// What an assignment or a change is done to.
#[derive(Clone, Copy, Debug)]
pub enum Target {
    Name(Name),
    Attribute { at: usize, attribute: Attribute },
}

/// What a statement does to its target's list.
#[derive(Drop)]
pub enum Change {
    /// A method and its argument; `open` is the place of the parenthesis before it.
    Method {
        method: Method,
        open: usize,
        argument: Expr,
    },
    /// `empty`
    Empty,
}

/// An arm of a `case`: its labels, and what is done where one of them has the value. `S` is `Stmt`.
#[derive(Drop)]
pub struct Arm<S> {
    pub labels: Vec<Item>,
    pub body: Vec<S>,
}

/// A statement.
#[derive(Drop)]
pub enum Stmt {
    Block(Vec<Stmt>),
    /// `;`
    Empty,
    Declare {
        variable_type: VariableType,
        name: Name,
        value: Option<Expr>,
    },
    Assign(Target, Expr),
    Change(Target, Change),
    Unset {
        open: usize,
        attribute_at: usize,
        attribute: Attribute,
    },
    If(Expr, Box<Stmt>),
    IfElse(Expr, Box<Stmt>, Box<Stmt>),
    Case {
        at: usize,
        value: Expr,
        arms: Vec<Arm<Stmt>>,
        otherwise: Option<Vec<Stmt>>,
    },
    For {
        at: usize,
        variable_type: VariableType,
        name: Name,
        list: Expr,
        body: Box<Stmt>,
    },
    Accept,
    Reject,
    Return {
        at: usize,
        value: Option<Expr>,
    },
    Print(Vec<Expr>),
    /// As `print`, without an end of line.
    Printn(Vec<Expr>),
    /// A call of a function that gives nothing; `open` is the place of the parenthesis behind
    /// its name.
    Call {
        name: Name,
        open: usize,
        arguments: Vec<Expr>,
    },
}

/// The statements between the braces of a filter, a function or a policy.
#[derive(Drop)]
pub struct Block {
    pub statements: Vec<Stmt>,
}

/// What stands between two parameters of a function.
#[derive(Clone, Copy, Debug, PartialEq, Eq)]
pub enum Separator {
    Semicolon,
    Comma,
}

/// A parameter of a function, and what separates it from the one before.
#[derive(Clone, Copy, Debug)]
pub struct Parameter {
    /// None for the first parameter.
    pub separator: Option<Separator>,
    pub variable_type: VariableType,
    pub name: Name,
}

/// A function of the configuration.
#[derive(Drop)]
pub struct Function {
    pub name: Name,
    /// The place of the parenthesis before the parameters.
    pub open: usize,
    pub parameters: Vec<Parameter>,
    /// The type of what it gives, where it gives something.
    pub gives: Option<VariableType>,
    pub block: Block,
}

/// A filter of the configuration.
#[derive(Drop)]
pub struct Filter {
    pub name: Name,
    pub block: Block,
}
