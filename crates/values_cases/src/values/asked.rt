//! What a case asks for: an operator in BIRD's notation, `value X` or `sort X`.
use crate::notation::inside;

/// An operator of one value.
#[derive(Clone, Copy)]
pub enum OfOne {
    If,
    Not,
    Len,
    First,
    Last,
    Ip,
    Empty,
}

/// What is asked of one value.
#[derive(Clone, Copy)]
pub enum Single {
    Operator(OfOne),
    /// The value itself.
    Itself,
    /// The value's sort.
    Sort,
}

/// An operator of two values that makes no list.
#[derive(Clone, Copy)]
pub enum OfTwo {
    Matches,
    MatchesNot,
    Equal,
    NotEqual,
    Less,
    LessOrEqual,
    Greater,
    GreaterOrEqual,
    Plus,
    Minus,
    Times,
    Over,
    Pair,
}

/// A method that makes a list of a list and an argument.
#[derive(Clone, Copy)]
pub enum Method {
    Prepend,
    Add,
    Delete,
    Filter,
}

#[derive(Clone, Copy)]
pub enum Asked<'a> {
    One(Single, &'a str),
    Two(OfTwo, &'a str, &'a str),
    Method(Method, &'a str, &'a str),
}

const FRONTS: [(&str, Single); 4] = [
    ("if ", Single::Operator(OfOne::If)),
    ("!", Single::Operator(OfOne::Not)),
    ("value ", Single::Itself),
    ("sort ", Single::Sort),
];

const BACKS: [(&str, OfOne); 5] = [
    (".len", OfOne::Len),
    (".first", OfOne::First),
    (".last", OfOne::Last),
    (".ip", OfOne::Ip),
    (".empty", OfOne::Empty),
];

const METHODS: [(&str, Method); 4] = [
    (".prepend(", Method::Prepend),
    (".add(", Method::Add),
    (".delete(", Method::Delete),
    (".filter(", Method::Filter),
];

/// A sign that a mask may have comes behind those that may have a mask beside them.
const SIGNS: [(&str, OfTwo); 12] = [
    (" ~ ", OfTwo::Matches),
    (" !~ ", OfTwo::MatchesNot),
    (" = ", OfTwo::Equal),
    (" != ", OfTwo::NotEqual),
    (" < ", OfTwo::Less),
    (" <= ", OfTwo::LessOrEqual),
    (" > ", OfTwo::Greater),
    (" >= ", OfTwo::GreaterOrEqual),
    (" + ", OfTwo::Plus),
    (" - ", OfTwo::Minus),
    (" / ", OfTwo::Over),
    (" * ", OfTwo::Times),
];

/// `LIST.METHOD(ARGUMENT)`
fn method_call(text: &str) -> Option<Asked<'_>> {
    for (name, method) in METHODS {
        if let Some((list, behind)) = text.split_once(name) {
            let argument = behind.strip_suffix(")")?;
            return Some(Asked::Method(method, list, argument));
        }
    }
    None
}

fn behind_a_front(text: &str) -> Option<Asked<'_>> {
    for (front, single) in FRONTS {
        if let Some(operand) = text.strip_prefix(front) {
            return Some(Asked::One(single, operand));
        }
    }
    None
}

fn property(text: &str) -> Option<Asked<'_>> {
    for (back, operator) in BACKS {
        if let Some(operand) = text.strip_suffix(back) {
            return Some(Asked::One(Single::Operator(operator), operand));
        }
    }
    None
}

fn sides(text: &str) -> Option<Asked<'_>> {
    for (sign, operator) in SIGNS {
        if let Some((left, right)) = text.split_once(sign) {
            return Some(Asked::Two(operator, left, right));
        }
    }
    None
}

/// `(LEFT, RIGHT)`
fn pair(text: &str) -> Option<Asked<'_>> {
    let (left, right) = inside(text, "(", ")")?.split_once(", ")?;
    Some(Asked::Two(OfTwo::Pair, left, right))
}

/// What a case asks for, if it is in the notation.
pub fn read_asked(text: &str) -> Option<Asked<'_>> {
    if let Some(asked) = method_call(text) {
        return Some(asked);
    }
    if let Some(asked) = behind_a_front(text) {
        return Some(asked);
    }
    if let Some(asked) = property(text) {
        return Some(asked);
    }
    if let Some(asked) = sides(text) {
        return Some(asked);
    }
    pair(text)
}
