//! What is answered to a case.
use crate::notation::bad;
use crate::values::asked::{Asked, Method, OfTwo, Single, read_asked};
use crate::values::literal::{Literal, Way, read_literal, value};
use crate::values::operators::{of_method, of_one, of_two};
use crate::values::shown::write_value;
use crate::values::words::{fault_text, name_of};
use bits_ip::OutOfMemory;
use filt_meaning::{Defaults, Failure, ListFailure, Value, copy};
use std::alloc::Global;
use std::io::{Error, ErrorKind};
use std::{io, str};

// ---- values and failures

fn failure_text(failure: Failure) -> &'static str {
    match failure {
        Failure::Fault(fault) => fault_text(fault),
        Failure::Stuck => "stuck",
    }
}

/// A value, shown by a copy.
fn write_copy(value: &Value<'_>, out: &mut Vec<u8>) -> Result<(), OutOfMemory> {
    let again = copy(value)?;
    write_value(&again, out)
}

fn write_failure(failure: Failure, out: &mut Vec<u8>) -> Result<(), OutOfMemory> {
    out.extend_from_slice(failure_text(failure).as_bytes())?;
    Ok(())
}

fn write_answer(answer: &Result<Value<'_>, Failure>, out: &mut Vec<u8>) -> Result<(), OutOfMemory> {
    match answer {
        Ok(value) => write_copy(value, out),
        Err(failure) => write_failure(*failure, out),
    }
}

fn write_made(made: &Result<Value<'_>, ListFailure>, out: &mut Vec<u8>) -> Result<(), OutOfMemory> {
    match made {
        Ok(value) => write_copy(value, out),
        Err(ListFailure::Failed(failure)) => write_failure(*failure, out),
        Err(ListFailure::Memory) => Err(OutOfMemory),
    }
}

/// A value, and whether a list that stands elsewhere is lent again in its copy.
fn write_itself(value: &Value<'_>, out: &mut Vec<u8>) -> Result<(), OutOfMemory> {
    let again = copy(value)?;
    write_value(&again, out)?;
    if is_lent(value) && !is_lent(&again) {
        out.extend_from_slice(b" no longer lent")?;
    }
    Ok(())
}

fn is_lent(value: &Value<'_>) -> bool {
    match value {
        Value::PathOf(_) => true,
        Value::ClistOf(_) => true,
        _ => false,
    }
}

/// The sort of a value, and whether it had another before the filter ran.
fn write_sort(literal: &Literal, value: &Value<'_>, out: &mut Vec<u8>) -> Result<(), OutOfMemory> {
    out.extend_from_slice(name_of(value.sort()).as_bytes())?;
    if let Literal::Fixed(fixed) = literal
        && fixed.sort() != value.sort()
    {
        out.extend_from_slice(b", before ")?;
        out.extend_from_slice(name_of(fixed.sort()).as_bytes())?;
    }
    Ok(())
}

// ---- cases

fn write_one(
    alloc: Global,
    single: Single,
    literal: &Literal,
    way: Way,
    out: &mut Vec<u8>,
) -> Result<(), OutOfMemory> {
    let defaults = Defaults::make(alloc);
    let operand = value(alloc, literal, &defaults, way)?;
    match single {
        Single::Itself => write_itself(&operand, out),
        Single::Sort => write_sort(literal, &operand, out),
        Single::Operator(operator) => write_answer(&of_one(alloc, operator, &operand), out),
    }
}

fn answer_one(alloc: Global, single: Single, operand: &str, way: Way) -> io::Result<Vec<u8>> {
    let literal = read_literal(alloc, operand)?;
    let mut out = Vec::new(alloc);
    write_one(alloc, single, &literal, way, &mut out).map_err(no_memory)?;
    Ok(out)
}

/// How the two values of a case are handed on.
#[derive(Clone, Copy)]
struct Ways {
    left: Way,
    right: Way,
}

fn write_two(
    alloc: Global,
    operator: OfTwo,
    literals: (&Literal, &Literal),
    ways: Ways,
    out: &mut Vec<u8>,
) -> Result<(), OutOfMemory> {
    let defaults = Defaults::make(alloc);
    let left = value(alloc, literals.0, &defaults, ways.left)?;
    let right = value(alloc, literals.1, &defaults, ways.right)?;
    write_answer(&of_two(operator, &left, &right), out)
}

fn answer_two(
    alloc: Global,
    operator: OfTwo,
    operands: (&str, &str),
    ways: Ways,
) -> io::Result<Vec<u8>> {
    let left = read_literal(alloc, operands.0)?;
    let right = read_literal(alloc, operands.1)?;
    let mut out = Vec::new(alloc);
    write_two(alloc, operator, (&left, &right), ways, &mut out).map_err(no_memory)?;
    Ok(out)
}

fn write_method(
    alloc: Global,
    method: Method,
    literals: (&Literal, &Literal),
    ways: Ways,
    out: &mut Vec<u8>,
) -> Result<(), OutOfMemory> {
    let defaults = Defaults::make(alloc);
    let list = value(alloc, literals.0, &defaults, ways.left)?;
    let argument = value(alloc, literals.1, &defaults, ways.right)?;
    write_made(&of_method(method, list, &argument), out)
}

fn answer_method(
    alloc: Global,
    method: Method,
    operands: (&str, &str),
    ways: Ways,
) -> io::Result<Vec<u8>> {
    let list = read_literal(alloc, operands.0)?;
    let argument = read_literal(alloc, operands.1)?;
    let mut out = Vec::new(alloc);
    write_method(alloc, method, (&list, &argument), ways, &mut out).map_err(no_memory)?;
    Ok(out)
}

fn answered(alloc: Global, asked: Asked<'_>, ways: Ways) -> io::Result<Vec<u8>> {
    match asked {
        Asked::One(single, operand) => answer_one(alloc, single, operand, ways.left),
        Asked::Two(operator, left, right) => answer_two(alloc, operator, (left, right), ways),
        Asked::Method(method, list, argument) => {
            answer_method(alloc, method, (list, argument), ways)
        }
    }
}

const LENT: Ways = Ways {
    left: Way::Lent,
    right: Way::Lent,
};

const OTHER_WAYS: [Ways; 4] = [
    Ways {
        left: Way::Lent,
        right: Way::Owned,
    },
    Ways {
        left: Way::Owned,
        right: Way::Lent,
    },
    Ways {
        left: Way::Owned,
        right: Way::Owned,
    },
    Ways {
        left: Way::Copied,
        right: Way::Copied,
    },
];

/// The answer, and another one where it depends on how lists are handed on.
fn answer_in_bytes(alloc: Global, asked: Asked<'_>) -> io::Result<Vec<u8>> {
    let mut answer = answered(alloc, asked, LENT)?;
    for ways in OTHER_WAYS {
        let other = answered(alloc, asked, ways)?;
        if other.as_slice() != answer.as_slice() {
            answer.extend_from_slice(b", or ")?;
            answer.extend_from_slice(&other)?;
            return Ok(answer);
        }
    }
    Ok(answer)
}

/// What is answered to a case.
pub fn answer(alloc: Global, case: &[u8]) -> io::Result<String> {
    let text = str::from_utf8(case).map_err(|_| bad())?;
    let asked = read_asked(text).ok_or(bad())?;
    String::from_utf8(answer_in_bytes(alloc, asked)?).map_err(|_| bad())
}

fn no_memory(_: OutOfMemory) -> Error {
    Error::from(ErrorKind::OutOfMemory)
}
