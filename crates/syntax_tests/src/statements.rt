ghost use Rattle.std.specs.Prelude.{◌<◌, ◌^◌, length};

use conf_ast::filters::{Arm, Block, Change, Item, PairPart, Stmt, Target, VariableType};
use conf_scan::lex;
use filt_syntax::parse_block;
use std::alloc::Global;
use std::test::Fail;

/// The statements of the block that a text is; none where it isn't one.
fn statements(alloc: Global, text: &[u8]) -> Result<Vec<Stmt>, Fail>
    requires { length text.now < 2 ^ 32 }
{
    let tokens = lex(alloc, text)?;
    match parse_block(alloc, &tokens, text, 0) {
        Ok((Block { statements }, end)) => {
            if end == tokens.len() {
                Ok(statements)
            } else {
                Ok(Vec::new(alloc))
            }
        }
        Err(_) => Ok(Vec::new(alloc)),
    }
}

fn has_an_inner_else(found: Option<&Stmt>) -> bool {
    match found {
        Some(Stmt::If(_, inner)) => matches!(**inner, Stmt::IfElse(_, _, _)),
        _ => false,
    }
}

fn has_so_many(arm: Option<&Arm<Stmt>>, labels: usize, statements: usize) -> bool {
    match arm {
        Some(arm) => arm.labels.len() == labels && arm.body.len() == statements,
        None => false,
    }
}

fn begins_with_accept(arm: Option<&Arm<Stmt>>) -> bool {
    match arm {
        Some(arm) => matches!(arm.body.first(), Some(Stmt::Accept)),
        None => false,
    }
}

fn has_arms_and_else(found: Option<&Stmt>) -> bool {
    match found {
        Some(
            Stmt::Case {
                arms,
                otherwise: Some(otherwise),
                ..
            },
        ) => {
            arms.len() == 2
                && otherwise.len() == 1
                && has_so_many(arms.first(), 1, 1)
                && has_so_many(arms.get(1), 2, 2)
                && begins_with_accept(arms.get(1))
        }
        _ => false,
    }
}

fn has_no_arms(found: Option<&Stmt>) -> bool {
    match found {
        Some(
            Stmt::Case {
                arms,
                otherwise: None,
                ..
            },
        ) => arms.len() == 0,
        _ => false,
    }
}

fn has_a_pair_in_its_label(found: Option<&Stmt>) -> bool {
    match found {
        Some(Stmt::Case { arms, .. }) => match arms.first() {
            Some(arm) => {
                matches!(
                    arm.labels.first(),
                    Some(Item::Pair {
                        first: PairPart::Range(_),
                        second: PairPart::Any,
                        ..
                    })
                )
            }
            None => false,
        },
        _ => false,
    }
}

fn prints_two(stmt: &Stmt) -> bool {
    match stmt {
        Stmt::Print(values) => values.len() == 2,
        _ => false,
    }
}

/// Whether a statement is the one in this place of `SIMPLE`.
fn is_simple(place: usize, stmt: &Stmt) -> bool {
    match place {
        0 => {
            matches!(
                stmt,
                Stmt::Declare {
                    variable_type: VariableType::IntSet,
                    value: Some(_),
                    ..
                }
            )
        }
        1 => matches!(
            stmt,
            Stmt::Change(Target::Attribute { .. }, Change::Method { .. })
        ),
        2 => matches!(stmt, Stmt::Change(_, Change::Empty)),
        3 => matches!(stmt, Stmt::Unset { .. }),
        4 => matches!(stmt, Stmt::Return { value: None, .. }),
        5 => prints_two(stmt),
        6 => matches!(stmt, Stmt::Call { .. }),
        7 => {
            matches!(
                stmt,
                Stmt::For {
                    variable_type: VariableType::Int,
                    ..
                }
            )
        }
        _ => false,
    }
}

const SIMPLE: &[u8] = b"{ int set x = [1, 2..3]; bgp_path.prepend(1); bgp_community.empty; \
    unset(bgp_med); return; print 1, 2; f(1); for int i in bgp_path do ; }";

#[test]
fn choices_and_selections(rt: HostRuntime) -> Result<(), Fail> {
    let alloc = rt.alloc();
    let inner = statements(alloc, b"{ if a then if b then accept; else reject; }")?;
    assert!(rt; has_an_inner_else(inner.first()));
    let arms = b"{ case x { 1: x = 2; x..9, x: accept; reject; else: ; } }";
    assert!(rt; has_arms_and_else(statements(alloc, arms)?.first()));
    assert!(rt; has_no_arms(statements(alloc, b"{ case 1 { } }")?.first()));
    let pair = b"{ case 1 { (1, *): } }";
    assert!(rt; has_a_pair_in_its_label(statements(alloc, pair)?.first()));
    Ok(())
}

#[test]
fn simple_statements(rt: HostRuntime) -> Result<(), Fail> {
    let found = statements(rt.alloc(), SIMPLE)?;
    assert_eq!(rt; found.len(), 8);
    for (place, stmt) in found.iter().enumerate() {
        assert!(rt; is_simple(place, stmt), "{place}");
    }
    Ok(())
}
