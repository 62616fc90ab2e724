ghost use Rattle.std.specs.Prelude.{◌<◌, ◌^◌, length};

use conf_ast::filters::{Access, AddOp, CompareOp, Expr, LogicalOp, MethodKind, Property};
use conf_scan::lex;
use filt_syntax::parse_expr;
use std::alloc::Global;
use std::test::Fail;

/// The expression with which a text begins, where it has so many tokens.
fn tree(alloc: Global, text: &[u8], len: usize) -> Result<Option<Expr>, Fail>
    requires { length text.now < 2 ^ 32 }
{
    let tokens = lex(alloc, text)?;
    match parse_expr(alloc, &tokens, text, 0) {
        Ok((tree, end)) => { if end == len { Ok(Some(tree)) } else { Ok(None) } }
        Err(_) => Ok(None),
    }
}

fn adds_a_product(found: &Option<Expr>) -> bool {
    match found {
        Some(Expr::Sum(_, more)) => {
            matches!(more.first(), Some((AddOp::Plus, Expr::Product(_, _))))
        }
        _ => false,
    }
}

fn has_two_differences(found: &Option<Expr>) -> bool {
    match found {
        Some(Expr::Sum(_, more)) => more.len() == 2,
        _ => false,
    }
}

fn joins_a_comparison_and_a_name(found: &Option<Expr>) -> bool {
    match found {
        Some(Expr::Logical(first, more)) => {
            matches!(&**first, Expr::Compare(CompareOp::Equal, _, _))
                && matches!(more.first(), Some((LogicalOp::And, Expr::Name(_))))
        }
        _ => false,
    }
}

fn prepends_and_counts(found: &Option<Expr>) -> bool {
    match found {
        Some(Expr::Postfix(_, more)) => match (more.first(), more.last()) {
            (Some(Access::Method { method, .. }), Some(Access::Property(property))) => {
                method.kind == MethodKind::Prepend && *property == Property::Len
            }
            _ => false,
        },
        _ => false,
    }
}

fn calls_with_two(found: &Option<Expr>) -> bool {
    match found {
        Some(Expr::Call { arguments, .. }) => arguments.len() == 2,
        _ => false,
    }
}

/// The place of the parenthesis of a group or of a call.
fn parenthesis_of(found: &Option<Expr>) -> Option<usize> {
    match found {
        Some(Expr::Group { at, .. }) => Some(*at),
        Some(Expr::Call { open, .. }) => Some(*open),
        _ => None,
    }
}

#[test]
fn operators_by_their_strength(rt: HostRuntime) -> Result<(), Fail> {
    let alloc = rt.alloc();
    assert!(rt; adds_a_product(&tree(alloc, b"1 + 2 * 3", 5)?));
    assert!(rt; joins_a_comparison_and_a_name(&tree(alloc, b"a = b && c", 5)?));
    assert!(rt; has_two_differences(&tree(alloc, b"9 - 4 - 3", 5)?));
    Ok(())
}

#[test]
fn methods_and_calls(rt: HostRuntime) -> Result<(), Fail> {
    let alloc = rt.alloc();
    assert!(rt; prepends_and_counts(&tree(alloc, b"bgp_path.prepend(1).len", 8)?));
    let call = tree(alloc, b"prepend(bgp_path, 1)", 6)?;
    assert!(rt; matches!(&call, Some(Expr::MethodCall { .. })));
    assert!(rt; calls_with_two(&tree(alloc, b"f(x, y)", 6)?));
    Ok(())
}

#[test]
fn pairs_attributes_and_the_end(rt: HostRuntime) -> Result<(), Fail> {
    let alloc = rt.alloc();
    let pair = tree(alloc, b"(1, 2)", 5)?;
    assert!(rt; matches!(&pair, Some(Expr::Pair { .. })));
    let asked = tree(alloc, b"defined(bgp_med)", 4)?;
    assert!(rt; matches!(&asked, Some(Expr::Defined { .. })));
    let one = tree(alloc, b"1 2", 1)?;
    assert!(rt; matches!(&one, Some(Expr::Atom(_))));
    Ok(())
}

#[test]
fn parentheses_by_their_bytes(rt: HostRuntime) -> Result<(), Fail> {
    let alloc = rt.alloc();
    let group = tree(alloc, b"/* a */ (x)", 3)?;
    assert!(rt; parenthesis_of(&group) == Some(8));
    let call = tree(alloc, b"# a\n f /* b */ (x)", 4)?;
    assert!(rt; parenthesis_of(&call) == Some(15));
    Ok(())
}
