//! Expressions that are one question.

ghost use Rattle.std.specs.Prelude.{◌≡◌, true, IfSome};
ghost use Rattle.filt_compile.specs.Emits.{IsAsked, IsNet, IsNetIn, IsQuestion, IsSet};

use crate::in_place::called_question;
use crate::seen::Seen;
use conf_ast::filters::{Attribute, CompareOp};
use filt_code::Question;
use filt_meaning::{Fixed, TExpr};
use filt_sets::PrefixSet;

/// The question that an expression asks that has parts, where that is all that it does.
pub(crate) fn question_of<'a>(seen: &Seen<'_, 'a>, e: &'a TExpr) -> Option<Question<'a>>
    ensures { IfSome result (λ q. IsQuestion seen.now e.now q) }
{
    match net_set(e) {
        Some(set) => Some(Question::NetIn(set)),
        None => call_question(seen, e),
    }
}

fn call_question<'a>(seen: &Seen<'_, 'a>, e: &TExpr) -> Option<Question<'a>>
    ensures { IfSome result (λ q. IsQuestion seen.now e.now q) }
{
    match e {
        TExpr::Call(number, es) => called_question(seen, *number, es),
        _ => None,
    }
}

/// The set of which a condition asks whether the net is in it, where that is all that it asks.
fn net_set(e: &TExpr) -> Option<&PrefixSet>
    ensures { IfSome result (λ set. IsNetIn e.now set.now) }
{
    match e {
        TExpr::Compare(op, a, b) => set_asked(*op, a, b),
        _ => None,
    }
}

fn set_asked<'a>(op: CompareOp, a: &TExpr, b: &'a TExpr) -> Option<&'a PrefixSet>
    ensures { IfSome result (λ set. IsAsked op a.now b.now set.now) }
{
    match op {
        CompareOp::Matches => { if is_net(a) { fixed_set(b) } else { None } }
        _ => None,
    }
}

fn is_net(e: &TExpr) -> bool
    ensures { result ≡ true → IsNet e.now }
{
    match e {
        TExpr::Attribute(Attribute::Net) => true,
        _ => false,
    }
}

fn fixed_set(e: &TExpr) -> Option<&PrefixSet>
    ensures { IfSome result (λ set. IsSet e.now set.now) }
{
    match e {
        TExpr::Value(Fixed::PrefixSet(set)) => Some(set),
        _ => None,
    }
}
