//! Refusals, of which the first is kept.
ghost use Rattle.std.specs.Prelude.{◌≡◌, List, None, Some};
ghost use Rattle.filt_types.specs.declared.refusal.Refusal.{Refusal as FilterRefusal};
ghost use Rattle.filt_types.specs.Refusals as filters;
ghost use Rattle.conf_names.specs.Refusals.{number_of, precedes, first_of, first_in, refused_if, kind_of, of_filters};

use conf_ast::ConfKind;
use filt_types::Cause;

/// A refusal: the byte of its place, and its kind.
#[derive(Clone, Copy, Debug, PartialEq, Eq)]
pub struct Refusal {
    pub at: usize,
    pub kind: ConfKind,
}

/// Keeps the first of what is refused.
pub fn note(first: &mut Option<Refusal>, at: usize, kind: ConfKind)
    ensures { first.new ≡ first_of first.old (record { at = at; kind = kind }) }
{
    *first = Some(earlier(*first, Refusal { at, kind }));
}

/// As `note`, where something is refused.
pub fn note_if(first: &mut Option<Refusal>, is_refused: bool, at: usize, kind: ConfKind)
    ensures { first.new ≡ first_in first.old (refused_if is_refused at kind) }
{
    if is_refused {
        note(first, at, kind);
    }
}

/// As `note`, of what is refused first in a filter.
pub fn note_first(first: &mut Option<Refusal>, found: Option<filt_types::Refusal>)
    ensures { (rs : List FilterRefusal) → found ≡ filters.first_in None rs
        → first.new ≡ first_in first.old (of_filters rs) }
{
    match found {
        None => (),
        Some(refusal) => note(first, refusal.at, kind(refusal.cause)),
    }
}

fn kind(cause: Cause) -> ConfKind
    ensures { result ≡ kind_of cause }
{
    match cause {
        Cause::UnknownName => ConfKind::UnknownName,
        Cause::DuplicateName => ConfKind::DuplicateName,
        Cause::Mismatch => ConfKind::TypeMismatch,
        Cause::NotAssignable => ConfKind::NotAssignable,
        Cause::TooHeavy => ConfKind::TooHeavy,
        Cause::Limit => ConfKind::Limit,
    }
}

fn earlier(found: Option<Refusal>, refusal: Refusal) -> Refusal
    ensures { Some result ≡ first_of found refusal }
{
    match found {
        None => refusal,
        Some(other) => {
            if is_before(&refusal, &other) {
                return refusal;
            }
            other
        }
    }
}

fn is_before(a: &Refusal, b: &Refusal) -> bool
    ensures { result ≡ precedes a.now b.now }
{
    let same_place = a.at == b.at;
    let lower = number(a.kind) < number(b.kind);
    (a.at < b.at) | (same_place & lower)
}

fn number(kind: ConfKind) -> u32
    ensures { result ≡ number_of kind }
{
    match kind {
        ConfKind::Lex => 1,
        ConfKind::Syntax => 2,
        ConfKind::TooDeep => 3,
        ConfKind::UnknownName => 4,
        ConfKind::DuplicateName => 5,
        ConfKind::TypeMismatch => 6,
        ConfKind::NotAssignable => 7,
        ConfKind::TooHeavy => 8,
        ConfKind::Nettype => 9,
        ConfKind::PolicyMissing => 10,
        ConfKind::MedRule => 11,
        ConfKind::PipeCycle => 12,
        ConfKind::DuplicateStatic => 13,
        ConfKind::Limit => 14,
        ConfKind::Unsupported => 15,
    }
}
