//! Conditions one behind another, whose answers are there already.

ghost use Rattle.std.specs.Prelude.{◌≡◌, ◌<◌, ◌≤◌, ◌+◌, ◌-◌, ◌^◌, ℕ, min, List, IfSome};
ghost use Rattle.filt_code.specs.Codes.{mean, one, At, Setting};
ghost use Rattle.filt_code.specs.Costs.{beside, cost};
ghost use Rattle.filt_meaning.specs.Flow.{Frame};
ghost use Rattle.filt_route.specs.Seen.{around_in};
ghost use Rattle.filt_meaning.specs.Values.{Val};

use crate::machine::behind;
use crate::target::jump_where;
use filt_code::Instr;
use filt_route::{Running, Surroundings, answered};

/// The code from the first instruction on that is more than a jump by an answer that is there.
#[inline(always)]
pub(crate) fn ahead<'a>(
    around: &Surroundings<'a>,
    code: &'a [Instr<'a>],
    attrs: &Running<'a>,
) -> &'a [Instr<'a>]
    ensures means { (s : Setting) (vals : Frame) (os : List Val)
        → s.around ≡ around_in around.now
        → mean s code.now 0 vals os attrs.now ≡ mean s result.now 0 vals os attrs.now }
    ensures cost { (fs : List ℕ) → cost fs result.now 0 ≤ cost fs code.now 0 }
{
    if asks(code) {
        let place = passed(around, code, attrs);
        behind(code, place)
    } else {
        code
    }
}

/// Whether the first instruction jumps by an answer.
#[inline(always)]
fn asks(code: &[Instr<'_>]) -> bool {
    match code.first() {
        Some(Instr::JumpIfAsked(_, _, _)) => true,
        _ => false,
    }
}

/// The place where it stands. Most code of filters is such jumps, so this loop is the hottest one.
#[inline(never)]
pub(crate) fn passed<'a>(
    around: &Surroundings<'a>,
    code: &'a [Instr<'a>],
    attrs: &Running<'a>,
) -> usize
    ensures means { (s : Setting) (vals : Frame) (os : List Val)
        → s.around ≡ around_in around.now
        → mean s code.now 0 vals os attrs.now ≡ mean s code.now result vals os attrs.now }
    ensures cost { (fs : List ℕ) → cost fs code.now result ≤ cost fs code.now 0 }
{
    let mut place = 0;
    while let Some(next) = after(around, code, place, attrs) {
        place = next;
    }
    place
}

/// Where the instruction at a place leads, where it is such a jump.
#[inline(always)]
fn after<'a>(
    around: &Surroundings<'a>,
    code: &'a [Instr<'a>],
    place: usize,
    attrs: &Running<'a>,
) -> Option<usize>
    ensures means { (s : Setting) (vals : Frame) (os : List Val)
        → s.around ≡ around_in around.now
        → IfSome result (λ next. mean s code.now place vals os attrs.now
        ≡ mean s code.now next vals os attrs.now) }
    ensures cost { (fs : List ℕ) → IfSome result (λ next. cost fs code.now next
        < cost fs code.now place) }
{
    match code.get(place) {
        Some(i) => {
            let count = passed_over(around, i, attrs)?;
            Some(beyond(place, count))
        }
        None => None,
    }
}

/// How many instructions such a jump passes over.
#[inline(always)]
fn passed_over<'a>(around: &Surroundings<'a>, i: &Instr<'a>, attrs: &Running<'a>) -> Option<usize>
    ensures means { (s : Setting) (rest : ℕ → At) (vals : Frame) (os : List Val)
        → s.around ≡ around_in around.now
        → IfSome result (λ count. one s i.now rest vals os attrs.now
        ≡ rest count vals os attrs.now) }
    ensures cost { (fs : List ℕ) (of : ℕ → ℕ) → IfSome result
        (λ count. of count ≤ beside fs i.now of) }
{
    match i {
        Instr::JumpIfAsked(is, what, n) => {
            let holds = answered(around, what, attrs)?;
            Some(jump_where(*is, *n, holds))
        }
        _ => None,
    }
}

/// The place so far behind the instruction at a place, or the last number that there is.
#[inline(always)]
fn beyond(place: usize, count: usize) -> usize
    requires { place < 2 ^ 63 }
    ensures { result ≡ min (place + 1 + count) (2 ^ 64 - 1) }
{
    (place + 1).saturating_add(count)
}
