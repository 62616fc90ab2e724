//! All members of a room are closed.
ghost use Rattle.std.specs.Prelude.{◌≡◌, ◌<◌, ◌++◌, ◌∷◌, ℕ, List, [], length, slice_get, IfOk, IfSome};
ghost use Rattle.atomic_table.specs.Seated.{TableId};
ghost use Rattle.import_lock.specs.Terms.{PhaseTerms};
ghost use Rattle.jour_rule.specs.declared.views.Terms.{Terms};
ghost use Rattle.phase_close.specs.Rooms.{AreOthers};
ghost use Rattle.room_ends.specs.Left.{AreHandsOf, AreMembersLeft, CanClose, IsMemberLeft};
ghost use Rattle.room_members.specs.Members.{IsMember};
ghost use Rattle.table_shared.specs.Opening.{TableOpening};

use crate::closing::close_member;
use attrs::Judge;
use export_lock::Sends;
use import_lock::{Hand, OpFault, Phase};
use pipe_rest::MemberLeft;
use room_members::Member;
use std::alloc::Global;
use std::mem;
use std::sync::Wait;

/// The member of a number, with its hands.
fn close_next<R: Wait, J: Judge + Drop, P: Phase + Sends>(
    alloc: Global,
    rt: &R,
    member: Member<J, P>,
    hands: &mut Vec<Vec<Hand>>,
    place: usize,
) -> Result<MemberLeft<J>, OpFault>
    requires inside { place < length hands.old.items }
    requires member { (phase : PhaseTerms) × (tables : List (TableId × Terms TableOpening))
        × (number : ℕ) × IsMember P.terms P.exports P.rules phase tables number member }
    requires hands { IfSome (slice_get hands.old.items place) (AreHandsOf P.terms member) }
    ensures others { AreOthers place hands.old.items hands.new.items }
    ensures left { IfOk result (λ left. IfSome (slice_get hands.old.items place)
        (λ own. IsMemberLeft P.terms P.exports P.rules J.verdict member own left)) }
{
    let own = mem::replace(&mut hands[place], Vec::new(alloc));
    close_member(rt, member, own)
}

/// Keeps what is left of a member, behind all before it.
fn keep<J: Judge + Drop>(lefts: &mut Vec<MemberLeft<J>>, left: MemberLeft<J>) -> Result<(), OpFault>
    ensures { IfOk result (λ _. lefts.new.items ≡ lefts.old.items ++ left ∷ []) }
{
    match lefts.push(left) {
        Ok(()) => Ok(()),
        Err(_) => Err(OpFault::Memory),
    }
}

/// Opens the locks of all members, and ends their hands, by member one of each actor and one for
/// starts, and their stamps. It ends at the first fault: one that came in the phase, or want of
/// memory.
pub(crate) fn close_members<R: Wait, J: Judge + Drop, P: Phase + Sends>(
    alloc: Global,
    rt: &R,
    members: Vec<Member<J, P>>,
    mut hands: Vec<Vec<Hand>>,
) -> Result<Vec<MemberLeft<J>>, OpFault>
    requires { (phase : PhaseTerms) × (tables : List (TableId × Terms TableOpening))
        × CanClose P.terms P.exports P.rules phase tables members.items hands.items }
    ensures { IfOk result (λ lefts. AreMembersLeft P.terms P.exports P.rules J.verdict
        members.items hands.items lefts.items) }
{
    let mut lefts = Vec::new(alloc);
    let mut place: usize = 0;
    for member in members {
        let left = close_next(alloc, rt, member, &mut hands, place)?;
        keep(&mut lefts, left)?;
        place += 1;
    }
    Ok(lefts)
}
