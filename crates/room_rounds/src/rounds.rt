//! Rounds in which all that is left goes on, until it is at rest.
ghost use Rattle.std.specs.Prelude.{◌≡◌, ◌∷◌, ◌++◌, [], ℕ, List, length, true, IfOk};
ghost use Rattle.std.specs.List.{AllByRecursion};
ghost use Rattle.phase_close.specs.Closed.{IsLater, SessionTerms};
ghost use Rattle.phase_close.specs.Whole.{IsOver};
ghost use Rattle.phase_legal.specs.Shown.{AreBeside};
ghost use Rattle.pipe_rest.specs.Heads.{AreHeads, HasRead, IsAmong};
ghost use Rattle.pipe_rest.specs.Later.{CanSettle, IsLaterMember};
ghost use Rattle.room_rounds.specs.Inside.{HaveRested};

use crate::own::settle_session;
use crate::passing::pass_spares;
use crate::pipes::settle_pipe;
use attrs::{Judge, Src};
use import_lock::OpFault;
use outside_io::Gate;
use phase_close::SessionLeft;
use pipe_rest::{MemberLeft, have_read, last_heads};
use std::alloc::Global;
use std::sync::Wait;
use table_shared::{Table, TableCursor};

/// The channel of a protocol with routes of its own does turns until there is nothing to do.
fn settle_own<R: Wait, J: Judge + Drop>(
    alloc: Global,
    rt: &R,
    tables: &Vec<Table>,
    session: SessionLeft<J>,
) -> Result<SessionLeft<J>, OpFault>
    requires { (key : SessionTerms) × IsOver J.verdict tables.now.items key session }
    ensures { IfOk result (IsLater J.verdict session) }
{
    match settle_session(alloc, rt, tables, session) {
        Ok(settled) => Ok(settled),
        Err(_) => Err(OpFault::Memory),
    }
}

/// A member's channel or directions do turns, each until there is nothing to do or there is no
/// room.
fn settle_member<R: Wait, G: Gate, J: Judge + Drop>(
    alloc: Global,
    rt: &R,
    gate: &G,
    tables: &Vec<Table>,
    sources: &[Src],
    member: MemberLeft<J>,
) -> Result<MemberLeft<J>, OpFault>
    requires { CanSettle J.verdict tables.now.items sources.now member }
    ensures { IfOk result (IsLaterMember J.verdict sources.now member) }
{
    match member {
        MemberLeft::Own(session) => {
            let settled = settle_own(alloc, rt, tables, session)?;
            Ok(MemberLeft::Own(settled))
        }
        MemberLeft::Pipe(pipe) => {
            let settled = settle_pipe(alloc, rt, gate, tables, sources, pipe)?;
            Ok(MemberLeft::Pipe(settled))
        }
    }
}

/// One more member has had its turns.
fn keep<J: Judge + Drop>(
    members: &mut Vec<MemberLeft<J>>,
    member: MemberLeft<J>,
) -> Result<(), OpFault>
    ensures { IfOk result (λ _. members.new.items ≡ members.old.items ++ member ∷ []) }
{
    match members.push(member) {
        Ok(()) => Ok(()),
        Err(_) => Err(OpFault::Memory),
    }
}

/// Each member has its turns, one after another.
fn one_round<R: Wait, G: Gate, J: Judge + Drop>(
    alloc: Global,
    rt: &R,
    gate: &G,
    tables: &Vec<Table>,
    sources: &[Src],
    members: Vec<MemberLeft<J>>,
) -> Result<Vec<MemberLeft<J>>, OpFault>
    requires { AllByRecursion (CanSettle J.verdict tables.now.items sources.now) members.items }
    ensures { IfOk result (λ settled.
        AreBeside (IsLaterMember J.verdict sources.now) members.items settled.items) }
{
    let mut all = Vec::new(alloc);
    for member in members {
        let settled = settle_member(alloc, rt, gate, tables, sources, member)?;
        keep(&mut all, settled)?;
    }
    Ok(all)
}

/// Whether all that is up has read and sent all that ports have seen.
fn have_rested<J: Judge>(
    alloc: Global,
    tables: usize,
    members: &[MemberLeft<J>],
) -> Result<bool, OpFault>
    requires { AllByRecursion (IsAmong tables) members.now }
    ensures { IfOk result (λ rested. rested ≡ true → HaveRested tables members.now) }
{
    match last_heads(alloc, tables, members) {
        Ok(heads) => Ok(have_read(members, &heads)),
        Err(_) => Err(OpFault::Memory),
    }
}

/// Brings all that is left of the members of a phase to rest, over tables that nobody else writes
/// any more: each channel and each direction that is up has then read and sent all, up to the last
/// head of the table that it reads. What is down stays as it is, but for its cursors, which move
/// past the entries that there are, as do the spare ones: cursors of tables that their channels
/// don't read, which lag like any other. It ends at the first fault: a table that has no position
/// left, or want of memory.
pub fn settle_members<R: Wait, G: Gate, J: Judge + Drop>(
    alloc: Global,
    rt: &R,
    gate: &G,
    tables: &Vec<Table>,
    sources: &[Src],
    spares: &mut Vec<Vec<TableCursor>>,
    mut members: Vec<MemberLeft<J>>,
) -> Result<Vec<MemberLeft<J>>, OpFault>
    requires { AllByRecursion (CanSettle J.verdict tables.now.items sources.now) members.items }
    ensures later { IfOk result (λ settled.
        AreBeside (IsLaterMember J.verdict sources.now) members.items settled.items) }
    ensures rests { IfOk result (λ settled. (heads : List ℕ)
        × AreHeads (length tables.now.items) settled.items heads
        × AllByRecursion (HasRead heads) settled.items) }
{
    for _ in rt.forever() {
        pass_spares(spares);
        members = one_round(alloc, rt, gate, tables, sources, members)?;
        if have_rested(alloc, tables.len(), &members)? {
            return Ok(members);
        }
    }
    unreachable!()
}
