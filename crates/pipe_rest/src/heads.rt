//! The heads that the ports of tables have seen.
ghost use Rattle.std.specs.Prelude.{◌≤◌, ◌<◌, IfOk, length};
ghost use Rattle.std.specs.List.{AllByRecursion};
ghost use Rattle.pipe_rest.specs.Heads.{AreHeads, IsAmong, IsBelow, PipeIsAmong, PipeIsBelow, head_at};
ghost use Rattle.pipe_rest.specs.Inside.{Raises};

use crate::member::MemberLeft;
use attrs::Judge;
use bits_ip::OutOfMemory;
use pipe_close::PipeLeft;
use std::alloc::Global;

/// Raises the head of a table to one that was seen.
fn raise(heads: &mut Vec<u64>, table: u32, seen: u64)
    requires { table < length heads.old.items }
    ensures raised { Raises heads.old.items heads.new.items }
    ensures seen { seen ≤ head_at heads.new.items table }
{
    let place = table as usize;
    heads[place] = heads[place].max(seen);
}

/// Raises the heads of both tables of a pipe.
fn hear_pipe<J: Judge>(heads: &mut Vec<u64>, pipe: &PipeLeft<J>)
    requires { PipeIsAmong (length heads.old.items) pipe.now }
    ensures raised { Raises heads.old.items heads.new.items }
    ensures below { PipeIsBelow heads.new.items pipe.now }
{
    raise(heads, pipe.peer, pipe.out.port.seen());
    raise(heads, pipe.primary, pipe.back.port.seen());
}

/// Raises the heads of the tables that a protocol writes.
fn hear_member<J: Judge>(heads: &mut Vec<u64>, member: &MemberLeft<J>)
    requires { IsAmong (length heads.old.items) member.now }
    ensures raised { Raises heads.old.items heads.new.items }
    ensures below { IsBelow heads.new.items member.now }
{
    match member {
        MemberLeft::Own(session) => raise(heads, session.table, session.port.seen()),
        MemberLeft::Pipe(pipe) => hear_pipe(heads, pipe),
    }
}

/// By table the greatest head that a port of it has seen, 0 where there is none.
pub fn last_heads<J: Judge>(
    alloc: Global,
    tables: usize,
    members: &[MemberLeft<J>],
) -> Result<Vec<u64>, OutOfMemory>
    requires { AllByRecursion (IsAmong tables) members.now }
    ensures { IfOk result (λ heads. AreHeads tables members.now heads.items) }
{
    let mut heads = Vec::from_elem(alloc, 0, tables)?;
    for member in members {
        hear_member(&mut heads, member);
    }
    Ok(heads)
}
