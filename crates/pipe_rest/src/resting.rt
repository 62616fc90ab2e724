//! Whether all that is up is at rest.
ghost use Rattle.std.specs.Prelude.{◌≡◌, ◌↔◌, IsTrue};
ghost use Rattle.std.specs.List.{AllByRecursion};
ghost use Rattle.pipe_rest.specs.Heads.{HasRead, HasReadOf, PipeHasRead, RestsAt, head_at};

use crate::member::MemberLeft;
use attrs::Judge;
use export_lock::ExportState;
use phase_close::SessionLeft;
use pipe_close::PipeLeft;

/// The head of a table, 0 where there is none.
fn head_at(heads: &[u64], table: u32) -> u64
    ensures { result ≡ head_at heads.now table }
{
    match heads.get(table as usize) {
        Some(head) => *head,
        None => 0,
    }
}

/// Whether what reads a table is down, or at rest at no less than this head.
fn rests_at<J: Judge>(state: &ExportState<J>, head: u64) -> bool
    ensures { IsTrue result ↔ RestsAt head state.now }
{
    let known = state.cursor.known();
    let down = !state.exporter.is_up();
    down | (head <= known) & state.exporter.is_settled(known)
}

fn own_has_read<J: Judge>(session: &SessionLeft<J>, heads: &[u64]) -> bool
    ensures { IsTrue result ↔ HasReadOf heads.now session.now.table session.now.channel }
{
    match &session.channel {
        Some(state) => rests_at(state, head_at(heads, session.table)),
        None => true,
    }
}

fn pipe_has_read<J: Judge>(pipe: &PipeLeft<J>, heads: &[u64]) -> bool
    ensures { IsTrue result ↔ PipeHasRead heads.now pipe.now }
{
    let out = rests_at(&pipe.out.state, head_at(heads, pipe.primary));
    let back = rests_at(&pipe.back.state, head_at(heads, pipe.peer));
    out & back
}

/// Whether each channel and each direction of a protocol that is up is at rest, at no less than the
/// head of the table that it reads.
pub fn has_read<J: Judge>(member: &MemberLeft<J>, heads: &[u64]) -> bool
    ensures { IsTrue result ↔ HasRead heads.now member.now }
{
    match member {
        MemberLeft::Own(session) => own_has_read(session, heads),
        MemberLeft::Pipe(pipe) => pipe_has_read(pipe, heads),
    }
}

/// The same of all.
pub fn have_read<J: Judge>(members: &[MemberLeft<J>], heads: &[u64]) -> bool
    ensures { IsTrue result ↔ AllByRecursion (HasRead heads.now) members.now }
{
    for member in members {
        if !has_read(member, heads) {
            return false;
        }
    }
    true
}
