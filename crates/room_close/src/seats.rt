//! The seats of members end in their tables.
ghost use Rattle.std.specs.Prelude.{◌≡◌, IfOk};
ghost use Rattle.std.specs.List.{AllByRecursion};
ghost use Rattle.phase_close.specs.Closed.{all_lists};
ghost use Rattle.phase_legal.specs.Shown.{AreBeside};
ghost use Rattle.room_ends.specs.Ended.{CanEndMember, EndsMember};

use attrs::Judge;
use bits_ip::OutOfMemory;
use phase_close::end_session_at;
use pipe_close::end_pipe;
use pipe_rest::MemberLeft;
use room_ends::MemberEnded;
use std::alloc::Global;
use table_shared::Closing;

/// Ends the ports and cursors of a member in its tables, which are among these by number.
fn end_member<J: Judge + Drop>(closings: &mut Vec<Closing>, member: MemberLeft<J>) -> MemberEnded<J>
    requires { CanEndMember J.verdict (all_lists closings.old.items) member }
    ensures same { all_lists closings.new.items ≡ all_lists closings.old.items }
    ensures ended { EndsMember J.verdict (all_lists closings.old.items) member result }
{
    match member {
        MemberLeft::Own(session) => MemberEnded::Own(end_session_at(closings, session)),
        MemberLeft::Pipe(pipe) => MemberEnded::Pipe(end_pipe(closings, pipe)),
    }
}

/// The same of all members. Where it refuses, for want of memory, nothing is said of what there is
/// then.
pub(crate) fn end_members<J: Judge + Drop>(
    alloc: Global,
    closings: &mut Vec<Closing>,
    members: Vec<MemberLeft<J>>,
) -> Result<Vec<MemberEnded<J>>, OutOfMemory>
    requires { AllByRecursion (CanEndMember J.verdict (all_lists closings.old.items))
        members.items }
    ensures same { all_lists closings.new.items ≡ all_lists closings.old.items }
    ensures ended { IfOk result (λ all.
        AreBeside (EndsMember J.verdict (all_lists closings.old.items)) members.items all.items) }
{
    let mut all = Vec::new(alloc);
    for member in members {
        let ended = end_member(closings, member);
        all.push(ended)?;
    }
    Ok(all)
}
