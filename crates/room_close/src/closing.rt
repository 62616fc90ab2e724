//! A member is closed.
ghost use Rattle.std.specs.Prelude.{ℕ, List, IfOk};
ghost use Rattle.atomic_table.specs.Seated.{TableId};
ghost use Rattle.import_lock.specs.Terms.{PhaseTerms};
ghost use Rattle.jour_rule.specs.declared.views.Terms.{Terms};
ghost use Rattle.phase_close.specs.Rooms.{IsLeftOf};
ghost use Rattle.phase_pipes.specs.Sessions.{IsPipeSession, back_terms, out_terms, pipe_terms};
ghost use Rattle.phase_room.specs.Sessions.{IsChannelOf, channel_terms, protocol_terms};
ghost use Rattle.room_ends.specs.Left.{AreHandsOf, IsMemberLeft, IsPipeLeftOf};
ghost use Rattle.room_members.specs.Members.{IsMember};
ghost use Rattle.room_members.specs.declared.member.Member.TheVariants.{Own, Pipe};
ghost use Rattle.table_shared.specs.Opening.{TableOpening};

use attrs::Judge;
use export_lock::Sends;
use import_lock::{Hand, OpFault, Phase};
use phase_close::{SessionLeft, close_session};
use phase_pipes::PipeSession;
use phase_room::Session;
use pipe_close::laws::sessions_can_end;
use pipe_close::{PipeLeft, close_pipe};
use pipe_rest::MemberLeft;
use room_members::Member;
use std::sync::Wait;

/// Opens the locks of a protocol with routes of its own, and ends its hands and its stamp.
fn close_own<R: Wait, J: Judge + Drop, P: Phase + Sends>(
    rt: &R,
    session: Session<J, P>,
    hands: Vec<Hand>,
) -> Result<SessionLeft<J>, OpFault>
    requires channel { IsChannelOf (protocol_terms P.terms session)
        (channel_terms P.exports session) }
    requires hands { AreHandsOf P.terms (Own session) hands }
    ensures { IfOk result (IsLeftOf P.terms P.exports J.verdict session hands) }
{
    close_session(rt, session, hands)
}

/// Opens the locks of a pipe and of its directions, and ends its hands and its directions' stamps.
fn close_one_pipe<R: Wait, J: Judge + Drop, P: Phase + Sends>(
    rt: &R,
    pipe: PipeSession<J, P>,
    hands: Vec<Hand>,
) -> Result<PipeLeft<J>, OpFault>
    requires session { (phase : PhaseTerms) × (tables : List (TableId × Terms TableOpening))
        × (number : ℕ) × IsPipeSession phase tables number pipe.primary pipe.peer
        (pipe_terms P.terms pipe) (out_terms P.exports P.rules pipe)
        (back_terms P.exports P.rules pipe) }
    requires hands { AreHandsOf P.terms (Pipe pipe) hands }
    ensures { IfOk result (IsPipeLeftOf P.terms P.exports P.rules J.verdict pipe hands) }
{
    sessions_can_end::<J>();
    let primary = pipe.primary;
    let peer = pipe.peer;
    let closed = pipe.close(rt);
    close_pipe(primary, peer, closed, hands)
}

/// Opens the locks of a member of a room, and ends its hands, one of each actor and one for starts,
/// and its stamps. Where a fault came in the phase, it comes again.
pub(crate) fn close_member<R: Wait, J: Judge + Drop, P: Phase + Sends>(
    rt: &R,
    member: Member<J, P>,
    hands: Vec<Hand>,
) -> Result<MemberLeft<J>, OpFault>
    requires member { (phase : PhaseTerms) × (tables : List (TableId × Terms TableOpening))
        × (number : ℕ) × IsMember P.terms P.exports P.rules phase tables number member }
    requires hands { AreHandsOf P.terms member hands }
    ensures { IfOk result (IsMemberLeft P.terms P.exports P.rules J.verdict member hands) }
{
    match member {
        Member::Own(session) => {
            let left = close_own(rt, session, hands)?;
            Ok(MemberLeft::Own(left))
        }
        Member::Pipe(pipe) => {
            let left = close_one_pipe(rt, pipe, hands)?;
            Ok(MemberLeft::Pipe(left))
        }
    }
}
