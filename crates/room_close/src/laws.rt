//! Laws of a room that has ended.
ghost use Rattle.std.specs.Prelude.{◌≡◌, ℕ, List, [], None, Some, slice_get};
ghost use mathlib.Core.List.{IsPrefix};
ghost use Rattle.atomic_table.specs.Seated.{TableId};
ghost use Rattle.jour_rule.specs.declared.views.Terms.{Terms};
ghost use Rattle.jour.specs.Seats.{front};
ghost use Rattle.phase_close.specs.Closed.{SessionTerms};
ghost use Rattle.phase_close.specs.Rooms.{HandsView};
ghost use Rattle.phase_close.specs.Whole.{IsOver, PassesView, entries_at, said_at};
ghost use Rattle.phase_close.specs.declared.session.SessionLeft.{SessionLeft};
ghost use Rattle.phase_legal.specs.Shown.{HandView, PassView};
ghost use Rattle.phase_pipes.specs.declared.session.PipeSession.{PipeSession as PipeView};
ghost use Rattle.phase_room.specs.declared.session.Session.{Session as SessionView};
ghost use Rattle.pipe_close.specs.Ended.{IsPipeOver};
ghost use Rattle.pipe_close.specs.Left.{PipeLocks};
ghost use Rattle.pipe_close.specs.declared.close.PipeLeft.{PipeLeft};
ghost use Rattle.pipe_rest.specs.declared.member.MemberLeft.{MemberLeft};
ghost use Rattle.pipe_rest.specs.declared.member.MemberLeft.TheVariants.{Own as OwnLeft, Pipe as OnePipeLeft};
ghost use Rattle.room_ends.specs.Ended.{IsPipeDone, IsRoomEnded, IsSessionDone};
ghost use Rattle.room_ends.specs.Left.{locks_of, session_key};
ghost use Rattle.room_ends.specs.Synced.{IsSynced};
ghost use Rattle.room_ends.specs.declared.ended.RoomEnded.{RoomEnded as RoomEndedView};
ghost use Rattle.room_members.specs.Members.{IsRoom};
ghost use Rattle.room_members.specs.declared.member.Member.TheVariants.{Own, Pipe};
ghost use Rattle.room_members.specs.declared.room.Room.{Room as RoomView};
ghost use Rattle.table_shared.specs.Opening.{TableOpening};
ghost use Rattle.table_shared.specs.Records.{AreRecords, at_first};

use attrs::Judge;
use export_lock::Sends;
use import_lock::Phase;

/// Each table of a room that has ended has records of its entries, which each actor's pass has seen
/// a front of, and each member's ports and cursors have ended there.
pub fn tables_have_records<J: Judge>()
    ensures records { (tables : List (TableId × Terms TableOpening))
        (left : List (MemberLeft J)) (actors : List PassesView) (ended : RoomEndedView J)
        → (is : IsRoomEnded J.verdict tables left actors ended)
        → (t : ℕ) (table : TableId × Terms TableOpening) → slice_get tables t ≡ Some table
        → AreRecords table.1.opening (at_first table.1.opening) (entries_at is.lists t)
        (said_at ended.phases.items t) }
    ensures none { (tables : List (TableId × Terms TableOpening))
        (left : List (MemberLeft J)) (actors : List PassesView) (ended : RoomEndedView J)
        → IsRoomEnded J.verdict tables left actors ended
        → (t : ℕ) → slice_get tables t ≡ None → said_at ended.phases.items t ≡ [] }
    ensures seen { (tables : List (TableId × Terms TableOpening))
        (left : List (MemberLeft J)) (actors : List PassesView) (ended : RoomEndedView J)
        → (is : IsRoomEnded J.verdict tables left actors ended)
        → (actor : ℕ) (passes : PassesView) → slice_get actors actor ≡ Some passes
        → (t : ℕ) (pass : PassView) → slice_get passes.items t ≡ Some pass
        → IsPrefix (front pass.1) (entries_at is.lists t) }
    ensures sessions { (tables : List (TableId × Terms TableOpening))
        (left : List (MemberLeft J)) (actors : List PassesView) (ended : RoomEndedView J)
        → (is : IsRoomEnded J.verdict tables left actors ended)
        → (number : ℕ) (session : SessionLeft J) → slice_get left number ≡ Some (OwnLeft session)
        → (key : SessionTerms) → IsOver J.verdict tables key session
        → IsSessionDone J.verdict is.lists ended.members.items number key session.table }
    ensures pipes { (tables : List (TableId × Terms TableOpening))
        (left : List (MemberLeft J)) (actors : List PassesView) (ended : RoomEndedView J)
        → (is : IsRoomEnded J.verdict tables left actors ended)
        → (number : ℕ) (pipe : PipeLeft J) → slice_get left number ≡ Some (OnePipeLeft pipe)
        → (key : PipeLocks) (hands : List HandView)
        → IsPipeOver J.verdict tables key hands pipe
        → IsPipeDone J.verdict is.lists ended.members.items number key hands pipe.primary
        pipe.peer }
{}

/// Each member of a room whose phase has ended with all at rest has ended as what it was, with its
/// hands.
pub fn members_have_ended<J: Judge + Drop, P: Phase + Sends>()
    ensures sessions { (room : RoomView J P) (hands : List HandsView) (passes : List PassesView)
        (ended : RoomEndedView J) → IsRoom P.terms P.exports P.rules room
        → (is : IsSynced J.verdict P.terms P.exports P.rules room hands passes ended)
        → (number : ℕ) (own : HandsView) → slice_get hands number ≡ Some own
        → (session : SessionView J P) → slice_get room.members.items number ≡ Some (Own session)
        → IsSessionDone J.verdict is.over.lists ended.members.items number
        (session_key P.terms P.exports session own) session.table }
    ensures pipes { (room : RoomView J P) (hands : List HandsView) (passes : List PassesView)
        (ended : RoomEndedView J) → IsRoom P.terms P.exports P.rules room
        → (is : IsSynced J.verdict P.terms P.exports P.rules room hands passes ended)
        → (number : ℕ) (own : HandsView) → slice_get hands number ≡ Some own
        → (pipe : PipeView J P) → slice_get room.members.items number ≡ Some (Pipe pipe)
        → IsPipeDone J.verdict is.over.lists ended.members.items number
        (locks_of P.terms P.exports P.rules pipe) own.items pipe.primary pipe.peer }
{}
