//! Actors hear of a start before they act.
//!
//! A hand is told its protocol's turns under the protocol's lock. It has then seen all that the
//! hand for starts has, and has recorded none of that. So once all actors have heard it is known
//! that nobody else had a turn before.
ghost use Rattle.std.specs.Prelude.{◌≡◌, ◌<◌, ℕ, Some, length, slice_get, IfOk};
ghost use Rattle.import_lock.specs.Calls.{IsRoomOf};
ghost use Rattle.import_lock.specs.Kept.{IsImports};
ghost use Rattle.import_lock.specs.Terms.{ImportTerms};
ghost use Rattle.jour.specs.Seats.{front, journal};
ghost use Rattle.phase_legal.specs.Shown.{AreGrown, IsGrown, IsSeen, Room as Journals};
ghost use Rattle.phase_pipes.specs.Sessions.{pipe_terms};
ghost use Rattle.phase_room.specs.Sessions.{protocol_terms};
ghost use Rattle.room_members.specs.Members.{ArePasses, IsRoom, room_seen};
ghost use Rattle.room_members.specs.declared.member.Member.TheVariants.{Own, Pipe};
ghost use Rattle.room_run.specs.Inside.{AreNew, AreOfOthers, HasHeard, IsAllSeen, IsNew};

use attrs::Judge;
use export_lock::Sends;
use import_lock::{Hand, ImportState, OpFault, Phase, Turns};
use phase_actors::Actor;
use phase_pipes::PipeSession;
use phase_room::Session;
use room_members::{Member, Room};
use std::sync::Wait;
use table_shared::TablePass;

/// A hand has seen the whole list of turns, of which the other one has seen a front.
fn tell_turns(turns: &mut Turns, other: &mut Hand, hand: &mut Hand)
    requires here { (journal other.old ≡ journal turns.old)
        × (journal hand.old ≡ journal turns.old) }
    ensures turns { (journal turns.new ≡ journal turns.old)
        × (front turns.new.1 ≡ front turns.old.1) }
    ensures other { other.new ≡ other.old }
    ensures heard { HasHeard other.old hand.old hand.new }
    ensures all { front hand.new.1 ≡ front turns.old.1 }
{
    turns.hear_maker(other);
    turns.tell_maker(hand);
}

/// The same of a protocol with routes of its own, of which the pass has then seen what these turns
/// gave. A fault that came before comes again.
fn tell_imports<J: Judge>(
    state: &mut ImportState<J>,
    other: &mut Hand,
    hand: &mut Hand,
    pass: &mut TablePass,
) -> Result<(), OpFault>
    requires imports { (key : ImportTerms) × IsImports J.verdict key state.old
        × (journal pass.old ≡ key.port)
        × (journal other.old ≡ key.turns) × (journal hand.old ≡ key.turns) }
    ensures kept { (key : ImportTerms) → IsImports J.verdict key state.old
        → IsImports J.verdict key state.new }
    ensures other { other.new ≡ other.old }
    ensures heard { IfOk result (λ _. HasHeard other.old hand.old hand.new) }
    ensures pass { IfOk result (λ _. IsGrown pass.old pass.new) }
    ensures seen { IfOk result (λ _. (key : ImportTerms) (room : Journals)
        → IsImports J.verdict key state.old → IsRoomOf key.phase room
        → IsSeen room key.number key.port_number hand.new pass.new) }
{
    match state.fault {
        Some(fault) => Err(fault),
        None => {
            tell_turns(&mut state.turns, other, hand);
            state.share(pass);
            Ok(())
        }
    }
}

/// The same under the protocol's lock. The passes are one of each table.
fn tell_own<R: Wait, J: Judge + Drop, P: Phase + Sends>(
    rt: &R,
    room: &Room<J, P>,
    number: usize,
    session: &Session<J, P>,
    other: &mut Hand,
    hand: &mut Hand,
    passes: &mut Vec<TablePass>,
) -> Result<(), OpFault>
    requires room { IsRoom P.terms P.exports P.rules room.now }
    requires there { slice_get room.now.members.items number ≡ Some (Own session.now) }
    requires hands { (journal other.old ≡ (protocol_terms P.terms session.now).turns)
        × (journal hand.old ≡ (protocol_terms P.terms session.now).turns) }
    requires passes { ArePasses room.now.tables.items passes.old.items }
    ensures other { other.new ≡ other.old }
    ensures heard { IfOk result (λ _. HasHeard other.old hand.old hand.new) }
    ensures passes { IfOk result (λ _. AreGrown passes.old.items passes.new.items) }
    ensures seen { IfOk result (λ _.
        IsAllSeen (room_seen P.terms room.now) number hand.new passes.new.items) }
{
    let pass = &mut passes[session.table as usize];
    let (held, mut state) = session.import.lock(rt);
    let told = tell_imports(&mut state, other, hand, pass);
    session.import.unlock(held, state);
    told
}

/// The hand of a pipe has seen all turns, of which the other one has seen a front.
fn tell_pipe<R: Wait, J: Judge + Drop, P: Phase + Sends>(
    rt: &R,
    pipe: &PipeSession<J, P>,
    other: &mut Hand,
    hand: &mut Hand,
)
    requires { (journal other.old ≡ (pipe_terms P.terms pipe.now).turns)
        × (journal hand.old ≡ (pipe_terms P.terms pipe.now).turns) }
    ensures other { other.new ≡ other.old }
    ensures heard { HasHeard other.old hand.old hand.new }
{
    let (held, mut state) = pipe.pipe.lock(rt);
    tell_turns(&mut state.turns, other, hand);
    pipe.pipe.unlock(held, state);
}

/// A hand of the protocol of a number has seen all its turns, of which the other one has seen a
/// front, and the passes, one of each table, what these turns gave.
fn tell_hand<R: Wait, J: Judge + Drop, P: Phase + Sends>(
    rt: &R,
    room: &Room<J, P>,
    number: usize,
    other: &mut Hand,
    hand: &mut Hand,
    passes: &mut Vec<TablePass>,
) -> Result<(), OpFault>
    requires room { IsRoom P.terms P.exports P.rules room.now }
    requires there { number < length room.now.members.items }
    requires other { slice_get (room_seen P.terms room.now).turns number
        ≡ Some (journal other.old) }
    requires hand { slice_get (room_seen P.terms room.now).turns number
        ≡ Some (journal hand.old) }
    requires passes { ArePasses room.now.tables.items passes.old.items }
    ensures other { other.new ≡ other.old }
    ensures heard { IfOk result (λ _. HasHeard other.old hand.old hand.new) }
    ensures passes { IfOk result (λ _. AreGrown passes.old.items passes.new.items) }
    ensures seen { IfOk result (λ _.
        IsAllSeen (room_seen P.terms room.now) number hand.new passes.new.items) }
{
    match &room.members[number] {
        Member::Own(session) => tell_own(rt, room, number, session, other, hand, passes),
        Member::Pipe(pipe) => {
            tell_pipe(rt, pipe, other, hand);
            Ok(())
        }
    }
}

/// An actor that has done none of its lines hears of the turns of a protocol that the hand for its
/// start has seen, and they are none of its own.
fn tell_actor<R: Wait, J: Judge + Drop, P: Phase + Sends>(
    rt: &R,
    room: &Room<J, P>,
    number: usize,
    starter: &mut Hand,
    actor: &mut Actor,
) -> Result<(), OpFault>
    requires room { IsRoom P.terms P.exports P.rules room.now }
    requires there { number < length room.now.members.items }
    requires starter { slice_get (room_seen P.terms room.now).turns number
        ≡ Some (journal starter.old) }
    requires new { IsNew P.terms room.now actor.old }
    ensures starter { starter.new ≡ starter.old }
    ensures same { actor.new.number ≡ actor.old.number }
    ensures new { IfOk result (λ _. IsNew P.terms room.now actor.new) }
    ensures none { IfOk result (λ _. AreOfOthers actor.old.number (front starter.old.1)) }
{
    let hand = &mut actor.hands[number];
    tell_hand(rt, room, number, starter, hand, &mut actor.passes)
}

/// The same of the actor at a place.
fn tell_one<R: Wait, J: Judge + Drop, P: Phase + Sends>(
    rt: &R,
    room: &Room<J, P>,
    number: usize,
    starter: &mut Hand,
    place: usize,
    actors: &mut Vec<Actor>,
) -> Result<(), OpFault>
    requires room { IsRoom P.terms P.exports P.rules room.now }
    requires there { number < length room.now.members.items }
    requires starter { slice_get (room_seen P.terms room.now).turns number
        ≡ Some (journal starter.old) }
    requires actors { AreNew P.terms room.now actors.old.items }
    requires place { place < (P.terms room.now.played.value).starter }
    ensures starter { starter.new ≡ starter.old }
    ensures actors { IfOk result (λ _. AreNew P.terms room.now actors.new.items) }
    ensures none { IfOk result (λ _. AreOfOthers place (front starter.old.1)) }
{
    let actor = &mut actors[place];
    tell_actor(rt, room, number, starter, actor)
}

/// The same of all actors.
pub(crate) fn tell_actors<R: Wait, J: Judge + Drop, P: Phase + Sends>(
    rt: &R,
    room: &Room<J, P>,
    number: usize,
    starter: &mut Hand,
    actors: &mut Vec<Actor>,
) -> Result<(), OpFault>
    requires room { IsRoom P.terms P.exports P.rules room.now }
    requires there { number < length room.now.members.items }
    requires starter { slice_get (room_seen P.terms room.now).turns number
        ≡ Some (journal starter.old) }
    requires actors { AreNew P.terms room.now actors.old.items }
    ensures starter { starter.new ≡ starter.old }
    ensures actors { IfOk result (λ _. AreNew P.terms room.now actors.new.items) }
    ensures none { IfOk result (λ _. (actor : ℕ)
        → actor < (P.terms room.now.played.value).starter
        → AreOfOthers actor (front starter.old.1)) }
{
    for place in 0..actors.len() {
        tell_one(rt, room, number, starter, place, actors)?;
    }
    Ok(())
}
