//! An actor does an operation.
ghost use Rattle.std.specs.Prelude.{◌≡◌, ℕ, Some, IfOk};
ghost use Rattle.phase_legal.specs.Turns.{line_at};
ghost use Rattle.phase_actors.specs.Acting.{IsSeated};
ghost use Rattle.phase_actors.specs.Steps.{Does, applying};
ghost use Rattle.room_members.specs.Members.{IsRoom, room_seen};
ghost use Rattle.room_actors.specs.Script.{CanApply};
ghost use Rattle.room_actors.specs.Steps.{AreUsed, IsRecorded};

use attrs::Judge;
use export_lock::Sends;
use import_core::Op;
use import_lock::{Helper, OpFault, Phase};
use outside_io::Gate;
use phase_actors::Actor;
use room_members::Room;
use std::sync::Wait;

/// Does an operation with the actor's hand of the protocol and its passes.
fn operate<R: Wait, G: Gate, H: Helper, J: Judge + Drop, P: Phase + Sends>(
    rt: &R,
    gate: &G,
    helper: &H,
    room: &Room<J, P>,
    actor: &mut Actor,
    place: u32,
    protocol: u32,
    op: &Op,
) -> Result<(), OpFault>
    requires room { IsRoom P.terms P.exports P.rules room.now }
    requires line { (number : ℕ) × (line_at (P.terms room.now.played.value).lines place
        ≡ Some (applying actor.old.number number protocol op.now)) }
    requires can { CanApply P.terms room.now protocol op.now }
    requires seats { IsSeated (room_seen P.terms room.now) actor.old }
    ensures same { (actor.new.number ≡ actor.old.number)
        × (actor.new.replies.items ≡ actor.old.replies.items) }
    ensures used { (used : AreUsed protocol actor.old.hands.items actor.new.hands.items
        actor.old.passes.items actor.new.passes.items)
        × IfOk result (λ _. IsRecorded (room_seen P.terms room.now) protocol place used.hand
        used.hand_new actor.new.passes.items) }
{
    let hand = &mut actor.hands[protocol as usize];
    room.operate(
        rt,
        gate,
        helper,
        protocol as usize,
        hand,
        &mut actor.passes,
        place,
        op,
    )
}

/// A line that asks for an operation, where it is the actor's.
pub fn apply_line<R: Wait, G: Gate, H: Helper, J: Judge + Drop, P: Phase + Sends>(
    rt: &R,
    gate: &G,
    helper: &H,
    room: &Room<J, P>,
    actor: &mut Actor,
    place: u32,
    asker: u32,
    protocol: u32,
    op: &Op,
) -> Result<(), OpFault>
    requires room { IsRoom P.terms P.exports P.rules room.now }
    requires line { (number : ℕ) × (line_at (P.terms room.now.played.value).lines place
        ≡ Some (applying asker number protocol op.now)) }
    requires can { CanApply P.terms room.now protocol op.now }
    requires seats { IsSeated (room_seen P.terms room.now) actor.old }
    ensures number { actor.new.number ≡ actor.old.number }
    ensures seats { IsSeated (room_seen P.terms room.now) actor.new }
    ensures does { (number : ℕ) → IfOk result (λ _.
        Does (P.terms room.now.played.value).setup (room_seen P.terms room.now) place
        (applying asker number protocol op.now) actor.old actor.new) }
{
    if asker != actor.number {
        return Ok(());
    }
    operate(rt, gate, helper, room, actor, place, protocol, op)
}
