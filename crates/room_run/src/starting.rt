//! Static protocols start, before any actor acts.
ghost use Rattle.std.specs.Prelude.{◌≡◌, ◌+◌, ◌++◌, ◌∷◌, ◌<◌, ℕ, List, [], Some, length, slice_get, IfOk};
ghost use Rattle.std.specs.List.{All};
ghost use mathlib.Core.List.{IsPrefix};
ghost use Rattle.jour.specs.Seats.{front, journal, number_of, own};
ghost use Rattle.core_machine.specs.Lines.{Act};
ghost use Rattle.phase_legal.specs.Shown.{AreGrown};
ghost use Rattle.phase_legal.specs.Turns.{turn_words, words_in};
ghost use Rattle.room_members.specs.Members.{ArePasses, IsRoom, room_seen};
ghost use Rattle.room_run.specs.Inside.{AreNew, AreStartSeats, HaveStarted, StartsOnce};
ghost use Rattle.room_ends.specs.Played.{start_act, starts_of};

use crate::telling::tell_actors;
use attrs::Judge;
use export_lock::Sends;
use import_core::Op;
use import_lock::{Hand, Helper, OpFault, Phase};
use outside_io::Gate;
use phase_actors::Actor;
use room_members::Room;
use std::sync::Wait;
use table_shared::TablePass;

/// Has the room do the start of a protocol.
fn operate_start<R: Wait, G: Gate, H: Helper, J: Judge + Drop, P: Phase + Sends>(
    rt: &R,
    gate: &G,
    helper: &H,
    room: &Room<J, P>,
    number: usize,
    hand: &mut Hand,
    passes: &mut Vec<TablePass>,
) -> Result<(), OpFault>
    requires room { IsRoom P.terms P.exports P.rules room.now }
    requires there { number < length room.now.members.items }
    requires hand { slice_get (room_seen P.terms room.now).turns number
        ≡ Some (journal hand.old) }
    requires number { number_of hand.old.1.role ≡ (P.terms room.now.played.value).starter }
    requires passes { ArePasses room.now.tables.items passes.old.items }
    ensures hand { (journal hand.new ≡ journal hand.old)
        × (number_of hand.new.1.role ≡ number_of hand.old.1.role) }
    ensures prefix { IsPrefix (front hand.old.1) (front hand.new.1) }
    ensures passes { AreGrown passes.old.items passes.new.items }
    ensures said { IfOk result (λ _. words_in (own hand.new.1)
        ≡ words_in (own hand.old.1) ++ turn_words 0 ∷ []) }
{
    room.operate(rt, gate, helper, number, hand, passes, 0, &Op::Start)
}

/// Does the start of a protocol with its hand for that, of which all actors hear, so that no other
/// turn came before. The passes are one of each table.
fn start_with<R: Wait, G: Gate, H: Helper, J: Judge + Drop, P: Phase + Sends>(
    rt: &R,
    gate: &G,
    helper: &H,
    room: &Room<J, P>,
    number: usize,
    hand: &mut Hand,
    passes: &mut Vec<TablePass>,
    actors: &mut Vec<Actor>,
) -> Result<(), OpFault>
    requires room { IsRoom P.terms P.exports P.rules room.now }
    requires there { number < length room.now.members.items }
    requires hand { slice_get (room_seen P.terms room.now).turns number
        ≡ Some (journal hand.old) }
    requires number { number_of hand.old.1.role ≡ (P.terms room.now.played.value).starter }
    requires hands { hand.old.1.seen.terms.opening
        ≡ (P.terms room.now.played.value).starter + 1 }
    requires passes { ArePasses room.now.tables.items passes.old.items }
    requires actors { AreNew P.terms room.now actors.old.items }
    ensures starts { IfOk result (λ _. StartsOnce hand.old hand.new) }
    ensures passes { AreGrown passes.old.items passes.new.items }
    ensures actors { IfOk result (λ _. AreNew P.terms room.now actors.new.items) }
{
    operate_start(rt, gate, helper, room, number, hand, passes)?;
    tell_actors(rt, room, number, hand, actors)?;
    // What it has seen is of hands up to its own number.
    let _seen = hand.seen();
    Ok(())
}

/// Does the start of the protocol of a number, with the hand and the passes for it.
fn start_one<R: Wait, G: Gate, H: Helper, J: Judge + Drop, P: Phase + Sends>(
    rt: &R,
    gate: &G,
    helper: &H,
    room: &Room<J, P>,
    number: u32,
    starters: &mut Vec<Hand>,
    passes: &mut Vec<TablePass>,
    actors: &mut Vec<Actor>,
) -> Result<(), OpFault>
    requires room { IsRoom P.terms P.exports P.rules room.now }
    requires there { number < length room.now.members.items }
    requires seats { AreStartSeats P.terms room.now starters.old.items passes.old.items }
    requires actors { AreNew P.terms room.now actors.old.items }
    ensures seats { IfOk result (λ _.
        AreStartSeats P.terms room.now starters.new.items passes.new.items) }
    ensures actors { IfOk result (λ _. AreNew P.terms room.now actors.new.items) }
    ensures started { IfOk result (λ _. (starts : List Act)
        → HaveStarted (P.terms room.now.played.value).starter starts starters.old.items
        → HaveStarted (P.terms room.now.played.value).starter (start_act number ∷ starts)
        starters.new.items) }
{
    let hand = &mut starters[number as usize];
    start_with(
        rt,
        gate,
        helper,
        room,
        number as usize,
        hand,
        passes,
        actors,
    )?;
    Ok(())
}

/// Does the starts of these protocols, one after another.
pub(crate) fn start_all<R: Wait, G: Gate, H: Helper, J: Judge + Drop, P: Phase + Sends>(
    rt: &R,
    gate: &G,
    helper: &H,
    room: &Room<J, P>,
    numbers: &[u32],
    starters: &mut Vec<Hand>,
    passes: &mut Vec<TablePass>,
    actors: &mut Vec<Actor>,
) -> Result<(), OpFault>
    requires room { IsRoom P.terms P.exports P.rules room.now }
    requires there { All (λ (number : ℕ). number < length room.now.members.items) numbers.now }
    requires seats { AreStartSeats P.terms room.now starters.old.items passes.old.items }
    requires none { HaveStarted (P.terms room.now.played.value).starter (starts_of [])
        starters.old.items }
    requires actors { AreNew P.terms room.now actors.old.items }
    ensures seats { IfOk result (λ _.
        AreStartSeats P.terms room.now starters.new.items passes.new.items) }
    ensures actors { IfOk result (λ _. AreNew P.terms room.now actors.new.items) }
    ensures started { IfOk result (λ _. HaveStarted (P.terms room.now.played.value).starter
        (starts_of numbers.now) starters.new.items) }
{
    for index in 0..numbers.len() {
        start_one(
            rt,
            gate,
            helper,
            room,
            numbers[index],
            starters,
            passes,
            actors,
        )?;
    }
    Ok(())
}
