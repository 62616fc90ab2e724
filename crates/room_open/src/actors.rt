//! Actors as a phase begins.
ghost use Rattle.std.specs.Prelude.{◌≡◌, ◌≤◌, ◌<◌, ℕ, Some, length, slice_get, IfOk};
ghost use Rattle.phase_actors.specs.declared.actor.Actor.{Actor as ActorView};
ghost use Rattle.room_open.specs.Laid.{IsSeated};
ghost use Rattle.room_open.specs.Lists.{AreLater, AreOthers};

use crate::lists::take_list;
use bits_ip::OutOfMemory;
use import_lock::Hand;
use phase_actors::Actor;
use std::alloc::Global;
use table_shared::TablePass;

/// The actor of a number.
fn seat_next(
    alloc: Global,
    number: u32,
    hands: &mut Vec<Vec<Hand>>,
    passes: &mut Vec<Vec<TablePass>>,
) -> Actor
    requires { (number < length hands.old.items) × (number < length passes.old.items) }
    ensures seated { IsSeated hands.old.items passes.old.items number result }
    ensures hands { AreOthers number hands.old.items hands.new.items }
    ensures passes { AreOthers number passes.old.items passes.new.items }
{
    let own = take_list(alloc, hands, number as usize);
    let shown = take_list(alloc, passes, number as usize);
    Actor {
        number,
        hands: own,
        passes: shown,
        replies: Vec::new(alloc),
    }
}

/// So many actors, each with the hands and the passes of its number.
pub fn seat_all(
    alloc: Global,
    count: u32,
    hands: &mut Vec<Vec<Hand>>,
    passes: &mut Vec<Vec<TablePass>>,
) -> Result<Vec<Actor>, OutOfMemory>
    requires { (count ≤ length hands.old.items) × (count ≤ length passes.old.items) }
    ensures count { IfOk result (λ actors. length actors.items ≡ count) }
    ensures seated { IfOk result (λ actors. (number : ℕ) (actor : ActorView)
        → slice_get actors.items number ≡ Some actor
        → IsSeated hands.old.items passes.old.items number actor) }
    ensures left { IfOk result (λ _. AreLater count hands.old.items hands.new.items
        × AreLater count passes.old.items passes.new.items) }
{
    let mut actors = Vec::new(alloc);
    for number in 0..count {
        let actor = seat_next(alloc, number, hands, passes);
        actors.push(actor)?;
    }
    Ok(actors)
}
