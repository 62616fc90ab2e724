//! Hands go to their protocols, and passes and replies stay with their actors, once all have acted.
ghost use Rattle.std.specs.Prelude.{◌≡◌, ◌++◌, ◌∷◌, ℕ, [], None, Some, length, map, slice_get, IfOk};
ghost use Rattle.std.specs.List.{All};
ghost use Rattle.phase_close.specs.Rooms.{HandsView};
ghost use Rattle.room_threads.specs.Acted.{HasActed};
ghost use Rattle.room_run.specs.Inside.{AreAmong, AreDealt, AreStartSeats, Deals, DealsActor, actor_of};

use attrs::Judge;
use bits_ip::OutOfMemory;
use export_lock::Sends;
use import_lock::{Hand, OpFault, Phase};
use phase_actors::{Actor, Told};
use phase_room::{no_lists, push_each};
use room_members::Room;
use room_threads::Acted;
use std::alloc::Global;
use table_shared::TablePass;

/// The seats of those who are through, and what actors were told.
#[derive(Drop)]
pub struct Dealt {
    /// By protocol the hands of its turns.
    pub hands: Vec<Vec<Hand>>,
    /// By actor a pass of each table.
    pub passes: Vec<Vec<TablePass>>,
    /// By actor the answers to its questions.
    pub told: Vec<Vec<Told>>,
}

/// Keeps what an actor was told, behind what those before it were told.
fn note(told: &mut Vec<Vec<Told>>, replies: Vec<Told>) -> Result<(), OpFault>
    ensures { IfOk result (λ _. told.new.items ≡ told.old.items ++ replies ∷ []) }
{
    match told.push(replies) {
        Ok(()) => Ok(()),
        Err(_) => Err(OpFault::Memory),
    }
}

/// That an actor had no fault.
fn check_done(acted: &Acted) -> Result<(), OpFault>
    ensures { IfOk result (λ _. acted.now.fault ≡ None) }
{
    match acted.fault {
        Some(fault) => Err(fault),
        None => Ok(()),
    }
}

impl Dealt {
    /// Nobody's seats, with a list for each of so many protocols.
    fn none(alloc: Global, protocols: usize) -> Result<Dealt, OutOfMemory>
        ensures count { IfOk result (λ dealt. length dealt.hands.items ≡ protocols) }
        ensures empty { IfOk result (λ dealt. (place : ℕ) (list : HandsView)
            → slice_get dealt.hands.items place ≡ Some list → list.items ≡ []) }
        ensures others { IfOk result (λ dealt. (dealt.passes.items ≡ [])
            × (dealt.told.items ≡ [])) }
    {
        let hands = no_lists(alloc, protocols)?;
        Ok(Dealt {
            hands,
            passes: Vec::new(alloc),
            told: Vec::new(alloc),
        })
    }

    /// One hand of each protocol more, and one list of passes.
    fn push_seats(&mut self, hands: Vec<Hand>, passes: Vec<TablePass>) -> Result<(), OutOfMemory>
        requires { length hands.items ≡ length self.old.hands.items }
        ensures deals { IfOk result (λ _. Deals hands.items passes self.old self.new) }
        ensures told { IfOk result (λ _. self.new.told.items ≡ self.old.told.items) }
    {
        push_each(&mut self.hands, hands)?;
        self.passes.push(passes)?;
        Ok(())
    }

    /// The same, with want of memory as a fault.
    fn deal_seats(&mut self, hands: Vec<Hand>, passes: Vec<TablePass>) -> Result<(), OpFault>
        requires { length hands.items ≡ length self.old.hands.items }
        ensures deals { IfOk result (λ _. Deals hands.items passes self.old self.new) }
        ensures told { IfOk result (λ _. self.new.told.items ≡ self.old.told.items) }
    {
        match self.push_seats(hands, passes) {
            Ok(()) => Ok(()),
            Err(_) => Err(OpFault::Memory),
        }
    }

    /// Deals an actor's seats, and keeps what it was told.
    fn deal_actor(&mut self, actor: Actor) -> Result<(), OpFault>
        requires { length actor.hands.items ≡ length self.old.hands.items }
        ensures { IfOk result (λ _. DealsActor actor self.old self.new) }
    {
        let Actor {
            hands,
            passes,
            replies,
            ..
        } = actor;
        self.deal_seats(hands, passes)?;
        note(&mut self.told, replies)?;
        Ok(())
    }

    /// The same of an actor that had no fault.
    fn deal_one(&mut self, acted: Acted) -> Result<(), OpFault>
        requires { length acted.actor.hands.items ≡ length self.old.hands.items }
        ensures { IfOk result (λ _. (acted.fault ≡ None)
            × DealsActor acted.actor self.old self.new) }
    {
        check_done(&acted)?;
        let Acted { actor, .. } = acted;
        self.deal_actor(actor)?;
        Ok(())
    }
}

/// Lists for a room's protocols.
fn no_seats<J: Judge + Drop, P: Phase + Sends>(
    alloc: Global,
    room: &Room<J, P>,
) -> Result<Dealt, OpFault>
    ensures { IfOk result (AreDealt P.terms room.now []) }
{
    match Dealt::none(alloc, room.members.len()) {
        Ok(none) => Ok(none),
        Err(_) => Err(OpFault::Memory),
    }
}

/// Deals the seats of all actors, up to the first that had a fault.
fn deal_actors<J: Judge + Drop, P: Phase + Sends>(
    room: &Room<J, P>,
    none: Dealt,
    all: Vec<Acted>,
) -> Result<Dealt, OpFault>
    requires acted { All (HasActed P.terms room.now) all.items }
    requires none { AreDealt P.terms room.now [] none }
    ensures { IfOk result (AreDealt P.terms room.now (map actor_of all.items)) }
{
    let mut dealt = none;
    for acted in all {
        dealt.deal_one(acted)?;
    }
    Ok(dealt)
}

/// Deals the seats of all actors and those for starts. It ends at the first fault, an actor's or
/// want of memory.
pub(crate) fn deal<J: Judge + Drop, P: Phase + Sends>(
    alloc: Global,
    room: &Room<J, P>,
    all: Vec<Acted>,
    starters: Vec<Hand>,
    passes: Vec<TablePass>,
) -> Result<Dealt, OpFault>
    requires acted { All (HasActed P.terms room.now) all.items }
    requires seats { AreStartSeats P.terms room.now starters.items passes.items }
    ensures dealt { IfOk result (AreDealt P.terms room.now (map actor_of all.items)) }
    ensures starters { IfOk result (λ dealt. AreAmong starters.items dealt.hands.items) }
{
    let none = no_seats(alloc, room)?;
    let mut dealt = deal_actors(room, none, all)?;
    dealt.deal_seats(starters, passes)?;
    Ok(dealt)
}
