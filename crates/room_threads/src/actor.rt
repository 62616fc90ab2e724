//! An actor that is through with its lines, and what its thread owes.
use attrs::Judge;
use export_lock::Sends;
use import_lock::{OpFault, Phase};
use phase_actors::Actor;
use room_members::Room;
use std::snapshot::Snapshot;
use std::thread::{Promise, PromisedHandle};

/// An actor that has done its lines, or those before its fault.
#[derive(Drop)]
pub struct Acted {
    pub actor: Actor,
    pub fault: Option<OpFault>,
}

/// What an actor's thread owes.
#[derive(Drop)]
pub struct Owes<J: Judge + Drop, P: Phase + Sends> {
    pub room: Snapshot<Room<J, P>>,
    pub actor: u32,
}

impl<J: Judge + Drop, P: Phase + Sends> Promise<Acted> for Owes<J, P> {
    ghost use Rattle.std.specs.Prelude.{◌≡◌};
    ghost use Rattle.room_threads.specs.Acted.{HasActed};

    ghost kept_by = { λ owes acted. HasActed P.terms owes.room.value acted
        × (acted.actor.number ≡ owes.actor) };
}

/// An actor whose thread runs, or that is done.
#[derive(Drop)]
pub enum Started<J: Judge + Drop, P: Phase + Sends> {
    Running(PromisedHandle<Acted, Owes<J, P>>),
    Done(Acted),
}
