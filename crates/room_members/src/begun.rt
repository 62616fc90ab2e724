//! A room as a phase begins.
ghost use Rattle.std.specs.Prelude.{◌≡◌, ◌++◌, ◌∷◌, [], length, vec_len, IfOk, OnOk};
ghost use Rattle.jour.specs.Seats.{AreMakers};
ghost use Rattle.phase_pipes.specs.Sources.{AreSourcesOf};
ghost use Rattle.room_members.specs.Begun.{IsBegun};
ghost use Rattle.room_members.specs.Members.{IsMember, turns_of};

use crate::member::Member;
use crate::room::Room;
use attrs::{Judge, Src};
use bits_ip::OutOfMemory;
use export_lock::Sends;
use import_lock::{Hand, Phase};
use phase_room::{no_lists, push_each};
use std::alloc::Global;
use table_shared::Table;

/// A room, and by actor a hand of each of its protocols.
#[derive(Drop)]
pub struct Begun<J: Judge + Drop, P: Phase + Sends> {
    pub room: Room<J, P>,
    pub hands: Vec<Vec<Hand>>,
}

impl<J: Judge + Drop, P: Phase + Sends> Begun<J, P> {
    /// A room of these tables, which has no protocol yet, for so many actors. The sources are those
    /// of what is played.
    pub fn over(
        alloc: Global,
        played: &P,
        sources: Vec<Src>,
        tables: Vec<Table>,
        actors: usize,
    ) -> Result<Begun<J, P>, OutOfMemory>
        requires sources { AreSourcesOf (P.terms played.now).setup sources.items }
        ensures begun { IfOk result (IsBegun P.terms P.exports P.rules) }
        ensures played { IfOk result (λ begun. begun.room.played.value ≡ played.now) }
        ensures tables { IfOk result (λ begun. begun.room.tables.items ≡ tables.items) }
        ensures members { IfOk result (λ begun. begun.room.members.items ≡ []) }
        ensures actors { IfOk result (λ begun. length begun.hands.items ≡ actors) }
    {
        let hands = no_lists(alloc, actors)?;
        let room = Room::over(alloc, played, sources, tables);
        Ok(Begun { room, hands })
    }

    /// One protocol more, whose number is how many there were, with a hand for each actor. Where it
    /// refuses, for want of memory, nothing is said of the hands.
    pub fn add(&mut self, member: Member<J, P>, hands: Vec<Hand>) -> Result<(), OutOfMemory>
        requires begun { IsBegun P.terms P.exports P.rules self.old }
        requires member { IsMember P.terms P.exports P.rules
            (P.terms self.old.room.played.value) self.old.room.tables.items
            (vec_len self.old.room.members) member }
        requires count { length hands.items ≡ length self.old.hands.items }
        requires hands { AreMakers (turns_of P.terms member) hands.items }
        ensures begun { OnOk result (IsBegun P.terms P.exports P.rules self.new) }
        ensures same { OnOk result ((self.new.room.played ≡ self.old.room.played)
            × (self.new.room.tables.items ≡ self.old.room.tables.items)) }
        ensures added { OnOk result (self.new.room.members.items
            ≡ self.old.room.members.items ++ member ∷ []) }
        ensures actors { OnOk result
            (length self.new.hands.items ≡ length self.old.hands.items) }
    {
        push_each(&mut self.hands, hands)?;
        self.room.add(member)?;
        Ok(())
    }
}
