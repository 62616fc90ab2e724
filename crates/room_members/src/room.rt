//! What the threads of a phase share.
ghost use Rattle.std.specs.Prelude.{◌≡◌, ◌++◌, ◌∷◌, [], vec_len, OnOk};
ghost use Rattle.phase_pipes.specs.Sources.{AreSourcesOf};
ghost use Rattle.room_members.specs.Members.{IsMember, IsRoom};

use crate::member::Member;
use attrs::{Judge, Src};
use bits_ip::OutOfMemory;
use export_lock::Sends;
use import_lock::Phase;
use std::alloc::Global;
use std::snapshot::Snapshot;
use table_shared::Table;

/// Tables and protocols, both by their numbers.
#[derive(Drop)]
pub struct Room<J: Judge + Drop, P: Phase + Sends> {
    /// What is played.
    pub played: Snapshot<P>,
    /// The sources of routes, by the numbers of their protocols.
    pub sources: Vec<Src>,
    pub tables: Vec<Table>,
    pub members: Vec<Member<J, P>>,
}

impl<J: Judge + Drop, P: Phase + Sends> Room<J, P> {
    /// A room of these tables, which has no protocol yet. The sources are those of what is played.
    pub fn over(alloc: Global, played: &P, sources: Vec<Src>, tables: Vec<Table>) -> Room<J, P>
        requires sources { AreSourcesOf (P.terms played.now).setup sources.items }
        ensures room { IsRoom P.terms P.exports P.rules result }
        ensures played { result.played.value ≡ played.now }
        ensures tables { result.tables.items ≡ tables.items }
        ensures members { result.members.items ≡ [] }
    {
        Room {
            played: Snapshot::of(played),
            sources,
            tables,
            members: Vec::new(alloc),
        }
    }

    /// One protocol more, whose number is how many there were.
    pub fn add(&mut self, member: Member<J, P>) -> Result<(), OutOfMemory>
        requires room { IsRoom P.terms P.exports P.rules self.old }
        requires member { IsMember P.terms P.exports P.rules (P.terms self.old.played.value)
            self.old.tables.items (vec_len self.old.members) member }
        ensures room { IsRoom P.terms P.exports P.rules self.new }
        ensures same { (self.new.played ≡ self.old.played)
            × (self.new.tables.items ≡ self.old.tables.items) }
        ensures added { OnOk result
            (self.new.members.items ≡ self.old.members.items ++ member ∷ []) }
    {
        self.members.push(member)?;
        Ok(())
    }
}
