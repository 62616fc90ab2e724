//! How protocols enter a room as a phase begins.
ghost use Rattle.std.specs.Prelude.{◌≡◌, ◌+◌, ◌≤◌, ◌<◌, ◌^◌, ◌++◌, ◌∷◌, ℕ, [], None, Some, length, slice_get, vec_len, OnOk};
ghost use Rattle.atomic_table.specs.Seated.{TableId};
ghost use Rattle.jour_rule.specs.declared.views.Terms.{Terms};
ghost use Rattle.core_setup.specs.Setup.{Source};
ghost use Rattle.phase_legal.specs.Shown.{AreBeside};
ghost use Rattle.table_shared.specs.Opening.{TableOpening};
ghost use Rattle.room_members.specs.Begun.{IsBegun};
ghost use Rattle.phase_room.specs.Entering.{IsNewChannel, IsNewSession, StandsIn};
ghost use Rattle.phase_room.specs.Opened.{IsPortOf};
ghost use Rattle.phase_room.specs.Parts.{IsChannelPart};
ghost use Rattle.phase_room.specs.Sessions.{channel_terms};
ghost use Rattle.phase_room.specs.declared.session.Session.{Session as SessionView};
ghost use Rattle.core_setup.specs.Protocols.{rules_of};
ghost use Rattle.jour.specs.Seats.{journal};
ghost use Rattle.phase_pipes.specs.Parts.{ArePipeParts, TableFound};
ghost use Rattle.phase_pipes.specs.Sessions.{IsNewLane, IsNewPipe, back_terms, out_terms};
ghost use Rattle.phase_pipes.specs.declared.session.PipeSession.{PipeSession as PipeView};
ghost use Rattle.room_members.specs.declared.member.Member.TheVariants.{Own, Pipe};

use crate::begun::Begun;
use crate::member::Member;
use attrs::{JEntry, Judge};
use bits_ip::OutOfMemory;
use export_lock::Sends;
use import_core::Importer;
use import_lock::Phase;
use phase_pipes::{DirectionPart, PipePart, begin_pipe};
use phase_room::{ChannelPart, ProtocolPart, begin_neighbour, begin_static};
use std::alloc::Global;
use table_shared::Port;

/// The item of a place.
fn item_of<T: Drop>(items: Vec<T>, place: usize) -> T
    requires { place < vec_len items }
    ensures { slice_get items.items place ≡ Some result }
{
    let mut items = items;
    items.swap_remove(place)
}

impl<J: Judge + Drop, P: Phase + Sends> Begun<J, P> {
    /// The next protocol is a static one, which imports to this table. It has a port of each table.
    pub fn enter_static(
        &mut self,
        alloc: Global,
        played: &P,
        table: u32,
        importer: Importer<J>,
        ports: Vec<Port>,
    ) -> Result<(), OutOfMemory>
        requires begun { IsBegun P.terms P.exports P.rules self.old }
        requires played { self.old.room.played.value ≡ played.now }
        requires hands { (length self.old.hands.items ≡ (P.terms played.now).starter + 1)
            × (length self.old.hands.items ≤ 1024) }
        requires few { length self.old.room.members.items < 2 ^ 32 }
        requires ports { AreBeside (IsPortOf (length self.old.room.members.items))
            self.old.room.tables.items ports.items }
        requires stands { StandsIn J.verdict (P.terms played.now) self.old.room.tables.items
            (length self.old.room.members.items) table importer }
        ensures begun { OnOk result (IsBegun P.terms P.exports P.rules self.new) }
        ensures same { OnOk result ((self.new.room.played ≡ self.old.room.played)
            × (self.new.room.tables.items ≡ self.old.room.tables.items)
            × (length self.new.hands.items ≡ length self.old.hands.items)) }
        ensures count { OnOk result (length self.new.room.members.items
            ≡ length self.old.room.members.items + 1) }
        ensures added { OnOk result ((session : SessionView J P)
            × (self.new.room.members.items ≡ self.old.room.members.items ++ Own session ∷ [])
            × IsNewSession P.terms (P.terms played.now).starter
            (length self.old.room.members.items) table session
            × (channel_terms P.exports session ≡ None)) }
    {
        let part = ProtocolPart {
            number: self.room.members.len() as u32,
            table,
            importer,
            port: item_of(ports, table as usize),
        };
        let (session, hands) = begin_static(alloc, played, self.hands.len() as u32, part)?;
        self.add(Member::Own(session), hands)
    }

    /// The next protocol has a channel to a neighbour, which reads the table that the protocol
    /// imports to. The entries are those of the table before the phase.
    pub fn enter_neighbour(
        &mut self,
        alloc: Global,
        played: &P,
        table: u32,
        importer: Importer<J>,
        ports: Vec<Port>,
        before: &Vec<JEntry>,
        channel: ChannelPart<J>,
    ) -> Result<(), OutOfMemory>
        requires begun { IsBegun P.terms P.exports P.rules self.old }
        requires played { self.old.room.played.value ≡ played.now }
        requires hands { (length self.old.hands.items ≡ (P.terms played.now).starter + 1)
            × (length self.old.hands.items ≤ 1024) }
        requires few { length self.old.room.members.items < 2 ^ 32 }
        requires ports { AreBeside (IsPortOf (length self.old.room.members.items))
            self.old.room.tables.items ports.items }
        requires stands { (protocol : StandsIn J.verdict (P.terms played.now)
            self.old.room.tables.items (length self.old.room.members.items) table importer)
            × (protocol.stood.before ≡ before.now.items)
            × IsChannelPart J.verdict (P.terms played.now) protocol.stood protocol.here
            (P.exports played.now) (length self.old.room.members.items) channel }
        ensures begun { OnOk result (IsBegun P.terms P.exports P.rules self.new) }
        ensures same { OnOk result ((self.new.room.played ≡ self.old.room.played)
            × (self.new.room.tables.items ≡ self.old.room.tables.items)
            × (length self.new.hands.items ≡ length self.old.hands.items)) }
        ensures count { OnOk result (length self.new.room.members.items
            ≡ length self.old.room.members.items + 1) }
        ensures added { OnOk result ((session : SessionView J P)
            × (self.new.room.members.items ≡ self.old.room.members.items ++ Own session ∷ [])
            × IsNewSession P.terms (P.terms played.now).starter
            (length self.old.room.members.items) table session
            × IsNewChannel (P.exports played.now) before.now.items channel
            (channel_terms P.exports session)) }
    {
        let part = ProtocolPart {
            number: self.room.members.len() as u32,
            table,
            importer,
            port: item_of(ports, table as usize),
        };
        let hands = self.hands.len() as u32;
        let (session, given) = begin_neighbour(alloc, played, hands, before, part, channel)?;
        self.add(Member::Own(session), given)
    }

    /// The next protocol is a pipe, with both its directions. The entries are those of its primary
    /// and of its peer table before the phase.
    pub fn enter_pipe(
        &mut self,
        alloc: Global,
        played: &P,
        part: PipePart,
        primary: &Vec<JEntry>,
        peer: &Vec<JEntry>,
        out: DirectionPart<J>,
        back: DirectionPart<J>,
    ) -> Result<(), OutOfMemory>
        requires begun { IsBegun P.terms P.exports P.rules self.old }
        requires played { self.old.room.played.value ≡ played.now }
        requires rules { P.rules played.now ≡ rules_of (P.terms played.now).setup }
        requires hands { (length self.old.hands.items ≡ (P.terms played.now).starter + 1)
            × (length self.old.hands.items ≤ 1024) }
        requires number { part.number ≡ length self.old.room.members.items }
        requires tables { (slice_get self.old.room.tables.items part.primary
            ≡ Some (journal out.cursor.0))
            × (slice_get self.old.room.tables.items part.peer ≡ Some (journal back.cursor.0)) }
        requires parts { (here : TableFound) × (there : TableFound)
            × (here.stood.before ≡ primary.now.items)
            × (there.stood.before ≡ peer.now.items)
            × ArePipeParts J.verdict (P.terms played.now) (P.exports played.now) here there part out
            back }
        ensures begun { OnOk result (IsBegun P.terms P.exports P.rules self.new) }
        ensures same { OnOk result ((self.new.room.played ≡ self.old.room.played)
            × (self.new.room.tables.items ≡ self.old.room.tables.items)
            × (length self.new.hands.items ≡ length self.old.hands.items)) }
        ensures count { OnOk result (length self.new.room.members.items
            ≡ length self.old.room.members.items + 1) }
        ensures added { OnOk result ((pipe : PipeView J P)
            × (self.new.room.members.items ≡ self.old.room.members.items ++ Pipe pipe ∷ [])
            × IsNewPipe P.terms P.exports P.rules played.now part.number part.primary part.peer pipe
            × IsNewLane (P.exports played.now) (P.rules played.now) primary.now.items out
            (out_terms P.exports P.rules pipe)
            × IsNewLane (P.exports played.now) (P.rules played.now) peer.now.items back
            (back_terms P.exports P.rules pipe)) }
    {
        let hands = self.hands.len() as u32;
        let (pipe, given) = begin_pipe(alloc, played, hands, primary, peer, part, out, back)?;
        self.add(Member::Pipe(pipe), given)
    }
}
