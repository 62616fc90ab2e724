//! An operation of a protocol of a room.
ghost use Rattle.std.specs.Prelude.{◌≡◌, ◌++◌, ◌∷◌, ◌<◌, ℕ, [], Some, slice_get, vec_len, IfOk};
ghost use mathlib.Core.List.{IsPrefix};
ghost use Rattle.jour.specs.Seats.{front, journal, number_of, own};
ghost use Rattle.phase_legal.specs.Shown.{AreGrown, IsSeen, PassView};
ghost use Rattle.phase_legal.specs.Turns.{turn_words, words_in};
ghost use Rattle.core_setup.specs.Protocols.{rules_of};
ghost use Rattle.import_lock.specs.Terms.{IsLineOf};
ghost use Rattle.phase_pipes.specs.Sessions.{pipe_terms};
ghost use Rattle.phase_room.specs.Sessions.{protocol_terms};
ghost use Rattle.pipe_lock.specs.Terms.{IsLineOf as IsPipeLineOf};
ghost use Rattle.room_members.specs.Members.{ArePasses, IsRoom, MayRecord, room_seen};
ghost use Rattle.room_members.specs.declared.member.Member.{Member as MemberView};
ghost use Rattle.room_members.specs.declared.member.Member.TheVariants.{Own, Pipe};

use crate::member::Member;
use crate::room::Room;
use attrs::Judge;
use export_lock::Sends;
use import_core::Op;
use import_lock::{Hand, Helper, OpFault, Phase};
use outside_io::Gate;
use phase_pipes::PipeSession;
use phase_room::Session;
use std::sync::Wait;
use table_shared::TablePass;

impl<J: Judge + Drop, P: Phase + Sends> Room<J, P> {
    /// Does an operation of a protocol with routes of its own.
    fn operate_own<R: Wait, G: Gate, H: Helper>(
        &self,
        rt: &R,
        gate: &G,
        helper: &H,
        protocol: usize,
        session: &Session<J, P>,
        hand: &mut Hand,
        passes: &mut Vec<TablePass>,
        line: u32,
        op: &Op,
    ) -> Result<(), OpFault>
        requires room { IsRoom P.terms P.exports P.rules self.now }
        requires there { slice_get self.now.members.items protocol ≡ Some (Own session.now) }
        requires line { IsLineOf (protocol_terms P.terms session.now)
            (number_of hand.old.1.role) line op.now }
        requires hand { journal hand.old ≡ (protocol_terms P.terms session.now).turns }
        requires passes { ArePasses self.now.tables.items passes.old.items }
        ensures hand { (journal hand.new ≡ journal hand.old)
            × (number_of hand.new.1.role ≡ number_of hand.old.1.role) }
        ensures said { IfOk result (λ _. words_in (own hand.new.1)
            ≡ words_in (own hand.old.1) ++ turn_words line ∷ []) }
        ensures prefix { IsPrefix (front hand.old.1) (front hand.new.1) }
        ensures passes { AreGrown passes.old.items passes.new.items }
        ensures seen { IfOk result (λ _. (port : ℕ) (pass : PassView)
            → slice_get (room_seen P.terms self.now).ports protocol ≡ Some port
            → slice_get passes.new.items
            ((rules_of (P.terms self.now.played.value).setup).table protocol) ≡ Some pass
            → IsSeen (room_seen P.terms self.now) protocol port hand.new pass) }
    {
        let place = session.table as usize;
        let table = &self.tables[place];
        let pass = &mut passes[place];
        match session.operate(rt, gate, helper, table, hand, pass, line, op) {
            Ok(_) => Ok(()),
            Err(fault) => Err(fault),
        }
    }

    /// Does an operation of a pipe.
    fn operate_pipe<R: Wait, G: Gate, H: Helper>(
        &self,
        rt: &R,
        gate: &G,
        helper: &H,
        protocol: usize,
        pipe: &PipeSession<J, P>,
        hand: &mut Hand,
        line: u32,
        op: &Op,
    ) -> Result<(), OpFault>
        requires room { IsRoom P.terms P.exports P.rules self.now }
        requires there { slice_get self.now.members.items protocol ≡ Some (Pipe pipe.now) }
        requires line { IsPipeLineOf (pipe_terms P.terms pipe.now)
            (number_of hand.old.1.role) line op.now }
        requires hand { journal hand.old ≡ (pipe_terms P.terms pipe.now).turns }
        ensures hand { (journal hand.new ≡ journal hand.old)
            × (number_of hand.new.1.role ≡ number_of hand.old.1.role) }
        ensures said { IfOk result (λ _. words_in (own hand.new.1)
            ≡ words_in (own hand.old.1) ++ turn_words line ∷ []) }
        ensures prefix { IsPrefix (front hand.old.1) (front hand.new.1) }
    {
        let primary = &self.tables[pipe.primary as usize];
        let peer = &self.tables[pipe.peer as usize];
        let sources = self.sources.as_slice();
        match pipe.operate(rt, gate, helper, primary, peer, sources, hand, line, op) {
            Ok(_) => Ok(()),
            Err(fault) => Err(fault),
        }
    }

    /// Does an operation of the protocol of this number under its locks. Its line is recorded under
    /// the hand, at its place, from 1 on; a start has the place 0. A protocol with routes of its
    /// own sends its changes, of which the pass of its table has then seen all that the operations
    /// of which the hand knows gave; its channel, and both directions of a pipe, take the mark. The
    /// helper is told of cursors that have no room for a change. The passes are one of each table.
    ///
    /// A fault that came before comes again, and nothing is done then. At `Ended` the operation is
    /// recorded, and a part of its changes may be sent. At `Memory` nothing is said of the
    /// protocol.
    pub fn operate<R: Wait, G: Gate, H: Helper>(
        &self,
        rt: &R,
        gate: &G,
        helper: &H,
        protocol: usize,
        hand: &mut Hand,
        passes: &mut Vec<TablePass>,
        line: u32,
        op: &Op,
    ) -> Result<(), OpFault>
        requires room { IsRoom P.terms P.exports P.rules self.now }
        requires there { protocol < vec_len self.now.members }
        requires line { (member : MemberView J P)
            → slice_get self.now.members.items protocol ≡ Some member
            → MayRecord P.terms member (number_of hand.old.1.role) line op.now }
        requires hand { slice_get (room_seen P.terms self.now).turns protocol
            ≡ Some (journal hand.old) }
        requires passes { ArePasses self.now.tables.items passes.old.items }
        ensures hand { (journal hand.new ≡ journal hand.old)
            × (number_of hand.new.1.role ≡ number_of hand.old.1.role) }
        ensures said { IfOk result (λ _. words_in (own hand.new.1)
            ≡ words_in (own hand.old.1) ++ turn_words line ∷ []) }
        ensures prefix { IsPrefix (front hand.old.1) (front hand.new.1) }
        ensures passes { AreGrown passes.old.items passes.new.items }
        ensures seen { IfOk result (λ _. (port : ℕ) (pass : PassView)
            → slice_get (room_seen P.terms self.now).ports protocol ≡ Some port
            → slice_get passes.new.items
            ((rules_of (P.terms self.now.played.value).setup).table protocol) ≡ Some pass
            → IsSeen (room_seen P.terms self.now) protocol port hand.new pass) }
    {
        match &self.members[protocol] {
            Member::Own(session) => {
                self.operate_own(rt, gate, helper, protocol, session, hand, passes, line, op)
            }
            Member::Pipe(pipe) => {
                self.operate_pipe(rt, gate, helper, protocol, pipe, hand, line, op)
            }
        }
    }
}
