//! The turns of a protocol and of its channel, each under its lock.
ghost use Rattle.std.specs.Prelude.{◌≡◌, ◌∷◌, ◌++◌, ℕ, List, [], None, IfOk};
ghost use mathlib.Core.List.{IsPrefix};
ghost use Rattle.attrs.specs.declared.route.Change.{Change};
ghost use Rattle.import_core.specs.declared.operation.Op.{Op};
ghost use Rattle.jour.specs.Seats.{front, journal, number_of, own};
ghost use Rattle.phase_legal.specs.Shown.{IsSeen, Room as Journals};
ghost use Rattle.phase_legal.specs.Turns.{turn_words, words_in};
ghost use Rattle.import_lock.specs.Calls.{IsDue, IsRoomOf};
ghost use Rattle.import_lock.specs.Kept.{IsImports, left};
ghost use Rattle.import_lock.specs.Terms.{ImportTerms, IsLineOf};
ghost use Rattle.export_lock.specs.Locks.{terms_of as export_terms_of};
ghost use Rattle.phase_room.specs.Sessions.{IsChannelOf, channel_terms, protocol_terms};
ghost use Rattle.phase_room.specs.Together.{AreTogether};

use crate::locks::ExportLock;
use crate::session::Session;
use attrs::Judge;
use core_setup::laws::setups_are_as_asked;
use export_lock::Sends;
use import_core::{Mark, Op};
use import_lock::{Hand, Helper, ImportState, OpFault, Phase, Plan};
use outside_io::Gate;
use std::sync::Wait;
use table_shared::{Table, TablePass};

/// The channel takes the mark of the protocol's last operation, under its lock.
fn mark_channel<R: Wait, J: Judge + Drop, P: Sends>(
    rt: &R,
    table: &Table,
    state: &mut ImportState<J>,
    export: &ExportLock<J, P>,
    mark: Mark,
) -> Result<(), OpFault>
    requires due { (key : ImportTerms) × (made : List (ℕ × Change)) × (op : Op) × (ops : List Op)
        × IsDue J.verdict key made op ops mark state.old
        × (key.port ≡ table.now)
        × AreTogether key (export_terms_of P.exports export.now.1) }
    requires rest { left state.old ≡ [] }
    ensures kept { (key : ImportTerms) (made : List (ℕ × Change)) (op : Op) (ops : List Op)
        → IsDue J.verdict key made op ops mark state.old
        → IsImports J.verdict key state.new }
{
    setups_are_as_asked();
    let (held, mut channel) = export.lock(rt);
    let done = state.give_mark(rt, table, &mut channel, mark);
    export.unlock(held, channel);
    done
}

impl<J: Judge + Drop, P: Phase + Sends> Session<J, P> {
    /// The same of the session's channel. A static protocol has none, and nothing is to be marked.
    fn mark_export<R: Wait>(
        &self,
        rt: &R,
        table: &Table,
        state: &mut ImportState<J>,
        mark: Mark,
    ) -> Result<(), OpFault>
        requires due { (key : ImportTerms) × (made : List (ℕ × Change)) × (op : Op)
            × (ops : List Op) × IsDue J.verdict key made op ops mark state.old
            × (key.port ≡ table.now)
            × IsChannelOf key (channel_terms P.exports self.now) }
        requires rest { left state.old ≡ [] }
        ensures kept { (key : ImportTerms) (made : List (ℕ × Change)) (op : Op) (ops : List Op)
            → IsDue J.verdict key made op ops mark state.old
            → IsImports J.verdict key state.new }
    {
        match &self.export {
            Some(export) => mark_channel(rt, table, state, export, mark),
            None => Ok(()),
        }
    }

    /// The same, but where the operation left the channel as it was nothing is to be marked, and
    /// the channel's lock isn't waited for.
    fn mark<R: Wait>(
        &self,
        rt: &R,
        table: &Table,
        state: &mut ImportState<J>,
        mark: Mark,
    ) -> Result<(), OpFault>
        requires due { (key : ImportTerms) × (made : List (ℕ × Change)) × (op : Op)
            × (ops : List Op) × IsDue J.verdict key made op ops mark state.old
            × (key.port ≡ table.now)
            × IsChannelOf key (channel_terms P.exports self.now) }
        requires rest { left state.old ≡ [] }
        ensures kept { (key : ImportTerms) (made : List (ℕ × Change)) (op : Op) (ops : List Op)
            → IsDue J.verdict key made op ops mark state.old
            → IsImports J.verdict key state.new }
    {
        if let Mark::Stay = mark {
            return Ok(());
        }
        self.mark_export(rt, table, state, mark)
    }

    /// The same, once the operation was planned.
    fn finish<R: Wait>(
        &self,
        rt: &R,
        table: &Table,
        state: &mut ImportState<J>,
        plan: Plan,
    ) -> Result<Plan, OpFault>
        requires due { (key : ImportTerms) × (made : List (ℕ × Change)) × (op : Op)
            × (ops : List Op) × IsDue J.verdict key made op ops plan.mark state.old
            × (key.port ≡ table.now)
            × IsChannelOf key (channel_terms P.exports self.now) }
        requires rest { left state.old ≡ [] }
        ensures kept { (key : ImportTerms) (made : List (ℕ × Change)) (op : Op) (ops : List Op)
            → IsDue J.verdict key made op ops plan.mark state.old
            → IsImports J.verdict key state.new }
    {
        match self.mark(rt, table, state, plan.mark) {
            Ok(()) => Ok(plan),
            Err(fault) => Err(fault),
        }
    }

    /// Does an operation where no fault came before.
    fn apply<R: Wait, G: Gate, H: Helper>(
        &self,
        rt: &R,
        gate: &G,
        helper: &H,
        table: &Table,
        state: &mut ImportState<J>,
        hand: &mut Hand,
        pass: &mut TablePass,
        line: u32,
        op: &Op,
    ) -> Result<Plan, OpFault>
        requires free { (key : ImportTerms) × IsImports J.verdict key state.old
            × (key.port ≡ table.now)
            × (journal hand.old ≡ key.turns)
            × IsLineOf key (number_of hand.old.1.role) line op.now
            × IsChannelOf key (channel_terms P.exports self.now) }
        requires none { state.old.fault ≡ None }
        requires pass { journal pass.old ≡ table.now }
        ensures kept { (key : ImportTerms) → IsImports J.verdict key state.old
            → IsLineOf key (number_of hand.old.1.role) line op.now
            → IsImports J.verdict key state.new }
        ensures hand { (journal hand.new ≡ journal hand.old)
            × (number_of hand.new.1.role ≡ number_of hand.old.1.role) }
        ensures said { IfOk result (λ _. words_in (own hand.new.1)
            ≡ words_in (own hand.old.1) ++ turn_words line ∷ []) }
        ensures prefix { IsPrefix (front hand.old.1) (front hand.new.1)
            × IsPrefix (front pass.old.1) (front pass.new.1) }
        ensures pass { journal pass.new ≡ journal pass.old }
        ensures seen { IfOk result (λ _. (key : ImportTerms) (room : Journals)
            → IsImports J.verdict key state.old
            → IsLineOf key (number_of hand.old.1.role) line op.now
            → IsRoomOf key.phase room
            → IsSeen room key.number key.port_number hand.new pass.new) }
    {
        match state.op_turn(rt, gate, table, helper, hand, line, op) {
            Ok(plan) => {
                state.share(pass);
                self.finish(rt, table, state, plan)
            }
            Err(fault) => Err(fault),
        }
    }

    /// Does an operation unless a fault came before, which then comes again.
    fn attempt<R: Wait, G: Gate, H: Helper>(
        &self,
        rt: &R,
        gate: &G,
        helper: &H,
        table: &Table,
        state: &mut ImportState<J>,
        hand: &mut Hand,
        pass: &mut TablePass,
        line: u32,
        op: &Op,
    ) -> Result<Plan, OpFault>
        requires free { (key : ImportTerms) × IsImports J.verdict key state.old
            × (key.port ≡ table.now)
            × (journal hand.old ≡ key.turns)
            × IsLineOf key (number_of hand.old.1.role) line op.now
            × IsChannelOf key (channel_terms P.exports self.now) }
        requires pass { journal pass.old ≡ table.now }
        ensures kept { (key : ImportTerms) → IsImports J.verdict key state.old
            → IsLineOf key (number_of hand.old.1.role) line op.now
            → IsImports J.verdict key state.new }
        ensures hand { (journal hand.new ≡ journal hand.old)
            × (number_of hand.new.1.role ≡ number_of hand.old.1.role) }
        ensures said { IfOk result (λ _. words_in (own hand.new.1)
            ≡ words_in (own hand.old.1) ++ turn_words line ∷ []) }
        ensures prefix { IsPrefix (front hand.old.1) (front hand.new.1)
            × IsPrefix (front pass.old.1) (front pass.new.1) }
        ensures pass { journal pass.new ≡ journal pass.old }
        ensures seen { IfOk result (λ _. (key : ImportTerms) (room : Journals)
            → IsImports J.verdict key state.old
            → IsLineOf key (number_of hand.old.1.role) line op.now
            → IsRoomOf key.phase room
            → IsSeen room key.number key.port_number hand.new pass.new) }
    {
        match state.fault {
            Some(fault) => Err(fault),
            None => self.apply(rt, gate, helper, table, state, hand, pass, line, op),
        }
    }

    /// Does an operation of the protocol under its lock, and gives its channel, where it has one,
    /// the mark under the channel's: it is applied, its line recorded under the hand (at its place,
    /// from 1 on; a start has the place 0), and its changes are sent. The helper is told of cursors
    /// that have no room for one. The pass has then seen all that the operations of which the hand
    /// knows gave.
    ///
    /// A fault that came before comes again, and nothing is done then. At `Ended` the operation is
    /// recorded, and a part of its changes may be sent. At `Memory` nothing is said of the
    /// importer.
    pub fn operate<R: Wait, G: Gate, H: Helper>(
        &self,
        rt: &R,
        gate: &G,
        helper: &H,
        table: &Table,
        hand: &mut Hand,
        pass: &mut TablePass,
        line: u32,
        op: &Op,
    ) -> Result<Plan, OpFault>
        requires here { (protocol_terms P.terms self.now).port ≡ table.now }
        requires hand { journal hand.old ≡ (protocol_terms P.terms self.now).turns }
        requires pass { journal pass.old ≡ table.now }
        requires line { IsLineOf (protocol_terms P.terms self.now)
            (number_of hand.old.1.role) line op.now }
        requires channel { IsChannelOf (protocol_terms P.terms self.now)
            (channel_terms P.exports self.now) }
        ensures hand { (journal hand.new ≡ journal hand.old)
            × (number_of hand.new.1.role ≡ number_of hand.old.1.role) }
        ensures said { IfOk result (λ _. words_in (own hand.new.1)
            ≡ words_in (own hand.old.1) ++ turn_words line ∷ []) }
        ensures prefix { IsPrefix (front hand.old.1) (front hand.new.1)
            × IsPrefix (front pass.old.1) (front pass.new.1) }
        ensures pass { journal pass.new ≡ journal pass.old }
        ensures seen { IfOk result (λ _. (room : Journals)
            → IsRoomOf (protocol_terms P.terms self.now).phase room
            → IsSeen room (protocol_terms P.terms self.now).number
            (protocol_terms P.terms self.now).port_number hand.new pass.new) }
    {
        let (held, mut state) = self.import.lock(rt);
        let done = self.attempt(rt, gate, helper, table, &mut state, hand, pass, line, op);
        self.import.unlock(held, state);
        done
    }
}
