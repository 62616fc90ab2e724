//! How a pipe's direction sends into the table that it writes, and withdraws what it sent.
ghost use Rattle.std.specs.Prelude.{◌≡◌, List, false, true, IfErr, IfOk};
ghost use Rattle.std.specs.declared.result.Result.TheVariants.{Ok};
ghost use Rattle.export_core.specs.declared.exporter.Pushed.TheVariants.{Nothing};
ghost use Rattle.export_core.specs.declared.log.Key.{Key};
ghost use Rattle.jour.specs.Seats.{journal};
ghost use Rattle.export_lock.specs.Kept.{GoesOn, LeavesFlush, is_running};
ghost use Rattle.export_lock.specs.LaneTurns.{AreSources, FlushesLane, IsHeldLane, PushesOn, Stops};
ghost use Rattle.export_lock.specs.Lanes.{IsLane, LaneTerms};
ghost use Rattle.export_lock.specs.Outlets.{Rests};

use crate::lane::PipeLane;
use crate::outlet::PipeOutlet;
use attrs::{Judge, Src};
use export_core::{PushFault, Pushed};
use outside_io::Gate;
use std::sync::Wait;
use table_shared::Table;
use table_shared::laws::a_port_alone_changes_its_sources;

impl<J: Judge> PipeLane<J> {
    /// Sends the first key that is marked, where its value is news, into the table of the port. A
    /// direction that is down has nothing to send, nor one that withdraws what stands. `Blocked`
    /// and `Ended` are the table's, and like `Memory` they leave all to be sent as it was. The
    /// sources are those of what is played, by number.
    pub fn push_turn<'a, R: Wait, G: Gate>(
        self,
        rt: &'a R,
        gate: &'a G,
        table: &'a Table,
        sources: &'a [Src],
    ) -> (PipeLane<J>, Result<Pushed, PushFault>)
        requires held { IsHeldLane J.verdict sources.now self }
        requires here { journal self.port ≡ table.now }
        ensures kept { (key : LaneTerms) (done : List Key) → AreSources key sources.now
            → IsLane J.verdict done key self → IsLane J.verdict done key result.0 }
        ensures goes { GoesOn J.verdict self.state result.0.state }
        ensures flush { LeavesFlush self.state result.0.state }
        ensures pushes { is_running self.state ≡ true
            → IfOk result.1 (PushesOn J.verdict sources.now self result.0) }
        ensures rests { is_running self.state ≡ false
            → (result.1 ≡ Ok Nothing) × (result.0.state ≡ self.state)
            × Rests self.port result.0.port }
        ensures refused { IfErr result.1 (Stops J.verdict sources.now self result.0) }
        ensures cursor { result.0.state.cursor ≡ self.state.cursor }
        ensures feed { result.0.state.exporter.feed ≡ self.state.exporter.feed }
        ensures marks { result.0.state.marks ≡ self.state.marks }
    {
        a_port_alone_changes_its_sources();
        let PipeLane { mut state, port } = self;
        let _ = state.cursor.position();
        let mut outlet = PipeOutlet::make(rt, gate, table, sources, port);
        let did = state.push_turn(&mut outlet);
        let port = outlet.into_port();
        (PipeLane { state, port }, did)
    }

    /// Withdraws the first of what stands still from the table of the port; `Nothing` comes once
    /// all is withdrawn. So the lock may be given back and taken anew between two turns. A
    /// direction that is down has nothing to withdraw. `Blocked` and `Ended` are the table's, and
    /// like `Memory` they leave all to be withdrawn as it was.
    pub fn flush_turn<'a, R: Wait, G: Gate>(
        self,
        rt: &'a R,
        gate: &'a G,
        table: &'a Table,
        sources: &'a [Src],
    ) -> (PipeLane<J>, Result<Pushed, PushFault>)
        requires held { IsHeldLane J.verdict sources.now self }
        requires here { journal self.port ≡ table.now }
        ensures flushes { self.state.cursor.1 ≡ true → (key : LaneTerms) (done : List Key)
            → AreSources key sources.now → IsLane J.verdict done key self
            → FlushesLane J.verdict sources.now done key self result.0 result.1 }
        ensures down { self.state.cursor.1 ≡ false
            → (result.1 ≡ Ok Nothing) × (result.0.state ≡ self.state)
            × Rests self.port result.0.port }
    {
        a_port_alone_changes_its_sources();
        let PipeLane { mut state, port } = self;
        let _ = state.cursor.position();
        let mut outlet = PipeOutlet::make(rt, gate, table, sources, port);
        let did = state.flush_turn(&mut outlet);
        let port = outlet.into_port();
        (PipeLane { state, port }, did)
    }
}
