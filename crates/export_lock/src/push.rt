//! How what is marked is sent.
ghost use Rattle.std.specs.Prelude.{◌≡◌, ◌≢◌, ℕ, false, true, IfErr, IfOk, OnErr, Some};
ghost use Rattle.std.specs.declared.result.Result.TheVariants.{Ok};
ghost use Rattle.export_core.specs.Calls.{Pushes};
ghost use Rattle.export_core.specs.declared.exporter.Pushed.TheVariants.{Nothing};
ghost use Rattle.export_core.specs.Candidates.{has_num};
ghost use Rattle.export_core.specs.declared.outlet.PushFault.TheVariants.{Memory};
ghost use Rattle.export_lock.specs.Kept.{GoesOn, IsHeld, LeavesFlush, is_running};

use crate::state::ExportState;
use attrs::Judge;
use export_core::{Outlet, PushFault, Pushed};

impl<J: Judge> ExportState<J> {
    /// Whether the channel is up, and nothing of it is being withdrawn.
    pub fn is_running(&self) -> bool
        ensures { result ≡ is_running self.now }
    {
        self.cursor.is_started() & !self.exporter.is_flushing()
    }

    /// Sends the first key that is marked, where its value is news. A channel that is down has
    /// nothing to send, nor one that withdraws what stands. Each fault is the outlet's, or want of
    /// memory, and all is as before then.
    pub fn push_turn<O: Outlet>(&mut self, outlet: &mut O) -> Result<Pushed, PushFault>
        requires held { IsHeld J.verdict self.old }
        requires takes { (num : ℕ) → has_num self.old.exporter.spec num ≡ true
            → O.takes outlet.old num self.old.exporter.spec.family ≡ true }
        ensures goes { GoesOn J.verdict self.old self.new }
        ensures flush { LeavesFlush self.old self.new }
        ensures pushes { is_running self.old ≡ true → IfOk result
            (Pushes J.verdict self.old.exporter self.new.exporter
            (O.told outlet.old) (O.told outlet.new)) }
        ensures rests { is_running self.old ≡ false
            → (result ≡ Ok Nothing) × (self.new ≡ self.old)
            × (O.told outlet.new ≡ O.told outlet.old) }
        ensures refused { OnErr result ((self.new ≡ self.old)
            × (O.told outlet.new ≡ O.told outlet.old)) }
        ensures cause { IfErr result
            (λ fault. fault ≢ Memory → O.fault outlet.new ≡ Some fault) }
        ensures cursor { self.new.cursor ≡ self.old.cursor }
        ensures feed { self.new.exporter.feed ≡ self.old.exporter.feed }
        ensures marks { self.new.marks ≡ self.old.marks }
    {
        if !self.is_running() {
            return Ok(Pushed::Nothing);
        }
        self.exporter.push_one(outlet)
    }
}
