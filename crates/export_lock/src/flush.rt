//! How a pipe's direction withdraws what it sent, before it goes down.
ghost use Rattle.std.specs.Prelude.{◌≡◌, ◌≢◌, ℕ, IfErr, List, Some, false, true};
ghost use Rattle.std.specs.declared.result.Result.TheVariants.{Ok};
ghost use Rattle.export_core.specs.Candidates.{has_num};
ghost use Rattle.export_core.specs.declared.exporter.Pushed.TheVariants.{Nothing};
ghost use Rattle.export_core.specs.declared.log.Key.{Key};
ghost use Rattle.export_core.specs.declared.outlet.PushFault.TheVariants.{Memory};
ghost use Rattle.export_lock.specs.Flushes.{FlushesOn, IsHeldDirection};
ghost use Rattle.export_lock.specs.Terms.{ExportTerms};
ghost use Rattle.export_lock.specs.Flushes.{IsDirection};

use crate::state::ExportState;
use attrs::Judge;
use export_core::{Outlet, PushFault, Pushed};

impl<J: Judge> ExportState<J> {
    /// Withdraws the first of what stands still, as a pipe's direction; `Nothing` comes once all is
    /// withdrawn. So the lock may be given back and taken anew between two turns. A direction that
    /// is down has nothing to withdraw. Each fault is the outlet's, or want of memory, and all is
    /// as before then.
    pub fn flush_turn<O: Outlet>(&mut self, outlet: &mut O) -> Result<Pushed, PushFault>
        requires held { IsHeldDirection J.verdict self.old }
        requires takes { (num : ℕ) → has_num self.old.exporter.spec num ≡ true
            → O.takes outlet.old num self.old.exporter.spec.family ≡ true }
        ensures flushes { self.old.cursor.1 ≡ true → (done : List Key) (key : ExportTerms)
            → IsDirection J.verdict done key self.old
            → FlushesOn J.verdict done key self.old self.new (O.told outlet.old)
            (O.told outlet.new) result }
        ensures down { self.old.cursor.1 ≡ false
            → (result ≡ Ok Nothing) × (self.new ≡ self.old)
            × (O.told outlet.new ≡ O.told outlet.old) }
        ensures cause { IfErr result
            (λ fault. fault ≢ Memory → O.fault outlet.new ≡ Some fault) }
    {
        if !self.cursor.is_started() {
            return Ok(Pushed::Nothing);
        }
        self.exporter.flush_one(outlet)
    }
}
