//! How changes that wait enter the table.
ghost use Rattle.std.specs.Prelude.{◌≡◌, ℕ, List, IfErr, IfOk};
ghost use Rattle.attrs.specs.declared.route.Change.{Change};
ghost use Rattle.jour.specs.Seats.{journal};
ghost use Rattle.import_lock.specs.Calls.{HasSent, IsHeld, OnlySends, SendsNone, SendsOne};
ghost use Rattle.import_lock.specs.Kept.{IsImporting};
ghost use Rattle.import_lock.specs.Terms.{ImportTerms};

use crate::state::ImportState;
use attrs::Judge;
use core_setup::laws::{
    changes_are_of_the_family, changes_tell_their_protocol, setups_are_as_asked,
};
use outside_io::Gate;
use std::sync::Wait;
use table_shared::laws::a_port_alone_changes_its_sources;
use table_shared::{Done, Table, UpdateFault};

impl<J: Judge> ImportState<J> {
    /// Sends the first change that waits, and answers its position; none where nothing waits.
    ///
    /// Each fault is the table's, and nothing is sent then.
    pub fn send_turn<R: Wait, G: Gate>(
        &mut self,
        rt: &R,
        gate: &G,
        table: &Table,
    ) -> Result<Option<u64>, UpdateFault>
        requires held { IsHeld J.verdict self.old }
        requires here { journal self.old.port ≡ table.now }
        ensures only { OnlySends self.old self.new }
        ensures one { IfOk result (λ at. SendsOne at self.old self.new) }
        ensures refused { IfErr result (λ fault. SendsNone fault self.old self.new) }
        ensures kept { (key : ImportTerms) (made : List (ℕ × Change))
            → IsImporting J.verdict key made self.old
            → HasSent J.verdict key made self.old self.new }
    {
        setups_are_as_asked();
        changes_tell_their_protocol();
        changes_are_of_the_family();
        a_port_alone_changes_its_sources();
        let Some(change) = self.backlog.as_slice().get(self.sent) else {
            return Ok(None);
        };
        match table.update(rt, gate, &mut self.port, change) {
            Ok(Done::At(position)) => {
                self.sent += 1;
                Ok(Some(position))
            }
            Ok(Done::Same { .. }) => unreachable!(),
            Err(fault) => Err(fault),
        }
    }
}
