//! How a pass learns what a protocol's port has made.
ghost use Rattle.std.specs.Prelude.{◌≡◌, ℕ, List, []};
ghost use mathlib.Core.List.{IsPrefix};
ghost use Rattle.attrs.specs.declared.route.Change.{Change};
ghost use Rattle.jour.specs.Seats.{front, journal};
ghost use Rattle.phase_legal.specs.Shown.{HandView, IsSeen, Room};
ghost use Rattle.import_lock.specs.Calls.{IsRoomOf};
ghost use Rattle.import_lock.specs.Kept.{IsImporting, left};
ghost use Rattle.import_lock.specs.Terms.{ImportTerms};

use crate::state::ImportState;
use attrs::Judge;
use table_shared::TablePass;

impl<J: Judge> ImportState<J> {
    /// The pass then has seen of the port all that this has, which, where nothing waits, is all that
    /// the recorded operations give.
    pub fn share(&mut self, pass: &mut TablePass)
        requires { journal pass.old ≡ journal self.old.port }
        ensures same { self.new ≡ self.old }
        ensures here { journal pass.new ≡ journal pass.old }
        ensures prefix { IsPrefix (front pass.old.1) (front pass.new.1) }
        ensures seen { (key : ImportTerms) (made : List (ℕ × Change)) (room : Room)
            (hand : HandView) → IsImporting J.verdict key made self.old → left self.old ≡ []
            → IsRoomOf key.phase room → front hand.1 ≡ front self.old.turns.1
            → IsSeen room key.number key.port_number hand pass.new }
    {
        self.port.share(pass);
    }
}
