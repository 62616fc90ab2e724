//! The stamp of a channel ends.
ghost use Rattle.std.specs.Prelude.{◌≡◌};
ghost use Rattle.jour.specs.Seats.{front, journal, number_of};
ghost use Rattle.phase_legal.specs.Stamps.{items_in};
ghost use Rattle.import_lock.specs.Kept.{items_of_stamp};
ghost use Rattle.export_lock.specs.Kept.{IsExports};
ghost use Rattle.export_lock.specs.Terms.{ExportTerms};

use attrs::Judge;
use export_lock::ExportState;
use import_lock::Stamp;

/// Ends the stamp of a channel to a neighbour: the channel's marks are those that the stamp
/// has made.
pub fn retire_stamp<J: Judge + Drop>(state: &mut ExportState<J>, stamp: Stamp)
    requires here { journal stamp ≡ journal state.old.marks }
    ensures same { (state.new.exporter ≡ state.old.exporter)
        × (state.new.cursor ≡ state.old.cursor) }
    ensures kept { (key : ExportTerms) → IsExports J.verdict key state.old
        → IsExports J.verdict key state.new }
    ensures marked { (key : ExportTerms) → IsExports J.verdict key state.old
        → number_of stamp.1.role ≡ 0
        → items_in (front state.new.marks.1) ≡ items_of_stamp stamp }
{
    state.marks.lawful();
    state.marks.retire(stamp);
}
