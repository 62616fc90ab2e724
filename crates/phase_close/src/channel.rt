//! What is left of a channel.
ghost use Rattle.std.specs.Prelude.{◌≡◌, ℕ, List, Some, IfSome, option_map};
ghost use Rattle.attrs.specs.declared.route.Change.{Change};
ghost use Rattle.jour_rule.specs.declared.views.Entry.{Entry};
ghost use Rattle.jour.specs.Seats.{journal};
ghost use Rattle.import_lock.specs.Terms.{ImportTerms};
ghost use Rattle.export_lock.specs.Kept.{IsExports};
ghost use Rattle.export_lock.specs.Terms.{ExportTerms};
ghost use Rattle.phase_close.specs.Left.{IsChannelLeft, IsStampLeft};

use crate::marks::retire_stamp;
use attrs::Judge;
use export_lock::ExportState;
use import_lock::Stamp;

/// Ends the stamp of a channel to a neighbour, which has one.
pub(crate) fn end_channel<J: Judge + Drop>(
    stamp: Option<Stamp>,
    mut state: ExportState<J>,
) -> ExportState<J>
    requires { (channel : ExportTerms) × IsExports J.verdict channel state
        × (option_map journal stamp ≡ Some channel.marks) }
    ensures { (key : ImportTerms) (list : List Entry) (made : List (ℕ × Change))
        (channel : ExportTerms) → IsExports J.verdict channel state
        → option_map journal stamp ≡ Some channel.marks
        → IfSome stamp (IsStampLeft key list made)
        → IsChannelLeft J.verdict key list made channel result }
{
    let Some(stamp) = stamp else {
        return state;
    };
    retire_stamp(&mut state, stamp);
    state
}
