//! Laws of what an export lock keeps.
ghost use Rattle.std.specs.Prelude.{◌≡◌, ◌≢◌, ℕ, Bool, List, [], ◌∷◌, ◌++◌, Some, None, map, reverse, true, false};
ghost use Rattle.atomic_table.specs.Seated.{TableId};
ghost use Rattle.attrs.specs.declared.journal.JEntry.{JEntry};
ghost use Rattle.attrs.specs.declared.route.Change.{Change};
ghost use Rattle.bits_ip.specs.Prefix.{Net};
ghost use Rattle.core_machine.specs.Enters.{change_to, enters, withdrawal};
ghost use Rattle.core_machine.specs.Histories.{content_of, of_those};
ghost use Rattle.core_machine.specs.Pipes.{passes};
ghost use Rattle.core_machine.specs.Signals.{without_sends};
ghost use Rattle.export_core.specs.Calls.{AreStanding};
ghost use Rattle.export_core.specs.Histories.{TellsBest};
ghost use Rattle.export_core.specs.Keys.{key_of};
ghost use Rattle.export_core.specs.Logs.{stretch};
ghost use Rattle.export_core.specs.Passing.{value_by};
ghost use Rattle.export_core.specs.Sends.{AreRising, sends};
ghost use Rattle.export_core.specs.Standing.{is_open, standing_at};
ghost use Rattle.export_core.specs.States.{reach_of};
ghost use Rattle.export_core.specs.declared.log.Key.{Key};
ghost use Rattle.export_core.specs.declared.log.LogItem.TheVariants.{Down, Sent};
ghost use Rattle.export_core.specs.declared.log.Sending.{Sending};
ghost use Rattle.jour_rule.specs.declared.views.Entry.{Entry};
ghost use Rattle.jour_rule.specs.declared.views.View.{View as Seat};
ghost use Rattle.jour_rule.specs.Journal.{receipts};
ghost use Rattle.jour_rule.specs.Laws.{AreOfMakers};
ghost use Rattle.jour.specs.Seats.{front, journal, number_of, own};
ghost use Rattle.phase_legal.specs.Changes.{changes_in};
ghost use Rattle.table_shared.specs.Answers.{IsEntered, IsSame};
ghost use Rattle.table_shared.specs.Opening.{TableOpening};
ghost use Rattle.table_shared.specs.Records.{AreRecords, IsLawful, at_first, change_of};
ghost use Rattle.export_lock.specs.Feeds.{AreOfBest};
ghost use Rattle.export_lock.specs.Flushes.{IsDirection};
ghost use Rattle.import_lock.specs.Kept.{items_of_stamp};
ghost use Rattle.export_lock.specs.Kept.{GoesOn, IsExporting, IsExports, IsRead, LeavesFlush};
ghost use Rattle.export_lock.specs.Lanes.{EntersOnce, IsLane, LaneTerms};
ghost use Rattle.export_lock.specs.Terms.{BeginsWith, ExportTerms};
ghost use Rattle.export_lock.specs.declared.lane.PipeLane.{PipeLane};
ghost use Rattle.export_lock.specs.declared.state.ExportState.{ExportState};

use attrs::Judge;
use export_core::laws::{course_tells_best, sends_are_right};
use phase_legal::laws::tables_have_what_ports_made;
use table_shared::laws::a_port_alone_changes_its_sources;

/// While a channel is up, each key was read up to a position that the cursor has seen, and what was
/// sent of it is of no later one.
pub fn keys_are_read<J: Judge>()
    ensures { (key : ExportTerms) (state : ExportState J) → IsExports J.verdict key state
        → IsLawful key.table.1.opening (front state.cursor.0.1)
        → is_open state.exporter.log ≡ true → (k : Key) → IsRead state k }
{}

/// What was sent of a net since the channel came up is, in order, what the channel makes of the
/// net's best routes at rising positions, in each history that begins with what the cursor has
/// seen.
pub fn sends_are_of_best_routes<J: Judge>()
    ensures { (key : ExportTerms) (state : ExportState J) (history : List JEntry) (net : Net)
        (h : ℕ) → IsExports J.verdict key state
        → IsLawful key.table.1.opening (front state.cursor.0.1)
        → BeginsWith key (front state.cursor.0.1) history → TellsBest history
        → stretch (reverse state.exporter.log) ≡ Some h
        → AreOfBest (value_by key.exports.spec key.exports.filter) history net h
        (reach_of state.exporter (key_of net)) (sends (key_of net) (reverse state.exporter.log))
        × AreRising (sends (key_of net) (reverse state.exporter.log)) }
{
    course_tells_best();
    sends_are_right();
}

/// What a pipe's direction has made stays where neither its log nor its port changes. And it
/// follows the log: a value that is sent enters its change, unless it only sends again what stands,
/// and a key that a flush withdraws enters its withdrawal. Behind the last of them the port has
/// made what the log says that has gone down.
pub fn lanes_follow_their_logs<J: Judge>()
    ensures reads { (done : List Key) (key : LaneTerms) (old new : PipeLane J)
        → new.port ≡ old.port → new.state.exporter.log ≡ old.state.exporter.log
        → GoesOn J.verdict old.state new.state → LeavesFlush old.state new.state
        → IsLane J.verdict done key old → IsLane J.verdict done key new }
    ensures sends { (key : LaneTerms) (old new : PipeLane J)
        → journal new.port ≡ journal old.port
        → number_of new.port.1.role ≡ number_of old.port.1.role → (x : Sending)
        → new.state.exporter.log ≡ old.state.exporter.log ++ Sent x ∷ []
        → EntersOnce key.rules x old.port.1 new.port.1
        → IsDirection J.verdict [] key.exports new.state
        → IsLane J.verdict [] key old → IsLane J.verdict [] key new }
    ensures withdraws { (key : LaneTerms) (old new : PipeLane J)
        → journal new.port ≡ journal old.port
        → number_of new.port.1.role ≡ number_of old.port.1.role
        → (done : List Key) (k : Key) (at : ℕ)
        → new.state.exporter.log ≡ old.state.exporter.log
        → IsEntered (withdrawal k) old.port.1 new.port.1 at
        → IsDirection J.verdict (done ++ k ∷ []) key.exports new.state
        → IsLane J.verdict done key old → IsLane J.verdict (done ++ k ∷ []) key new }
    ensures ends { (done : List Key) (key : LaneTerms) (lane : PipeLane J)
        → AreStanding lane.state.exporter.log done → (is : IsLane J.verdict done key lane)
        → reverse (changes_in is.made) ++ enters key.rules key.exports.log
        ≡ enters key.rules (Down ∷ reverse lane.state.exporter.log) }
{}

/// A table has of the sources that a pipe's direction passes just the changes that its log says, at
/// the end of a phase in which no flush was left undone, if it had before.
pub fn tables_have_what_lanes_sent<J: Judge>()
    ensures { (key : LaneTerms) (lane : PipeLane J) (list : List Entry) (said : List JEntry)
        (before : List Change) → IsLane J.verdict [] key lane
        → AreRecords key.target.1.opening (at_first key.target.1.opening) list said
        → own lane.port.1 ≡ receipts key.target.1.start key.port_number list
        → of_those (passes key.rules key.number) before ≡ enters key.rules key.exports.log
        → of_those (passes key.rules key.number) (reverse (map change_of said) ++ before)
        ≡ enters key.rules (reverse lane.state.exporter.log) }
{
    tables_have_what_ports_made();
}

/// What a lock of a direction keeps stays with the keys that are withdrawn, where what any lock
/// keeps does, and a flush that goes on has all that it had.
pub fn directions_go_on<J: Judge>()
    ensures { (done : List Key) (key : ExportTerms) (old new : ExportState J)
        → GoesOn J.verdict old new → LeavesFlush old new
        → IsDirection J.verdict done key old → IsDirection J.verdict done key new }
{}

/// What a pipe's direction sends, unless it sends again what stands, and what it withdraws isn't
/// what the other table has already: so each is entered.
pub fn lanes_enter_news<J: Judge>()
    ensures sends { (key : LaneTerms) (lane : PipeLane J) (history : List JEntry) (x : Sending)
        (new : Seat TableOpening) (at : ℕ) → IsLane J.verdict [] key lane
        → BeginsWith key.exports (front lane.state.cursor.0.1) history
        → passes key.rules key.number x.key.num ≡ true
        → x.value ≢ standing_at x.key lane.state.exporter.log
        → new.seen.terms ≡ lane.port.1.seen.terms
        → number_of new.role ≡ number_of lane.port.1.role
        → IsSame (change_to key.rules x.key x.value) lane.port.1 new at → ⊥ }
    ensures withdraws { (key : LaneTerms) (lane : PipeLane J) (history : List JEntry)
        (done : List Key) (k : Key) (rest : List Key) (new : Seat TableOpening) (at : ℕ)
        → IsLane J.verdict done key lane
        → BeginsWith key.exports (front lane.state.cursor.0.1) history
        → passes key.rules key.number k.num ≡ true
        → AreStanding lane.state.exporter.log (done ++ k ∷ rest)
        → new.seen.terms ≡ lane.port.1.seen.terms
        → number_of new.role ≡ number_of lane.port.1.role
        → IsSame (withdrawal k) lane.port.1 new at → ⊥ }
{
    a_port_alone_changes_its_sources();
}

/// The marks in a channel's log are those of the phase that its stamp has recorded, in order,
/// behind those of before, once the stamp has seen the whole list.
pub fn marks_are_those_of_stamps<J: Judge>()
    ensures { (every : Bool) (key : ExportTerms) (state : ExportState J)
        (stamp : TableId × Seat ℕ) → IsExporting J.verdict every key state
        → number_of stamp.1.role ≡ 0 → front stamp.1 ≡ front state.marks.1
        → AreOfMakers key.marks.1.opening (front state.marks.1)
        → without_sends (reverse state.exporter.log)
        ≡ items_of_stamp stamp ++ without_sends key.log }
{}

/// Of a pipe's direction that is down nothing stands, by its log and by what it entered in the
/// table that it writes: before it went down it withdrew all that stood.
pub fn lanes_that_are_down_leave_nothing<J: Judge>()
    ensures { (done : List Key) (key : LaneTerms) (lane : PipeLane J)
        → IsLane J.verdict done key lane
        → IsLawful key.exports.table.1.opening (front lane.state.cursor.0.1)
        → is_open lane.state.exporter.log ≡ false
        → (done ≡ []) × ((k : Key) → (standing_at k lane.state.exporter.log ≡ None)
        × (content_of (enters key.rules (reverse lane.state.exporter.log)) k.net k.num
        ≡ None)) }
{}
