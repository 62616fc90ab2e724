ghost use Rattle.std.specs.Prelude.{◌≡◌, ℕ, ◌+◌, ◌≤◌, List, ◌∷◌, ◌++◌, Option, Some, false, map, length, true};
ghost use Rattle.bits_ip.specs.Prefix.{Net};
ghost use Rattle.export_core.specs.declared.log.Key.{Key};
ghost use Rattle.export_core.specs.declared.passing.ExportSpec.{ExportSpec};
ghost use Rattle.attrs.specs.declared.attributes.Attrs.{Attrs};
ghost use Rattle.attrs.specs.declared.journal.JEntry.{JEntry};
ghost use Rattle.attrs.specs.declared.route.Route.{Route};
ghost use Rattle.attrs.specs.declared.route.Row.{Row};
ghost use Rattle.attrs.specs.History.{content_at};
ghost use Rattle.attrs.specs.Table.{Shows};
ghost use Rattle.export_core.specs.Candidates.{best_in, has_num};
ghost use Rattle.export_core.specs.Keys.{key_of};
ghost use Rattle.export_core.specs.declared.log.LogItem.{LogItem};
ghost use Rattle.export_core.specs.Histories.{IsBestOf, IsLonger, TellsBest, change_of, course_of};
ghost use Rattle.export_core.specs.Logs.{Course, Follows, Settled, account, highest, stretch, value_of};
ghost use Rattle.export_core.specs.Passing.{passed};
ghost use Rattle.export_core.specs.Sends.{AreRight, AreRising, last_value, sends};
ghost use Rattle.export_core.specs.States.{IsEntryAt, StandsFor, State};

use attrs::Judge;

/// The earlier part of a log that follows a history follows it, so what holds of a log's last
/// stretch holds of each stretch. Logs are read backwards.
pub fn fronts_follow()
    ensures { (value : Key → Route → Option Attrs) (c : Course) (later earlier : List LogItem)
        → Follows value c (later ++ earlier) → Follows value c earlier }
{}

/// What was sent of a key in a stretch is, in order, what the channel makes of its candidate at
/// rising positions.
pub fn sends_are_right()
    ensures { (value : Key → Route → Option Attrs) (c : Course) (k : Key) (h : ℕ)
        (log : List LogItem) → Follows value c log → stretch log ≡ Some h
        → AreRight value c k h (sends k log) × AreRising (sends k log) }
{}

/// What stands as sent is the last of them.
pub fn last_sent_stands()
    ensures { (k : Key) (log : List LogItem) → value_of (account k log) ≡ last_value (sends k log) }
{}

/// In a settled channel it is what the channel makes of the key's present candidate.
pub fn settled_is_present()
    ensures { (value : Key → Route → Option Attrs) (c : Course) (log : List LogItem)
        → Settled value c log
        → (k : Key) → last_value (sends k log) ≡ passed value k (c.best k c.len) }
{}

/// A position of a log that follows a history is none behind its end.
pub fn positions_are_told()
    ensures { (value : Key → Route → Option Attrs) (c : Course) (log : List LogItem)
        → Follows value c log → highest log ≤ c.len }
{}

/// An exporter that stands for a history stands for each longer one.
pub fn stands_on<J: Judge>()
    ensures { (c d : Course) (e : State J) → IsLonger c d
        → StandsFor J.verdict c e → StandsFor J.verdict d e }
{}

/// Each entry of a history is its course's at the entry's position.
pub fn entries_are_told()
    ensures { (spec : ExportSpec) (front : List JEntry) (entry : JEntry) (back : List JEntry)
        → IsEntryAt spec (course_of spec (front ++ entry ∷ back)) (length front + 1) entry }
{}

/// The course of a channel that sends the best routes, over a history whose entries tell the best
/// routes of their nets, tells the best route of each net at each position.
pub fn course_tells_best()
    ensures { (spec : ExportSpec) (history : List JEntry) (net : Net) (p : ℕ)
        → spec.every ≡ false → TellsBest history
        → IsBestOf (content_at p (map change_of history)) net
        ((course_of spec history).best (key_of net) p) }
{}

/// The course of a pipe's direction tells of each source that it passes the route in the content.
pub fn course_tells_routes()
    ensures { (spec : ExportSpec) (history : List JEntry) (k : Key) (p : ℕ)
        → spec.every ≡ true → has_num spec k.num ≡ true
        → (course_of spec history).best k p
        ≡ content_at p (map change_of history) k.net k.num }
{}

/// Rows that show the content at a position tell the same, so a feed may read them.
pub fn rows_tell_best()
    ensures { (spec : ExportSpec) (history : List JEntry) (rows : List Row) (p : ℕ) (k : Key)
        → (spec.every ≡ false → TellsBest history)
        → Shows rows (content_at p (map change_of history))
        → (course_of spec history).best k p ≡ best_in spec k rows }
{}
