//! What an operator expects of replies.
ghost use Rattle.std.specs.Prelude.{◌≡◌, ◌≢◌, ◌↔◌, ◌≤◌, ℕ, true, false, not, List, length, map, Option, None, Some, Contains, IsTrue};
ghost use Rattle.bits_ip.specs.Prefix.{Covers, IsPrefix, Net};
ghost use Rattle.attrs.specs.History.{Content, content_at};
ghost use Rattle.attrs.specs.Table.{Shows};
ghost use Rattle.attrs.specs.declared.attributes.Attrs.{Attrs};
ghost use Rattle.attrs.specs.declared.journal.JEntry.{JEntry};
ghost use Rattle.attrs.specs.declared.judge.Verdict.{Verdict};
ghost use Rattle.attrs.specs.declared.route.Route.{Route};
ghost use Rattle.attrs.specs.declared.route.Row.{Row};
ghost use Rattle.attrs.specs.declared.route.Select.TheVariants.{All, For};
ghost use Rattle.export_core.specs.Histories.{TellsBest, change_of, course_of};
ghost use Rattle.export_core.specs.Keys.{key_of};
ghost use Rattle.export_core.specs.Logs.{Settled};
ghost use Rattle.export_core.specs.Passing.{value_by};
ghost use Rattle.export_core.specs.Sends.{last_value, sends};
ghost use Rattle.export_core.specs.declared.log.LogItem.{LogItem};
ghost use Rattle.export_core.specs.declared.passing.ExportSpec.{ExportSpec};
ghost use Rattle.show_route.specs.declared.query.Query.{Query};
ghost use Rattle.show_route.specs.Senders.{sender_of};
ghost use Rattle.show_route.specs.Shown.{AreShown, Choice, IsBestAt, IsReply, IsRouteOf, IsShown, IsThere, Item, Sender, comes_before, count_nets, count_text, plain, counted};

use export_core::laws::{course_tells_best, settled_is_present};

/// A query has one reply over a content.
pub fn a_query_has_one_reply()
    ensures { (names : List (List ℕ)) (table : List ℕ) (query : Query) (choice : Option Choice)
        (sends : Option Sender) (content : Content) (a b : List ℕ)
        → IsReply names table query choice sends content a
        → IsReply names table query choice sends content b → a ≡ b }
{}

/// It has one over each content that rows show.
pub fn each_query_has_a_reply()
    ensures { (names : List (List ℕ)) (table : List ℕ) (query : Query) (choice : Option Choice)
        (sends : Option Sender) (rows : List Row) (content : Content)
        → Shows rows content
        → (text : List ℕ) × IsReply names table query choice sends content text }
{}

/// With no option all routes of the table are shown, the best of each net with a star.
pub fn without_options_all_is_shown()
    ensures { (table : ℕ) (content : Content) (item : Item)
        → IsShown (plain table) None None content item
        ↔ (IsRouteOf content item.net item.route
        × (IsTrue item.star ↔ IsBestAt content item.net item.route)) }
{}

/// None is shown twice: of two that are shown exactly one comes before the other; and of a net
/// the best comes first.
pub fn each_is_shown_once()
    ensures once { (query : Query) (choice : Option Choice) (sends : Option Sender)
        (content : Content) (items : List Item) → AreShown query choice sends content items
        → (a b : Item) → Contains items a → Contains items b → (a ≢ b)
        → comes_before a b ≡ not (comes_before b a) }
    ensures best { (query : Query) (choice : Option Choice) (content : Content) (a b : Item)
        → IsShown query choice None content a → IsShown query choice None content b
        → a.net ≡ b.net → a.star ≡ true → (a ≢ b) → IsTrue (comes_before a b) }
{}

/// `count` counts what the same query without it shows.
pub fn counts_are_of_what_is_shown()
    ensures { (names : List (List ℕ)) (table : List ℕ) (query : Query) (choice : Option Choice)
        (sends : Option Sender) (content : Content) (text : List ℕ) (items all : List Item)
        → IsReply names table (counted query) choice sends content text
        → AreShown query choice sends content items
        → AreShown (plain query.table) None None content all
        → text ≡ count_text table (length items) (length all) (count_nets items) }
{}

/// `for` shows one net at most: it covers what is asked for, and no longer one that does has a
/// route.
pub fn for_shows_one_net()
    ensures { (query : Query) (choice : Option Choice) (sends : Option Sender) (content : Content)
        (asked : Net) (a b : Item) → query.pick ≡ For asked
        → ((net : Net) (route : Route) → IsRouteOf content net route → IsPrefix net.addr net.len)
        → IsShown query choice sends content a → IsShown query choice sends content b
        → (a.net ≡ b.net) × Covers a.net asked
        × ((other : Net) → IsThere content other → Covers other asked → other.len ≤ a.net.len) }
{}

/// `export` shows of each net what the channel sends of its best route, and nothing else.
pub fn export_shows_what_is_sent()
    ensures { (query : Query) (sends : Sender) (content : Content) (net : Net) (attrs : Attrs)
        → query.pick ≡ All → query.source ≡ None
        → ((item : Item) × IsShown query None (Some sends) content item × (item.net ≡ net)
        × (item.route.attrs ≡ attrs))
        ↔ ((best : Route) × IsBestAt content net best × (sends net best ≡ Some attrs)) }
{}

/// That is what the channel, were it up and settled there, would have sent last: over a table's
/// history, whatever such a channel's log is.
pub fn export_shows_what_a_settled_channel_sent()
    ensures { (query : Query) (spec : ExportSpec) (verdict : Net → Route → Verdict)
        (history : List JEntry) (rows : List Row) (log : List LogItem) (net : Net) (attrs : Attrs)
        → query.pick ≡ All → query.source ≡ None → spec.every ≡ false → TellsBest history
        → let content = content_at (length history) (map change_of history) in
        Shows rows content → Settled (value_by spec verdict) (course_of spec history) log
        → ((item : Item) × IsShown query None (Some (sender_of spec verdict)) content item
        × (item.net ≡ net) × (item.route.attrs ≡ attrs))
        ↔ (last_value (sends (key_of net) log) ≡ Some attrs) }
{
    course_tells_best();
    settled_is_present();
}
