ghost use Rattle.std.specs.Prelude.{◌≡◌, ◌<◌, ◌≤◌, ◌+◌, ◌-◌, ◌++◌, ℕ, Bool, true, false, List, [], ◌∷◌, length, map, Option, Some, None, reverse, slice_get, take};
ghost use Rattle.bits_ip.specs.Prefix.{Net};
ghost use Rattle.attrs.specs.declared.journal.Chunk.{Chunk};
ghost use Rattle.attrs.specs.declared.journal.JEntry.{JEntry};
ghost use Rattle.attrs.specs.declared.route.Change.{Change};
ghost use Rattle.attrs.specs.declared.route.Route.{Route};
ghost use Rattle.attrs.specs.declared.route.Row.{Row};
ghost use Rattle.attrs.specs.History.{Content};
ghost use Rattle.attrs.specs.Selection.{IsBest};
ghost use Rattle.attrs.specs.Table.{Shows, routes_of};
ghost use Rattle.export_core.specs.declared.exporter.Pushed.{Pushed};
ghost use Rattle.export_core.specs.declared.exporter.Pushed.TheVariants.{Nothing, Quiet, Sent};
ghost use Rattle.export_core.specs.declared.floors.FeedState.TheVariants.{Done, From};
ghost use Rattle.export_core.specs.declared.log.Key.{Key};
ghost use Rattle.export_core.specs.declared.log.Sending.{Sending};
ghost use Rattle.export_core.specs.declared.marks.Mark.{Mark};
ghost use Rattle.export_core.specs.declared.passing.ExportSpec.{ExportSpec};
ghost use Rattle.export_core.specs.Calls.{AreStanding, Feeds, Flushes, FlushesBy, Pushes, PushesOut, PushesQuietly, Takes, begun, ended, refreshed};
ghost use Rattle.export_core.specs.Candidates.{best_in};
ghost use Rattle.export_core.specs.Histories.{AreRoutesOf, change_of, course_of as told_course};
ghost use Rattle.export_core.specs.Logs.{Settled};
ghost use Rattle.export_core.specs.States.{State as Exporter, value_for};
ghost use Rattle.core_machine.specs.Bridges.{AreWithin, IsBridge, comes_but_by};
ghost use Rattle.core_machine.specs.Channels.{Channel, IsFed, closed, fed, is_open, new_channel, opened, push_one, renewed, take_one, times};
ghost use Rattle.core_machine.specs.Enters.{standing_keys};
ghost use Rattle.core_machine.specs.Histories.{AreReal, content_of, front, own};
ghost use Rattle.core_machine.specs.Legal.{AreLegal, Printed, nothing};
ghost use Rattle.core_machine.specs.Lines.{Act, Line};
ghost use Rattle.core_machine.specs.Machine.{Begins, Plays, State, gained, if_open, push_at, start};
ghost use Rattle.core_machine.specs.Match.{IsHeadChunk, IsNextEntry, IsSpecOf, Matches, MatchesFed, MatchesFlushed, TellChosen, change_of_sending};
ghost use Rattle.core_machine.specs.Phases.{Comes, IsPhase, PlaysAll};
ghost use Rattle.core_machine.specs.Pipes.{candidate_in, course_of, passes};
ghost use Rattle.core_machine.specs.Room.{Makes, in_room};
ghost use Rattle.core_machine.specs.Rounds.{HasRounds, taken_up, turn_lines};
ghost use Rattle.core_machine.specs.Rules.{AreWays, IsRules, Rules, best_of};
ghost use Rattle.core_machine.specs.Ways.{HasWays};

use attrs::Judge;

/// Each list of phases that the machine comes to is legal.
pub fn phases_are_legal()
    ensures { (rules : Rules) (starts : List Act) (scripts : List (List Line))
        (printed : List Printed) → IsRules rules
        → PlaysAll rules starts nothing (start rules) scripts printed
        → AreLegal rules starts nothing scripts printed }
{}

/// After a phase each channel that is up stands at its table's head, has no mark, and is settled.
pub fn channels_are_settled()
    ensures { (rules : Rules) (phase : List Act × List Line)
        (earlier : List (List Act × List Line)) (s : State) (c : ℕ) → IsRules rules
        → Comes rules (phase ∷ earlier) s → is_open (s.channels c) ≡ true
        → ((s.channels c).position ≡ length (s.history (rules.reads c)))
        × ((s.channels c).marks ≡ [])
        × Settled (rules.value c) (course_of rules c (s.history (rules.reads c)))
        (s.channels c).log }
{}

/// A sync comes to an end: behind any lines some number of rounds settles each channel that is up.
pub fn syncs_end()
    ensures { (rules : Rules) (phases : List (List Act × List Line)) (starts : List Act)
        (lines : List Line) (s b u : State) → IsRules rules → Comes rules phases s
        → Begins rules starts (record s { replies = [] }) b → Plays rules lines b u
        → (rounds : ℕ) × HasRounds rules u rounds }
{}

/// A sync has no more rounds than there are tables.
pub fn rounds_are_few()
    ensures { (rules : Rules) (phases : List (List Act × List Line)) (starts : List Act)
        (lines : List Line) (s b u : State) (rounds : ℕ) → IsRules rules → Comes rules phases s
        → Begins rules starts (record s { replies = [] }) b → Plays rules lines b u
        → HasRounds rules u rounds → rounds ≤ rules.tables }
{}

/// Nor has it more rounds than a number that each way has fewer directions than: without pipes it
/// has one at most.
pub fn rounds_go_by_ways()
    ensures { (rules : Rules) (most : ℕ) (phases : List (List Act × List Line))
        (starts : List Act) (lines : List Line) (s b u : State) (rounds : ℕ) → IsRules rules
        → ((table i : ℕ) (ds : List ℕ) → rules.hops table i ≡ Some ds → length ds < most)
        → Comes rules phases s → Begins rules starts (record s { replies = [] }) b
        → Plays rules lines b u → HasRounds rules u rounds → rounds ≤ most }
{}

/// Each list of scripts comes to phases, so that the first law speaks of something.
pub fn scripts_are_played()
    ensures { (rules : Rules) (starts : List Act) (scripts : List (List Line)) → IsRules rules
        → (printed : List Printed) × PlaysAll rules starts nothing (start rules) scripts printed }
{}

/// Each line does something to each state, and so do lines.
pub fn lines_are_played()
    ensures { (rules : Rules) (lines : List Line) (s : State) → IsRules rules
        → (t : State) × Plays rules lines s t }
{}

/// Between any two lines each change of a table is one. So each change was one when it came, in the
/// midst of an operation or a push too.
pub fn changes_are_real()
    ensures { (rules : Rules) (phases : List (List Act × List Line)) (starts : List Act)
        (lines : List Line) (s b u : State) (table : ℕ) → IsRules rules → Comes rules phases s
        → Begins rules starts (record s { replies = [] }) b → Plays rules lines b u
        → AreReal (u.history table) }
{}

/// A channel's turn in a round, with any number of its pushes, is a line that takes and one that
/// pushes. So what holds between lines holds in the midst of a sync.
pub fn turns_are_lines()
    ensures { (rules : Rules) (c pushes : ℕ) (s : State)
        → Plays rules (turn_lines rules c pushes s) s
        (if_open c (λ up. times pushes (push_at rules c) (taken_up rules c up)) s) }
{}

/// A phase comes to one state.
pub fn phases_come_to_one_state()
    ensures { (rules : Rules) (starts : List Act) (lines : List Line) (s t u : State)
        → IsRules rules → IsPhase rules starts lines s t → IsPhase rules starts lines s u → t ≡ u }
{}

/// Where the lowest-numbered channel that lags takes, again and again until none lags, each one
/// that lagged has taken once.
pub fn each_takes_once()
    ensures { (rules : Rules) (table : ℕ) (history : List Change) (turns : ℕ)
        (channels after : ℕ → Channel) → 1 ≤ rules.cells
        → Makes rules table history turns channels after
        → (c : ℕ) → after c ≡ in_room rules table history channels c }
{}

/// Between any two lines, no channel that is up lags by more than the journal.
pub fn no_channel_lags_by_more()
    ensures { (rules : Rules) (phases : List (List Act × List Line)) (starts : List Act)
        (lines : List Line) (s b u : State) (c : ℕ) → IsRules rules → 1 ≤ rules.cells
        → Comes rules phases s → Begins rules starts (record s { replies = [] }) b
        → Plays rules lines b u → is_open (u.channels c) ≡ true
        → length (u.history (rules.reads c)) - (u.channels c).position ≤ rules.cells }
{}

/// The ways that are found level by level are ways, whatever tables the pipes join.
pub fn levels_give_ways()
    ensures { (rules : Rules) → 1 ≤ rules.tables → HasWays rules → AreWays rules }
{}

/// A direction of a pipe that is a bridge, as each pipe of a forest is, passes the sources that
/// come to the table that it reads, but for those that come there by the same pipe: so nothing goes
/// back by the pipe that it came by, and all else goes on.
pub fn bridges_keep_what_comes_by_them()
    ensures { (rules : Rules) (d e num : ℕ) → HasWays rules → AreWithin rules
        → IsBridge rules d e
        → passes rules d num ≡ comes_but_by rules e (rules.reads d) num }
{}

/// What the functions of a configuration owe can be met, and with a pipe.
pub fn some_rules_are_as_asked()
    ensures { (rules : Rules) × IsRules rules × (rules.hops 1 0 ≡ Some (0 ∷ [])) }
{}

/// Where a source's changes are some earlier and some later ones, the earlier ones are all that
/// stand up to a position that has as many of them.
pub fn positions_are_told_by_counts()
    ensures { (source at : ℕ) (history later earlier : List Change)
        → own source history ≡ later ++ earlier
        → length (own source (front at history)) ≡ length earlier
        → own source (front at history) ≡ earlier }
{}

/// A new exporter is a channel that never was up.
pub fn new_exporters_match<J: Judge>()
    ensures { (rules : Rules) (c : ℕ) (e : Exporter J) → IsSpecOf rules c e.spec
        → ((k : Key) (r : Route) → value_for J.verdict e k r ≡ rules.value c k r)
        → e.position ≡ 0 → e.floors ≡ [] → e.feed ≡ Done → e.marks ≡ [] → e.log ≡ []
        → e.flushing ≡ false → Matches J.verdict rules c [] e new_channel }
{}

/// Where a direction of a pipe has come up at the beginning and was fed of an empty table, it is
/// the channel that the machine begins with.
pub fn pipes_open_at_the_beginning()
    ensures { (rules : Rules) (c : ℕ) (ch : Channel) → IsRules rules
        → rules.first (rules.owner c) ≡ true → IsFed rules c [] false (opened 0 new_channel) ch
        → ch ≡ (start rules).channels c }
{}

/// A change of the table changes nothing between an exporter and its channel.
pub fn changes_keep_the_match<J: Judge>()
    ensures { (rules : Rules) (c : ℕ) (history : List Change) (x : Change) (e : Exporter J)
        (ch : Channel) → Matches J.verdict rules c history e ch
        → Matches J.verdict rules c (x ∷ history) e ch }
{}

/// A take of an exporter that is the machine's channel is the machine's take.
pub fn takes_match<J: Judge>()
    ensures { (rules : Rules) (c : ℕ) (history : List Change) (read : JEntry)
        (e new : Exporter J) (ch : Channel) (pos : ℕ) → is_open ch ≡ true
        → pos ≡ e.position + 1 → IsNextEntry rules history ch read
        → Takes pos read e new → Matches J.verdict rules c history e ch
        → Matches J.verdict rules c history new (take_one rules c history ch) }
{}

/// The course that entries tell an exporter is the history's, as its channel reads it.
pub fn courses_agree()
    ensures { (rules : Rules) (c : ℕ) (spec : ExportSpec) (entries : List JEntry) → IsRules rules
        → IsSpecOf rules c spec → TellChosen rules entries
        → ((told_course spec entries).len
        ≡ (course_of rules c (reverse (map change_of entries))).len)
        × ((k : Key) (position : ℕ)
        → (told_course spec entries).best k position
        ≡ (course_of rules c (reverse (map change_of entries))).best k position) }
{}

/// A push is the machine's, and so is what comes of it in the table that a direction of a pipe
/// writes.
pub fn pushes_match<J: Judge>()
    ensures channel { (rules : Rules) (c : ℕ) (history : List Change) (answer : Pushed)
        (told told_after : Option (List Sending)) (e new : Exporter J) (ch : Channel)
        → Pushes J.verdict e new told told_after answer → Matches J.verdict rules c history e ch
        → Matches J.verdict rules c history new (push_one rules c history ch) }
    ensures sent { (rules : Rules) (c : ℕ) (history : List Change) (m : Mark) (x : Sending)
        (e new : Exporter J) (ch : Channel) → PushesOut J.verdict m x e new
        → Matches J.verdict rules c history e ch
        → gained rules c history ch.marks ch ≡ change_of_sending rules x }
    ensures quiet { (rules : Rules) (c : ℕ) (history : List Change) (k : Key) (m : Mark)
        (e new : Exporter J) (ch : Channel) → PushesQuietly J.verdict k m e new
        → Matches J.verdict rules c history e ch
        → gained rules c history ch.marks ch ≡ None }
    ensures nothing { (rules : Rules) (c : ℕ) (history : List Change) (e : Exporter J)
        (ch : Channel) → e.marks ≡ [] → Matches J.verdict rules c history e ch
        → gained rules c history ch.marks ch ≡ None }
{}

/// A stretch begins, is refreshed and ends as the machine's. In the first two cases a feed has
/// begun then, and no key has been fed.
pub fn stretches_match<J: Judge>()
    ensures up { (rules : Rules) (c : ℕ) (history : List Change) (e : Exporter J) (ch : Channel)
        → Matches J.verdict rules c history e ch
        → MatchesFed J.verdict rules c history false [] (begun (length history) e)
        (opened (length history) ch) }
    ensures refresh { (rules : Rules) (c : ℕ) (history : List Change) (e : Exporter J)
        (ch : Channel) → is_open ch ≡ true → Matches J.verdict rules c history e ch
        → MatchesFed J.verdict rules c history true [] (refreshed e) (renewed ch) }
    ensures down { (rules : Rules) (c : ℕ) (history : List Change) (e : Exporter J) (ch : Channel)
        → Matches J.verdict rules c history e ch
        → Matches J.verdict rules c history (ended e) (closed ch) }
{}

/// A feed of chunks at the table's head is the machine's: each chunk feeds some keys more, and at
/// the end those of the machine's feed have been fed.
pub fn feeds_match<J: Judge>()
    ensures chunk { (rules : Rules) (c : ℕ) (history : List Change) (due : Bool) (keys : List Key)
        (chunk : Chunk) (e new : Exporter J) (ch : Channel)
        → MatchesFed J.verdict rules c history due keys e ch → e.feed ≡ From chunk.from
        → IsHeadChunk rules c e.spec history chunk → Feeds chunk e new
        → (more : List Key) × MatchesFed J.verdict rules c history due more new ch }
    ensures end { (rules : Rules) (c : ℕ) (history : List Change) (due : Bool) (keys : List Key)
        (e : Exporter J) (ch : Channel) → e.feed ≡ Done
        → MatchesFed J.verdict rules c history due keys e ch
        → IsFed rules c history due ch (fed keys due (length history) ch)
        × Matches J.verdict rules c history e (fed keys due (length history) ch) }
{}

/// The withdrawals of a direction of a pipe that goes down are the machine's: those of all keys
/// that stand are left at the beginning, each flush makes the first of those that are left, and
/// where it answers that there is nothing none is left. Then the stretch ends as the machine's.
pub fn flushes_match<J: Judge>()
    ensures begin { (rules : Rules) (c : ℕ) (history : List Change) (e : Exporter J)
        (ch : Channel) → AreStanding e.log e.left → Matches J.verdict rules c history e ch
        → MatchesFlushed J.verdict rules c history (standing_keys ch.log) e ch }
    ensures flush { (rules : Rules) (c : ℕ) (history : List Change) (keys : List Key)
        (x : Sending) (e new : Exporter J) (ch : Channel) → Flushes x e new
        → MatchesFlushed J.verdict rules c history keys e ch
        → (x.value ≡ None) × (left : List Key) × (keys ≡ x.key ∷ left)
        × MatchesFlushed J.verdict rules c history left new ch }
    ensures end { (rules : Rules) (c : ℕ) (history : List Change) (keys : List Key)
        (told told_after : Option (List Sending)) (e new : Exporter J) (ch : Channel)
        → FlushesBy e new told told_after Nothing
        → MatchesFlushed J.verdict rules c history keys e ch → keys ≡ [] }
    ensures down { (rules : Rules) (c : ℕ) (history : List Change) (keys : List Key)
        (e : Exporter J) (ch : Channel) → MatchesFlushed J.verdict rules c history keys e ch
        → Matches J.verdict rules c history (ended e) (closed ch) }
    ensures change { (rules : Rules) (c : ℕ) (history : List Change) (x : Change)
        (keys : List Key) (e : Exporter J) (ch : Channel)
        → MatchesFlushed J.verdict rules c history keys e ch
        → MatchesFlushed J.verdict rules c (x ∷ history) keys e ch }
{}

/// A history's front is its beginning in the order of time, so that it leaves the content at that
/// position.
pub fn fronts_are_beginnings()
    ensures { (position : ℕ) (history : List Change)
        → reverse (front position history) ≡ take position (reverse history) }
{}

/// Between any two lines, the best route of a net that the machine speaks of is the best of its
/// routes, at each position of a table.
pub fn the_best_is_chosen()
    ensures { (rules : Rules) (phases : List (List Act × List Line)) (starts : List Act)
        (lines : List Line) (s b u : State) (table position : ℕ) (net : Net)
        (routes : List Route) → IsRules rules → Comes rules phases s
        → Begins rules starts (record s { replies = [] }) b → Plays rules lines b u
        → AreRoutesOf (content_of (front position (u.history table))) net routes
        → IsBest routes (best_of rules net (front position (u.history table))) }
{}

/// In the machine's tables only protocols have routes, and each route tells its own.
pub fn only_protocols_have_routes()
    ensures beyond { (rules : Rules) (phases : List (List Act × List Line)) (starts : List Act)
        (lines : List Line) (s b u : State) (table position : ℕ) (net : Net) (num : ℕ)
        → IsRules rules → Comes rules phases s
        → Begins rules starts (record s { replies = [] }) b → Plays rules lines b u
        → rules.protocols ≤ num
        → content_of (front position (u.history table)) net num ≡ None }
    ensures source { (rules : Rules) (phases : List (List Act × List Line)) (starts : List Act)
        (lines : List Line) (s b u : State) (table position : ℕ) (net : Net) (num : ℕ)
        (route : Route) → IsRules rules → Comes rules phases s
        → Begins rules starts (record s { replies = [] }) b → Plays rules lines b u
        → content_of (front position (u.history table)) net num ≡ Some route
        → route.src.num ≡ num }
{}

/// In the machine's tables the routes of a net can be listed at each position, so that what is said
/// of each list of them is said of something.
pub fn routes_are_listed()
    ensures { (rules : Rules) (phases : List (List Act × List Line)) (starts : List Act)
        (lines : List Line) (s b u : State) (table position : ℕ) (net : Net) → IsRules rules
        → Comes rules phases s → Begins rules starts (record s { replies = [] }) b
        → Plays rules lines b u
        → (routes : List Route)
        × AreRoutesOf (content_of (front position (u.history table))) net routes }
{}

/// Rows that show a content tell the candidate of each key, so that an entry or a chunk may be made
/// of them.
pub fn rows_tell_candidates()
    ensures { (rules : Rules) (c : ℕ) (spec : ExportSpec) (content : Content) (rows : List Row)
        (k : Key) → IsRules rules → IsSpecOf rules c spec
        → ((num : ℕ) → rules.protocols ≤ num → content k.net num ≡ None) → Shows rows content
        → best_in spec k rows ≡ candidate_in rules c k content }
{}

/// The first of a net's rows is the route that is chosen.
pub fn rows_tell_what_is_chosen()
    ensures { (rules : Rules) (content : Content) (rows : List Row) (net : Net) → IsRules rules
        → ((num : ℕ) → rules.protocols ≤ num → content net num ≡ None) → Shows rows content
        → slice_get (routes_of net rows) 0 ≡ rules.choose (content net) }
{}
