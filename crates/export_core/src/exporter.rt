//! The exporter.
ghost use Rattle.std.specs.Prelude.{◌&&◌, ◌≡◌, ◌≢◌, ◌↔◌, ◌+◌, ◌<◌, ◌≤◌, ℕ, [], reverse, OnOk, OnErr, IfOk, IfErr, nat_lt, if◌then◌else◌, IfNone, IfSome, IsSome, IsTrue, false, true, Some, None, option_copied, option_map};
ghost use Rattle.bits_ip.specs.Address.{family_of};
ghost use Rattle.export_core.specs.declared.log.Key.{Key};
ghost use Rattle.export_core.specs.declared.floors.FeedState.TheVariants.{Done, From};
ghost use Rattle.export_core.specs.Calls.{AreStanding, FlushesBy, begun, ended, refreshed, Feeds, IsAtRest, IsNews, IsQuiet, MarksAbove, Pushes, Takes, order_with};
ghost use Rattle.export_core.specs.Candidates.{IsChunk, best_in, has_num, heeds, key_of_entry};
ghost use Rattle.export_core.specs.Logs.{Course, Settled, highest};
ghost use Rattle.export_core.specs.declared.exporter.Next.TheVariants as next;
ghost use Rattle.export_core.specs.Marks.{find};
ghost use Rattle.std.specs.Map.{keys_of};
ghost use Rattle.export_core.specs.Refusals.{Rose};
ghost use Rattle.export_core.specs.Plan.{IsFirst, IsNext};
ghost use Rattle.export_core.specs.Sends.{IsStanding};
ghost use Rattle.export_core.specs.Standing.{is_open, standing_at};
ghost use Rattle.export_core.specs.States.{IsChunkAt, IsEntryAt, StandsFor, reach_of, value_for};

use crate::candidates::best_routes;
use crate::floors::{FeedState, Floor, after_chunk, lower, reach_at};
use crate::log::{Key, LogItem, Sending};
use crate::marks::{Mark, Marks};
use crate::outlet::{Outlet, PushFault};
use crate::passing::{ExportSpec, Through};
use crate::standing::Standing;
use attrs::{Attrs, Chunk, JEntry, Judge, Route, Shared};
use bits_ip::OutOfMemory;
use std::alloc::Global;
use std::collections::VecDeque;
use std::hash::RandomState;
use std::marker::Model;

/// What a push did.
#[derive(Clone, Copy, Debug, PartialEq, Eq, Drop)]
pub enum Pushed {
    /// The first mark's value was sent, or the first value that stood was withdrawn.
    Sent,
    /// It stands already and no refresh is due.
    Quiet,
    /// No key is marked, or nothing is left to withdraw.
    Nothing,
}

/// What the next push will do.
#[derive(Debug, Drop)]
enum Next {
    Send(Sending),
    Quiet,
    Nothing,
}

/// The export side of one channel.
#[derive(Debug, Drop)]
pub struct Exporter<J: Judge> {
    alloc: Global,
    through: Through<J>,
    up: bool,
    position: u64,
    floors: VecDeque<Floor>,
    feed: FeedState,
    refreshing: bool,
    marks: Marks,
    sent: Standing,
    log: Vec<LogItem>,
    flushing: bool,
}

impl<J: Judge> Model for Exporter<J> {
    ghost use Rattle.export_core.specs.States.{State};
    ghost use Rattle.export_core.specs.Families.{AreOfFamily};
    ghost use Rattle.export_core.specs.Standing.{IsKept, held_keys};

    ghost Value = { State J };

    ghost view = { λ e. record {
      spec = e.through.spec;
      judge = e.through.judge;
      position = e.position;
      floors = e.floors.items;
      feed = e.feed;
      refreshing = e.refreshing;
      marks = e.marks;
      log = e.log.items;
      flushing = e.flushing;
      left = held_keys e.sent;
    } };

    ghost invariant = { λ e. IsKept e.flushing e.up e.sent e.log.items
        × AreOfFamily e.through.spec e.marks e.sent };
}

/// Whether a value is sent as one sent again, and none where it isn't sent.
fn send_of(value: Option<&Shared<Attrs>>, last: Option<&Shared<Attrs>>, due: bool) -> Option<bool>
    ensures quiet { IfNone result
        (IsQuiet due (option_copied value.entry) (option_copied last.entry)) }
    ensures news { IfSome result (λ again.
        IsNews due (option_copied value.entry) (option_copied last.entry) again) }
{
    if !is_same(value, last) {
        return Some(false);
    }
    if due && value.is_some() {
        return Some(true);
    }
    None
}

fn is_same(one: Option<&Shared<Attrs>>, other: Option<&Shared<Attrs>>) -> bool
    ensures { IsTrue result ↔ (option_copied one.entry ≡ option_copied other.entry) }
{
    match (one, other) {
        (Some(one), Some(other)) => one.is_same(other),
        (None, None) => true,
        _ => false,
    }
}

fn copy_best(best: Option<&Route>) -> Result<Option<Route>, OutOfMemory>
    ensures { IfOk result (λ copy. copy ≡ option_copied best.entry) }
{
    match best {
        Some(route) => Ok(Some(route.copy()?)),
        None => Ok(None),
    }
}

fn is_done(feed: &FeedState) -> bool
    ensures { IsTrue result ↔ (feed.now ≡ Done) }
{
    match feed {
        FeedState::Done => true,
        FeedState::From(_) => false,
    }
}

/// Marks the entry's key where its source is heeded and the entry stands above what has been read.
fn mark_above(
    marks: &mut Marks,
    spec: &ExportSpec,
    reached: u64,
    pos: u64,
    entry: &JEntry,
) -> Result<(), OutOfMemory>
    ensures marks { OnOk result (MarksAbove spec.now reached pos entry.now marks.old marks.new) }
    ensures order { OnOk result (keys_of marks.new
        ≡ (if nat_lt reached pos && heeds spec.now entry.now.num
        then order_with (key_of_entry spec.now entry.now) marks.old
        else keys_of marks.old)) }
    ensures refused { OnErr result (marks.new ≡ marks.old) }
{
    if reached < pos && spec.heeds(entry.num) {
        let mark = Mark {
            at: pos,
            candidate: copy_best(spec.told(entry))?,
            due: false,
        };
        marks.put(spec.key_of(entry), mark)?;
    }
    Ok(())
}

impl<J: Judge> Exporter<J> {
    /// A channel that is down. Its marks are kept by keys that are hashed by this, which no answer
    /// depends on.
    pub fn make(alloc: Global, hasher: RandomState, spec: ExportSpec, judge: J) -> Exporter<J>
        ensures { result ≡ record {
          spec = spec;
          judge = judge;
          position = 0;
          floors = [];
          feed = Done;
          refreshing = false;
          marks = [];
          log = [];
          flushing = false;
          left = [];
        } }
    {
        Exporter {
            alloc,
            through: Through { spec, judge },
            up: false,
            position: 0,
            floors: VecDeque::new(alloc),
            feed: FeedState::Done,
            refreshing: false,
            marks: Marks::new(alloc, hasher),
            sent: Standing::new(alloc),
            log: Vec::new(alloc),
            flushing: false,
        }
    }

    /// The log so far.
    pub fn items(&self) -> &[LogItem]
        ensures { result.now ≡ self.now.log }
    {
        self.log.as_slice()
    }

    /// The same as it is held, for a snapshot.
    pub fn log(&self) -> &Vec<LogItem>
        ensures { result.now.items ≡ self.now.log }
    {
        &self.log
    }

    /// Whether the channel is up.
    pub fn is_up(&self) -> bool
        ensures { result ≡ is_open self.now.log }
    {
        self.up
    }

    /// Whether a feed goes on, and from which net.
    pub fn feed_from(&self) -> FeedState
        ensures { result ≡ self.now.feed }
    {
        self.feed
    }

    /// The values that stand as sent, in the order of keys. Their nets are of the channel's family.
    pub fn standing(&self) -> Result<Vec<(Key, Shared<Attrs>)>, OutOfMemory>
        ensures values { IfOk result (λ values. self.now.flushing ≡ false
            → IsStanding self.now.log values.items) }
        ensures families { self.now.flushing ≡ false → (k : Key)
            → IsSome (standing_at k self.now.log) → family_of k.net.addr ≡ self.now.spec.family }
    {
        self.sent.values(self.alloc, &self.log)
    }

    /// Takes the next entry of the table's journal.
    pub fn take(&mut self, pos: u64, entry: &JEntry) -> Result<(), OutOfMemory>
        requires up { is_open self.old.log ≡ true }
        requires next { pos ≡ self.old.position + 1 }
        requires family { family_of entry.now.net.addr ≡ self.old.spec.family }
        ensures takes { OnOk result (Takes pos entry.now self.old self.new) }
        ensures refused { OnErr result (self.new ≡ self.old) }
        ensures stands { OnOk result ((c : Course) → IsEntryAt self.old.spec c pos entry.now
            → StandsFor J.verdict c self.old → StandsFor J.verdict c self.new) }
    {
        let key = self.through.spec.key_of(entry);
        let reached = reach_at(&self.floors, self.position, &key);
        mark_above(&mut self.marks, &self.through.spec, reached, pos, entry)?;
        self.position = pos;
        lower(&mut self.floors, pos);
        Ok(())
    }

    /// What a push of the first mark will do.
    fn next_of(&self, key: &Key, mark: &Mark) -> Result<Next, OutOfMemory>
        requires first { IsFirst key.now mark.now self.now }
        requires stays { self.now.flushing ≡ false }
        ensures { IfOk result (λ next. IsNext J.verdict self.now next) }
    {
        let value = self.through.best_value(key, mark.candidate.as_ref())?;
        let last = self.sent.value(&self.log, key);
        let Some(again) = send_of(value.as_ref(), last, mark.due) else {
            return Ok(Next::Quiet);
        };
        Ok(Next::Send(Sending {
            at: mark.at,
            key: *key,
            value,
            again,
        }))
    }

    /// What the next push will do.
    fn next(&self) -> Result<Next, OutOfMemory>
        requires stays { self.now.flushing ≡ false }
        ensures { IfOk result (λ next. IsNext J.verdict self.now next) }
    {
        match self.marks.first() {
            Some(first) => self.next_of(&first.0, first.1),
            None => Ok(Next::Nothing),
        }
    }

    /// Sends the first mark's value.
    fn send<O: Outlet>(&mut self, outlet: &mut O, sending: Sending) -> Result<Pushed, PushFault>
        requires stays { self.old.flushing ≡ false }
        requires next { IsNext J.verdict self.old (next.Send sending) }
        requires takes { (num : ℕ) → has_num self.old.spec num ≡ true
            → O.takes outlet.old num self.old.spec.family ≡ true }
        ensures pushes { IfOk result (Pushes J.verdict self.old self.new
            (O.told outlet.old) (O.told outlet.new)) }
        ensures refused { OnErr result
            ((self.new ≡ self.old) × (O.told outlet.new ≡ O.told outlet.old)) }
        ensures cause { IfErr result (λ fault. fault ≢ PushFault.Memory
            → Rose (O.refusals outlet.old) (O.refusals outlet.new)
            × (O.fault outlet.new ≡ Some fault)) }
        ensures stays { OnOk result (self.new.flushing ≡ false) }
    {
        let key = sending.key;
        let number = sending.number(&self.log);
        self.log.reserve(1)?;
        self.sent.make_place(&key)?;
        outlet.put(&sending)?;
        self.marks.pop();
        self.sent.set(key, number);
        self.log.push_reserved(LogItem::Sent(sending));
        Ok(Pushed::Sent)
    }

    /// Pushes the first mark out, in the order of first marking. The nets of what is marked are of
    /// the channel's family.
    pub fn push_one<O: Outlet>(&mut self, outlet: &mut O) -> Result<Pushed, PushFault>
        requires stays { self.old.flushing ≡ false }
        requires up { is_open self.old.log ≡ true }
        requires takes { (num : ℕ) → has_num self.old.spec num ≡ true
            → O.takes outlet.old num self.old.spec.family ≡ true }
        ensures pushes { IfOk result (Pushes J.verdict self.old self.new
            (O.told outlet.old) (O.told outlet.new)) }
        ensures refused { OnErr result
            ((self.new ≡ self.old) × (O.told outlet.new ≡ O.told outlet.old)) }
        ensures cause { IfErr result (λ fault. fault ≢ PushFault.Memory
            → Rose (O.refusals outlet.old) (O.refusals outlet.new)
            × (O.fault outlet.new ≡ Some fault)) }
        ensures up { OnOk result (is_open self.new.log ≡ true) }
        ensures stays { OnOk result (self.new.flushing ≡ false) }
        ensures stands { OnOk result ((c : Course)
            → StandsFor J.verdict c self.old → StandsFor J.verdict c self.new) }
        ensures families { (k : Key) → IsSome (find k self.old.marks)
            → family_of k.net.addr ≡ self.old.spec.family }
    {
        match self.next()? {
            Next::Nothing => Ok(Pushed::Nothing),
            Next::Quiet => {
                self.marks.pop();
                Ok(Pushed::Quiet)
            }
            Next::Send(sending) => self.send(outlet, sending),
        }
    }

    /// What the channel makes of a route, whether it is up or down.
    pub fn through(&self) -> &Through<J>
        ensures { result.now ≡ record { spec = self.now.spec; judge = self.now.judge } }
    {
        &self.through
    }

    /// Whether what stands is being withdrawn.
    pub fn is_flushing(&self) -> bool
        ensures { result ≡ self.now.flushing }
    {
        self.flushing
    }

    /// Withdraws the first value that stands still, in the order of keys. The log has no item of
    /// it: that all is withdrawn is told by the `Down` that follows.
    pub fn flush_one<O: Outlet>(&mut self, outlet: &mut O) -> Result<Pushed, PushFault>
        requires every { self.old.spec.every ≡ true }
        requires up { is_open self.old.log ≡ true }
        requires takes { (num : ℕ) → has_num self.old.spec num ≡ true
            → O.takes outlet.old num self.old.spec.family ≡ true }
        ensures first { self.old.flushing ≡ false → AreStanding self.old.log self.old.left }
        ensures flushes { IfOk result (FlushesBy self.old self.new
            (O.told outlet.old) (O.told outlet.new)) }
        ensures refused { OnErr result
            ((self.new ≡ self.old) × (O.told outlet.new ≡ O.told outlet.old)) }
        ensures cause { IfErr result (λ fault. fault ≢ PushFault.Memory
            → Rose (O.refusals outlet.old) (O.refusals outlet.new)
            × (O.fault outlet.new ≡ Some fault)) }
        ensures up { OnOk result (is_open self.new.log ≡ true) }
        ensures stands { OnOk result ((c : Course)
            → StandsFor J.verdict c self.old → StandsFor J.verdict c self.new) }
    {
        // what ascends is told for the clause `first`
        self.sent.ascend();
        // a push that was refused may have left a place
        self.sent.skip_places();
        let Some(key) = self.sent.first() else {
            return Ok(Pushed::Nothing);
        };
        let sending = Sending {
            at: self.position,
            key,
            value: None,
            again: false,
        };
        outlet.put(&sending)?;
        self.sent.pop();
        self.flushing = true;
        Ok(Pushed::Sent)
    }

    /// Begins a stretch at the position, with a feed.
    pub fn up(&mut self, at: u64) -> Result<(), OutOfMemory>
        requires down { is_open self.old.log ≡ false }
        requires later { highest (reverse self.old.log) ≤ at }
        ensures begins { OnOk result (self.new ≡ begun at self.old) }
        ensures up { OnOk result (is_open self.new.log ≡ true) }
        ensures refused { OnErr result (self.new ≡ self.old) }
        ensures stands { OnOk result ((c : Course) → at ≤ c.len
            → StandsFor J.verdict c self.old → StandsFor J.verdict c self.new) }
    {
        self.log.reserve(1)?;
        self.log.push_reserved(LogItem::Up(at));
        self.up = true;
        self.position = at;
        self.floors.clear();
        self.feed = FeedState::From(None);
        self.refreshing = false;
        self.marks.clear();
        self.sent.clear();
        self.flushing = false;
        Ok(())
    }

    /// Begins a feed whose marks are due a refresh.
    pub fn refresh(&mut self) -> Result<(), OutOfMemory>
        requires stays { self.old.flushing ≡ false }
        requires up { is_open self.old.log ≡ true }
        ensures refreshes { OnOk result (self.new ≡ refreshed self.old) }
        ensures up { OnOk result (is_open self.new.log ≡ true) }
        ensures refused { OnErr result (self.new ≡ self.old) }
        ensures stands { OnOk result ((c : Course)
            → StandsFor J.verdict c self.old → StandsFor J.verdict c self.new) }
    {
        self.log.reserve(1)?;
        self.log.push_reserved(LogItem::Reload);
        self.feed = FeedState::From(None);
        self.refreshing = true;
        Ok(())
    }

    /// Ends the stretch. Marks and sent values are forgotten; a pipe's direction has withdrawn all
    /// that stood.
    pub fn down(&mut self) -> Result<(), OutOfMemory>
        requires up { is_open self.old.log ≡ true }
        requires withdrawn { self.old.spec.every ≡ true → self.old.left ≡ [] }
        ensures ends { OnOk result (self.new ≡ ended self.old) }
        ensures down { OnOk result (is_open self.new.log ≡ false) }
        ensures refused { OnErr result (self.new ≡ self.old) }
        ensures stands { OnOk result ((c : Course)
            → StandsFor J.verdict c self.old → StandsFor J.verdict c self.new) }
    {
        self.log.reserve(1)?;
        self.log.push_reserved(LogItem::Down);
        self.up = false;
        self.feed = FeedState::Done;
        self.marks.clear();
        self.sent.clear();
        self.flushing = false;
        Ok(())
    }

    /// Marks the keys of the chunk's range that have a candidate, a mark or a sent value.
    pub fn fed(&mut self, chunk: &Chunk) -> Result<(), OutOfMemory>
        requires stays { self.old.flushing ≡ false }
        requires here { self.old.feed ≡ From chunk.now.from }
        requires later { (k : Key) → reach_of self.old k ≤ chunk.now.at }
        requires chunk { IsChunk self.old.spec chunk.now }
        requires family { (k : Key) → IsSome (best_in self.old.spec k chunk.now.rows)
            → family_of k.net.addr ≡ self.old.spec.family }
        ensures feeds { OnOk result (Feeds chunk.now self.old self.new) }
        ensures refused { OnErr result (self.new ≡ self.old) }
        ensures stands { OnOk result ((c : Course) → IsChunkAt self.old.spec c chunk.now
            → StandsFor J.verdict c self.old → StandsFor J.verdict c self.new) }
    {
        let range = Floor::of_chunk(chunk);
        let mut candidates = best_routes(self.alloc, &self.through.spec, chunk.rows.as_slice())?;
        self.marks.add_to(&mut candidates, &range)?;
        self.sent.add_to(&mut candidates, &range)?;
        self.floors.reserve(1)?;
        self.marks.put_all(candidates, chunk.at, self.refreshing)?;
        self.floors.push_back_reserved(range);
        self.feed = after_chunk(chunk.upto);
        Ok(())
    }

    /// Whether the channel is up and keeps what stands, at the head, fed, and without a mark.
    fn rests(&self, head: u64) -> bool
        ensures rests { IsTrue result ↔ IsAtRest self.now head }
        ensures none { IsTrue result → (k : Key) → find k self.now.marks ≡ None }
    {
        let unmarked = self.marks.is_empty();
        self.up & !self.flushing & (self.position == head) & is_done(&self.feed) & unmarked
    }

    /// Whether the channel is up, and all up to the head is read and sent.
    pub fn is_settled(&self, head: u64) -> bool
        ensures rests { IsTrue result ↔ IsAtRest self.now head }
        ensures settled { IsTrue result → (c : Course) → head ≡ c.len
            → StandsFor J.verdict c self.now
            → Settled (value_for J.verdict self.now) c (reverse self.now.log) }
    {
        self.rests(head)
    }
}
