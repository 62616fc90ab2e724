//! A channel: to a neighbour, or a direction of a pipe.
ghost use Rattle.std.specs.Prelude.{◌≡◌, ◌↔◌, ◌<◌, ◌∷◌, ℕ, Bool, true, false, [], List, length, reverse, slice_get, IfOk, IsSome, IsTrue, OnOk, is_some, Option, Some, None, option_copied, option_map};
ghost use Rattle.std.specs.List.{AllByRecursion};
ghost use Rattle.std.specs.Map.{keys_of};
ghost use Rattle.attrs.specs.declared.route.Change.{Change as HeldChange};
ghost use Rattle.bits_ip.specs.Address.{family_of};
ghost use Rattle.bits_ip.specs.declared.address.Family.{Family};
ghost use Rattle.core_machine.specs.Channels as machine;
ghost use Rattle.core_machine.specs.Channels.{IsFed, closed, is_open, opened, push_one, renewed, take_one, times};
ghost use Rattle.core_machine.specs.Enters.{standing_keys};
ghost use Rattle.core_machine.specs.Match.{Matches, MatchesFed, change_of_sending};
ghost use Rattle.core_machine.specs.Room.{lags, roomed};
ghost use Rattle.core_machine.specs.Rounds.{IsSettled};
ghost use Rattle.core_machine.specs.Rules.{IsRules, Rules};
ghost use Rattle.export_core.specs.declared.log.LogItem.TheVariants.{Sent};
ghost use Rattle.export_core.specs.declared.log.LogItem.{LogItem as HeldItem};
ghost use Rattle.export_core.specs.declared.log.Sending.{Sending as HeldSending};
ghost use Rattle.export_core.specs.Calls.{ended};
ghost use Rattle.export_core.specs.Standing.{is_open as is_log_open};
ghost use Rattle.run_tables.specs.Channels.{AreSources, HasBegun, IsChannel, IsExporter, IsOver, IsSomeChannel, Reads, ReadsUp, Tells, TellsPush, TellsStanding, Withdraws, cursor_of, if_up, left_of};
ghost use Rattle.run_tables.specs.Tables.{IsTable};
ghost use Rattle.run_tables.specs.declared.table.Table.{Table as HeldTable};

use crate::table::Table;
use attrs::{Attrs, Change, Judge, Route, Shared, Src};
use bits_ip::OutOfMemory;
use export_core::{Exporter, Key, LogItem, LogOnly, Pushed, Sending};
use std::alloc::Global;

/// A channel, and up to where it has read its table.
#[derive(Debug, Drop)]
pub struct Channel<J: Judge> {
    /// The number of the table that it reads.
    pub table: usize,
    /// The number of the table that it writes, where it is a direction of a pipe.
    pub target: Option<usize>,
    pub exporter: Exporter<J>,
    /// How many changes of the table it has taken, while it is up.
    pub cursor: Option<u64>,
}

impl<J: Judge> Channel<J> {
    /// The log so far.
    pub fn items(&self) -> &[LogItem]
        ensures { result.now ≡ self.now.exporter.log }
    {
        self.exporter.items()
    }

    /// Whether it is a direction of a pipe.
    pub fn is_pipe(&self) -> bool
        ensures { result ≡ is_some self.now.target }
    {
        self.target.is_some()
    }

    /// The values that stand as sent, in the order of keys, where the channel is up.
    pub fn standing(&self) -> Result<Option<Vec<(Key, Shared<Attrs>)>>, OutOfMemory>
        ensures { IfOk result (λ standing. (rules : Rules) (c : ℕ) (family : Option Family)
            (history : List HeldChange) (ch : machine.Channel)
            → IsChannel J.verdict rules c family history self.now ch → TellsStanding ch standing) }
    {
        if self.cursor.is_none() {
            return Ok(None);
        }
        Ok(Some(self.exporter.standing()?))
    }

    /// Takes the next change of its table, where the channel is up and there is one.
    pub(crate) fn take(&mut self, table: &Table) -> Result<(), OutOfMemory>
        requires { Reads J.verdict self.old table.now }
        ensures { OnOk result ((rules : Rules) (c : ℕ) (family : Family)
            (history : List HeldChange) (ch : machine.Channel)
            → IsTable rules family history table.now
            → IsChannel J.verdict rules c (Some family) history self.old ch
            → IsChannel J.verdict rules c (Some family) history self.new
            (if_up (take_one rules c history) ch)) }
    {
        let Some(position) = self.cursor else {
            return Ok(());
        };
        self.cursor = Some(take_next(&mut self.exporter, position, table)?);
        Ok(())
    }

    /// Whether the channel is up and has as many changes still to take as the journal holds.
    pub(crate) fn lags(&self, head: u64, cells: u64) -> bool
        ensures { (rules : Rules) (c : ℕ) (family : Family) (history : List HeldChange)
            (ch : machine.Channel) → head ≡ length history → cells ≡ rules.cells
            → IsChannel J.verdict rules c (Some family) history self.now ch
            → result ≡ lags rules history ch }
    {
        match self.cursor {
            Some(position) => head.saturating_sub(position) == cells,
            None => false,
        }
    }

    /// Takes one change where it lags so.
    pub(crate) fn make_room(&mut self, table: &Table, cells: u64) -> Result<(), OutOfMemory>
        requires { Reads J.verdict self.old table.now }
        ensures { OnOk result ((rules : Rules) (c : ℕ) (family : Family)
            (history : List HeldChange) (ch : machine.Channel) → cells ≡ rules.cells
            → IsTable rules family history table.now
            → IsChannel J.verdict rules c (Some family) history self.old ch
            → IsChannel J.verdict rules c (Some family) history self.new
            (roomed rules c history ch)) }
    {
        if self.lags(table.head(), cells) {
            self.take(table)?;
        }
        Ok(())
    }

    /// How many of so many changes there are still to take.
    fn left(&self, head: u64, count: u64) -> u64
        ensures { result ≡ left_of self.now.cursor head count }
    {
        match self.cursor {
            Some(position) => count.min(head.saturating_sub(position)),
            None => 0,
        }
    }

    /// Takes so many changes, or all that there are.
    pub(crate) fn take_many(&mut self, table: &Table, count: u64) -> Result<(), OutOfMemory>
        requires { Reads J.verdict self.old table.now }
        ensures { OnOk result ((rules : Rules) (c : ℕ) (family : Family)
            (history : List HeldChange) (ch : machine.Channel)
            → IsTable rules family history table.now
            → IsChannel J.verdict rules c (Some family) history self.old ch
            → IsChannel J.verdict rules c (Some family) history self.new
            (if_up (times count (take_one rules c history)) ch)) }
    {
        let left = self.left(table.head(), count);
        for _ in 0..left {
            self.take(table)?;
        }
        Ok(())
    }

    /// Takes all that there is.
    pub(crate) fn take_to_head(&mut self, table: &Table) -> Result<(), OutOfMemory>
        requires { Reads J.verdict self.old table.now }
        ensures { OnOk result ((rules : Rules) (c : ℕ) (family : Family)
            (history : List HeldChange) (ch : machine.Channel)
            → IsTable rules family history table.now
            → IsChannel J.verdict rules c (Some family) history self.old ch
            → IsChannel J.verdict rules c (Some family) history self.new
            (if_up (times (length history) (take_one rules c history)) ch)) }
    {
        self.take_many(table, table.head())?;
        Ok(())
    }

    /// Pushes the first mark.
    pub(crate) fn push(&mut self) -> Result<Pushed, OutOfMemory>
        requires { IsSomeChannel J.verdict self.old true }
        ensures pushes { OnOk result ((rules : Rules) (c : ℕ) (family : Family)
            (history : List HeldChange) (ch : machine.Channel)
            → IsChannel J.verdict rules c (Some family) history self.old ch
            → IsChannel J.verdict rules c (Some family) history self.new
            (push_one rules c history ch)) }
        ensures tells { IfOk result (λ pushed. (rules : Rules) (c : ℕ) (family : Family)
            (history : List HeldChange) (ch : machine.Channel) (table : HeldTable)
            → IsTable rules family history table
            → IsChannel J.verdict rules c (Some family) history self.old ch
            → TellsPush rules c family history self.old.exporter.log self.new.exporter.log ch
            pushed) }
    {
        match self.exporter.push_one(&mut LogOnly) {
            Ok(pushed) => Ok(pushed),
            Err(_) => Err(OutOfMemory),
        }
    }

    /// The change that the last item of the log makes in the table that is written: none where it
    /// is no value, or one that stood already. `sources` are those of the protocols' routes.
    pub(crate) fn entered(&self, sources: &[Src]) -> Result<Option<Change>, OutOfMemory>
        requires { Tells self.now.exporter.log sources.now }
        ensures { IfOk result (λ change. (rules : Rules) (x : HeldSending)
            (earlier : List HeldItem) → AreSources rules sources.now
            → reverse self.now.exporter.log ≡ Sent x ∷ earlier
            → change ≡ change_of_sending rules x) }
    {
        match self.exporter.items().last() {
            Some(LogItem::Sent(sending)) => entering(sources, sending),
            _ => Ok(None),
        }
    }

    /// Comes up at the table's head, and is fed.
    pub(crate) fn rise(&mut self, table: &Table) -> Result<(), OutOfMemory>
        requires { ReadsUp J.verdict self.old table.now false }
        ensures { OnOk result ((rules : Rules) (c : ℕ) (family : Family)
            (history : List HeldChange) (ch : machine.Channel) → IsRules rules
            → IsTable rules family history table.now → is_open ch ≡ false
            → IsChannel J.verdict rules c (Some family) history self.old ch
            → (new : machine.Channel)
            × IsFed rules c history false (opened (length history) ch) new
            × IsChannel J.verdict rules c (Some family) history self.new new) }
    {
        open(&mut self.exporter, table)?;
        self.cursor = Some(table.head());
        Ok(())
    }

    /// Is fed anew.
    pub(crate) fn renew(&mut self, table: &Table) -> Result<(), OutOfMemory>
        requires { ReadsUp J.verdict self.old table.now true }
        ensures { OnOk result ((rules : Rules) (c : ℕ) (family : Family)
            (history : List HeldChange) (ch : machine.Channel) → IsRules rules
            → IsTable rules family history table.now → is_open ch ≡ true
            → IsChannel J.verdict rules c (Some family) history self.old ch
            → (new : machine.Channel) × IsFed rules c history true (renewed ch) new
            × IsChannel J.verdict rules c (Some family) history self.new new) }
    {
        refresh(&mut self.exporter, table)
    }

    /// Goes down, as a channel to a neighbour.
    pub(crate) fn fall(&mut self) -> Result<(), OutOfMemory>
        requires up { is_log_open self.old.exporter.log ≡ true }
        requires withdrawn { self.old.exporter.spec.every ≡ true → self.old.exporter.left ≡ [] }
        ensures ends { OnOk result (self.new.exporter ≡ ended self.old.exporter) }
        ensures cursor { OnOk result (self.new.cursor ≡ None) }
        ensures table { self.new.table ≡ self.old.table }
        ensures target { self.new.target ≡ self.old.target }
    {
        self.exporter.down()?;
        self.cursor = None;
        Ok(())
    }

    /// Goes down, as a direction of a pipe. Answers the keys of what stood, in their order: it is
    /// withdrawn from the table that is written.
    pub(crate) fn flush(&mut self, alloc: Global) -> Result<Vec<Key>, OutOfMemory>
        requires up { IsSomeChannel J.verdict self.old true }
        requires every { self.old.exporter.spec.every ≡ true }
        ensures { IfOk result (λ keys. (rules : Rules) (c : ℕ) (family : Family)
            (history : List HeldChange) (ch : machine.Channel)
            → IsChannel J.verdict rules c (Some family) history self.old ch
            → (keys.items ≡ standing_keys ch.log)
            × IsChannel J.verdict rules c (Some family) history self.new (closed ch)
            × AllByRecursion (λ k. family_of k.net.addr ≡ family) keys.items) }
    {
        let keys = keys_of(alloc, self.exporter.standing()?)?;
        withdraw_all(&mut self.exporter)?;
        self.fall()?;
        Ok(keys)
    }

    /// Whether the channel, where it is up, has taken all that there is, and nothing is marked.
    pub(crate) fn is_settled(&self, head: u64) -> bool
        ensures { (rules : Rules) (c : ℕ) (family : Option Family) (history : List HeldChange)
            (ch : machine.Channel) → head ≡ length history
            → IsChannel J.verdict rules c family history self.now ch
            → IsTrue result ↔ (is_open ch ≡ true → IsSettled history ch) }
    {
        match self.cursor {
            Some(_) => self.exporter.is_settled(head),
            None => true,
        }
    }
}

/// Takes the next change of the table, where there is one, and answers how many have been taken.
fn take_next<J: Judge>(
    exporter: &mut Exporter<J>,
    position: u64,
    table: &Table,
) -> Result<u64, OutOfMemory>
    requires over { IsOver J.verdict exporter.old table.now true }
    requires here { exporter.old.position ≡ position }
    ensures { IfOk result (λ next. (rules : Rules) (c : ℕ) (family : Family)
        (history : List HeldChange) (ch : machine.Channel) → IsTable rules family history table.now
        → is_open ch ≡ true → IsExporter J.verdict rules c (Some family) history exporter.old ch
        → IsExporter J.verdict rules c (Some family) history exporter.new
        (take_one rules c history ch)
        × (Some next ≡ cursor_of (take_one rules c history ch))) }
{
    match table.entry(position) {
        Some(entry) => {
            exporter.take(position + 1, entry)?;
            Ok(position + 1)
        }
        None => Ok(position),
    }
}

/// Comes up at the table's head, and is fed.
fn open<J: Judge>(exporter: &mut Exporter<J>, table: &Table) -> Result<(), OutOfMemory>
    requires { IsOver J.verdict exporter.old table.now false }
    ensures { OnOk result ((rules : Rules) (c : ℕ) (family : Family) (history : List HeldChange)
        (ch : machine.Channel) → IsRules rules → IsTable rules family history table.now
        → is_open ch ≡ false
        → IsExporter J.verdict rules c (Some family) history exporter.old ch
        → (new : machine.Channel)
        × IsFed rules c history false (opened (length history) ch) new
        × IsExporter J.verdict rules c (Some family) history exporter.new new) }
{
    exporter.up(table.head())?;
    feed(exporter, table)?;
    Ok(())
}

/// Is fed anew.
fn refresh<J: Judge>(exporter: &mut Exporter<J>, table: &Table) -> Result<(), OutOfMemory>
    requires { IsOver J.verdict exporter.old table.now true }
    ensures { OnOk result ((rules : Rules) (c : ℕ) (family : Family) (history : List HeldChange)
        (ch : machine.Channel) → IsRules rules → IsTable rules family history table.now
        → is_open ch ≡ true
        → IsExporter J.verdict rules c (Some family) history exporter.old ch
        → (new : machine.Channel) × IsFed rules c history true (renewed ch) new
        × IsExporter J.verdict rules c (Some family) history exporter.new new) }
{
    exporter.refresh()?;
    feed(exporter, table)?;
    Ok(())
}

/// Feeds an exporter, whose feed has begun, with the whole table.
fn feed<J: Judge>(exporter: &mut Exporter<J>, table: &Table) -> Result<(), OutOfMemory>
    requires { HasBegun J.verdict exporter.old table.now }
    ensures family { OnOk result (exporter.new.spec ≡ exporter.old.spec) }
    ensures fed { OnOk result ((rules : Rules) (c : ℕ) (family : Family)
        (history : List HeldChange) (due : Bool) (ch : machine.Channel) → IsRules rules
        → IsTable rules family history table.now
        → MatchesFed J.verdict rules c history due [] exporter.old ch
        → (new : machine.Channel) × IsFed rules c history due ch new
        × Matches J.verdict rules c history exporter.new new) }
{
    let chunk = table.whole()?;
    exporter.fed(&chunk)?;
    Ok(())
}

/// The change that a value makes which a pipe sends.
fn entering(sources: &[Src], sending: &Sending) -> Result<Option<Change>, OutOfMemory>
    requires { IsSome sending.now.value → sending.now.key.num < length sources.now }
    ensures { IfOk result (λ change. (rules : Rules) → AreSources rules sources.now
        → change ≡ change_of_sending rules sending.now) }
{
    if sending.again {
        return Ok(None);
    }
    let new = route_of(sources, sending.key.num, sending.value.as_ref())?;
    Ok(Some(Change {
        net: sending.key.net,
        num: sending.key.num,
        new,
    }))
}

/// The route of a source with these attributes.
fn route_of(
    sources: &[Src],
    num: u32,
    value: Option<&Shared<Attrs>>,
) -> Result<Option<Route>, OutOfMemory>
    requires { IsSome (option_copied value) → num < length sources.now }
    ensures { IfOk result (λ route. (rules : Rules) → AreSources rules sources.now
        → route ≡ option_map (rules.route num) (option_copied value.entry)) }
{
    match value {
        Some(attrs) => Ok(Some(Route {
            src: sources[num as usize],
            attrs: attrs.share()?,
        })),
        None => Ok(None),
    }
}

/// The keys of values.
fn keys_of(alloc: Global, values: Vec<(Key, Shared<Attrs>)>) -> Result<Vec<Key>, OutOfMemory>
    ensures { IfOk result (λ keys. keys.items ≡ keys_of values.items) }
{
    let mut keys = Vec::new(alloc);
    for (key, _) in values {
        keys.push(key)?;
    }
    Ok(keys)
}

/// Withdraws all that stands.
fn withdraw_all<J: Judge>(exporter: &mut Exporter<J>) -> Result<(), OutOfMemory>
    requires every { exporter.old.spec.every ≡ true }
    requires up { is_log_open exporter.old.log ≡ true }
    ensures left { OnOk result (exporter.new.left ≡ []) }
    ensures same { OnOk result (ended exporter.new ≡ ended exporter.old) }
    ensures log { OnOk result (exporter.new.log ≡ exporter.old.log) }
{
    while withdraw_next(exporter)? {}
    Ok(())
}

/// Withdraws the first of what stands, and tells whether there was anything.
fn withdraw_next<J: Judge>(exporter: &mut Exporter<J>) -> Result<bool, OutOfMemory>
    requires every { exporter.old.spec.every ≡ true }
    requires up { is_log_open exporter.old.log ≡ true }
    ensures { IfOk result (λ more. Withdraws exporter.old exporter.new more) }
{
    match exporter.flush_one(&mut LogOnly) {
        Ok(pushed) => match pushed {
            Pushed::Sent => Ok(true),
            Pushed::Quiet => Ok(true),
            Pushed::Nothing => Ok(false),
        },
        Err(_) => Err(OutOfMemory),
    }
}
