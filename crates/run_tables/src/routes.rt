//! All tables and channels.
ghost use Rattle.std.specs.Prelude.{◌≡◌, ◌↔◌, ◌<◌, ◌≤◌, ℕ, true, false, [], ◌∷◌, List, slice_get, Some, length, IfOk, IsSome, IsTrue, OnOk, None, reverse};
ghost use Rattle.std.specs.List.{All};
ghost use Rattle.attrs.specs.declared.route.Change.{Change as HeldChange};
ghost use Rattle.core_machine.specs.Channels.{closed, is_open, times};
ghost use Rattle.core_machine.specs.Enters.{standing_keys, withdrawal};
ghost use Rattle.core_machine.specs.Machine.{Obeys, State, added, appended, arrived, flushed, if_open, push_at, takes, with_channel};
ghost use Rattle.core_machine.specs.Match.{change_of_sending};
ghost use Rattle.core_machine.specs.Room.{roomed};
ghost use Rattle.core_machine.specs.Rounds.{AreSettled, HasRounds, IsSettled, pushed_out, round, taken_up, turned};
ghost use Rattle.core_machine.specs.Rules.{Fits};
ghost use Rattle.core_setup.specs.Protocols.{rules_of, signal_of};
ghost use Rattle.core_setup.specs.Setup.{Setup};
ghost use Rattle.export_core.specs.declared.log.LogItem.{LogItem as HeldItem};
ghost use Rattle.export_core.specs.declared.log.LogItem.TheVariants.{Sent};
ghost use Rattle.export_core.specs.declared.log.Sending.{Sending as HeldSending};
ghost use Rattle.import_core.specs.declared.step.Mark.TheVariants as mark;
ghost use Rattle.std.specs.declared.alloc.Global.{Global as Alloc};
ghost use Rattle.std.specs.declared.vec.Vec.{Vec as Held};
ghost use Rattle.run_tables.specs.declared.channel.Channel.{Channel as HeldChannel};
ghost use Rattle.run_tables.specs.Routes.{AdmitsAt, AreRoutes, Ends, HasSent, Holds, HoldsUp, with_room};

use crate::channel::Channel;
use crate::table::Table;
use attrs::{Change, Judge, Src};
use bits_ip::OutOfMemory;
use export_core::{Key, Pushed};
use import_core::Mark;
use std::alloc::Global;

/// All tables and channels, by their numbers.
#[derive(Debug, Drop)]
pub struct Routes<J: Judge> {
    pub alloc: Global,
    /// How many changes the journal of each table holds for those that are still to read them.
    pub cells: u64,
    pub tables: Vec<Table>,
    /// The channels that read each table, in their order.
    pub readers: Vec<Vec<usize>>,
    pub channels: Vec<Channel<J>>,
    /// The source of each protocol's routes.
    pub sources: Vec<Src>,
}

impl<J: Judge> Routes<J> {
    // ---- changes of tables

    /// Lets a channel take one change, where it lags by the whole journal of the table that it
    /// reads.
    fn make_room_of(&mut self, number: usize) -> Result<(), OutOfMemory>
        requires holds { Holds J.verdict self.old }
        requires there { number < length self.old.channels.items }
        ensures room { OnOk result ((setup : Setup) (s : State)
            → AreRoutes J.verdict setup s self.old
            → AreRoutes J.verdict setup
            (with_channel number (roomed (rules_of setup) number
            (s.history ((rules_of setup).reads number)) (s.channels number)) s) self.new) }
        ensures readers { self.new.readers ≡ self.old.readers }
    {
        let table = self.channels[number].table;
        self.channels[number].make_room(&self.tables[table], self.cells)
    }

    /// Lets each channel that lags by the whole journal of a table take one change of it.
    fn make_room(&mut self, table: usize) -> Result<(), OutOfMemory>
        requires holds { Holds J.verdict self.old }
        requires there { table < length self.old.tables.items }
        ensures { OnOk result ((setup : Setup) (s : State)
            → AreRoutes J.verdict setup s self.old
            → AreRoutes J.verdict setup
            (with_room (rules_of setup) table s) self.new) }
    {
        for place in 0..self.count_readers(table) {
            let number = self.reader(table, place);
            self.make_room_of(number)?;
        }
        Ok(())
    }

    fn count_readers(&self, table: usize) -> usize
        requires { table < length self.now.readers.items }
        ensures { (numbers : Held ℕ Alloc) → slice_get self.now.readers.items table ≡ Some numbers
            → result ≡ length numbers.items }
    {
        self.readers[table].len()
    }

    fn reader(&self, table: usize, place: usize) -> usize
        requires { (numbers : Held ℕ Alloc)
            × (slice_get self.now.readers.items table ≡ Some numbers)
            × (place < length numbers.items) }
        ensures { (numbers : Held ℕ Alloc) → slice_get self.now.readers.items table ≡ Some numbers
            → slice_get numbers.items place ≡ Some result }
    {
        self.readers[table][place]
    }

    /// Changes a table, in which room is made first.
    fn append(&mut self, table: usize, change: Change) -> Result<(), OutOfMemory>
        requires holds { Holds J.verdict self.old }
        requires there { table < length self.old.tables.items }
        requires source { IsSome change.new → change.num < length self.old.sources.items }
        requires admitted { AdmitsAt table self.old change }
        ensures { OnOk result ((setup : Setup) (s : State)
            → AreRoutes J.verdict setup s self.old
            → AreRoutes J.verdict setup
            (added (rules_of setup) table change s) self.new) }
    {
        self.make_room(table)?;
        self.tables[table].append(change)
    }

    /// Changes a table by one change after another.
    pub fn append_all(&mut self, table: usize, changes: Vec<Change>) -> Result<(), OutOfMemory>
        requires holds { Holds J.verdict self.old }
        requires there { table < length self.old.tables.items }
        requires sources { All (λ (c : HeldChange).
            IsSome c.new → c.num < length self.old.sources.items) changes.items }
        requires admitted { All (AdmitsAt table self.old) changes.items }
        ensures { OnOk result ((setup : Setup) (s : State)
            → AreRoutes J.verdict setup s self.old
            → AreRoutes J.verdict setup
            (appended (rules_of setup) table (reverse changes.items) s) self.new) }
    {
        for change in changes {
            self.append(table, change)?;
        }
        Ok(())
    }

    // ---- steps of a channel

    /// Has a channel take so many changes, or all that there are.
    pub fn take(&mut self, number: usize, count: u32) -> Result<(), OutOfMemory>
        requires holds { Holds J.verdict self.old }
        requires there { number < length self.old.channels.items }
        ensures { OnOk result ((setup : Setup) (s : State)
            → AreRoutes J.verdict setup s self.old
            → AreRoutes J.verdict setup
            (if_open number (takes (rules_of setup) number count) s) self.new) }
    {
        let table = self.channels[number].table;
        self.channels[number].take_many(&self.tables[table], u64::from(count))
    }

    /// Has a channel that is up push its first mark, and tells whether there was one.
    fn push_one(&mut self, number: usize) -> Result<bool, OutOfMemory>
        requires holds { HoldsUp J.verdict number self.old }
        requires there { number < length self.old.channels.items }
        ensures pushes { OnOk result ((setup : Setup) (s : State)
            → AreRoutes J.verdict setup s self.old
            → AreRoutes J.verdict setup (push_at (rules_of setup) number s) self.new) }
        ensures marks { IfOk result (λ more. (setup : Setup) (s : State)
            → AreRoutes J.verdict setup s self.old
            → (more ≡ false → (s.channels number).marks ≡ [])
            × (more ≡ true → 1 ≤ length (s.channels number).marks)) }
    {
        let pushed = self.channels[number].push()?;
        match pushed {
            Pushed::Sent => {
                self.enter(number)?;
                Ok(true)
            }
            Pushed::Quiet => Ok(true),
            Pushed::Nothing => Ok(false),
        }
    }

    /// What a channel sent last comes to the table that it writes, where it writes one.
    fn enter(&mut self, number: usize) -> Result<(), OutOfMemory>
        requires holds { HasSent J.verdict number self.old }
        requires there { number < length self.old.channels.items }
        ensures { OnOk result ((setup : Setup) (s : State) (x : HeldSending)
            (earlier : List HeldItem) → AreRoutes J.verdict setup s self.old
            → (s.channels number).log ≡ Sent x ∷ earlier
            → AreRoutes J.verdict setup (arrived (rules_of setup)
            ((rules_of setup).target number) (change_of_sending (rules_of setup) x) s) self.new) }
    {
        match self.channels[number].target {
            Some(table) => self.enter_to(number, table),
            None => Ok(()),
        }
    }

    /// The same, where it writes this table.
    fn enter_to(&mut self, number: usize, table: usize) -> Result<(), OutOfMemory>
        requires holds { HasSent J.verdict number self.old }
        requires there { number < length self.old.channels.items }
        requires writes { (held : HeldChannel J) → slice_get self.old.channels.items number ≡ Some held
            → held.target ≡ Some table }
        ensures { OnOk result ((setup : Setup) (s : State) (x : HeldSending)
            (earlier : List HeldItem) → AreRoutes J.verdict setup s self.old
            → (s.channels number).log ≡ Sent x ∷ earlier
            → AreRoutes J.verdict setup (arrived (rules_of setup)
            (Some table) (change_of_sending (rules_of setup) x) s) self.new) }
    {
        let entered = self.channels[number].entered(&self.sources)?;
        match entered {
            Some(change) => self.append(table, change),
            None => Ok(()),
        }
    }

    /// Has a channel push so many marks, or all that there are.
    pub fn push(&mut self, number: usize, count: u32) -> Result<(), OutOfMemory>
        requires holds { Holds J.verdict self.old }
        requires there { number < length self.old.channels.items }
        ensures { OnOk result ((setup : Setup) (s : State)
            → AreRoutes J.verdict setup s self.old
            → AreRoutes J.verdict setup
            (if_open number (times count (push_at (rules_of setup) number)) s) self.new) }
    {
        match self.channels[number].cursor {
            Some(_) => self.push_some(number, count),
            None => Ok(()),
        }
    }

    /// Has a channel that is up push so many marks, or all that there are.
    fn push_some(&mut self, number: usize, count: u32) -> Result<(), OutOfMemory>
        requires holds { HoldsUp J.verdict number self.old }
        requires there { number < length self.old.channels.items }
        ensures { OnOk result ((setup : Setup) (s : State)
            → AreRoutes J.verdict setup s self.old
            → AreRoutes J.verdict setup
            (times count (push_at (rules_of setup) number) s) self.new) }
    {
        for _ in 0..count {
            if !self.push_one(number)? {
                return Ok(());
            }
        }
        Ok(())
    }

    // ---- signals

    /// Does what an operation of its protocol means for a channel.
    pub fn obey(&mut self, number: usize, mark: Mark) -> Result<(), OutOfMemory>
        requires holds { (setup : Setup) × (s : State) × AreRoutes J.verdict setup s self.old
            × Fits (signal_of mark) (is_open (s.channels number)) }
        requires there { number < length self.old.channels.items }
        ensures { OnOk result ((setup : Setup) (s : State)
            → AreRoutes J.verdict setup s self.old
            → Fits (signal_of mark) (is_open (s.channels number))
            → (t : State) × Obeys (signal_of mark) (rules_of setup) number s t
            × AreRoutes J.verdict setup t self.new) }
    {
        match mark {
            Mark::Stay => Ok(()),
            Mark::Up => self.rise(number),
            Mark::Down => self.fall(number),
            Mark::Refresh => self.renew(number),
        }
    }

    fn rise(&mut self, number: usize) -> Result<(), OutOfMemory>
        requires holds { (setup : Setup) × (s : State) × AreRoutes J.verdict setup s self.old
            × Fits (signal_of mark.Up) (is_open (s.channels number)) }
        requires there { number < length self.old.channels.items }
        ensures { OnOk result ((setup : Setup) (s : State)
            → AreRoutes J.verdict setup s self.old
            → Fits (signal_of mark.Up) (is_open (s.channels number))
            → (t : State) × Obeys (signal_of mark.Up) (rules_of setup) number s t
            × AreRoutes J.verdict setup t self.new) }
    {
        let table = self.channels[number].table;
        self.channels[number].rise(&self.tables[table])
    }

    fn renew(&mut self, number: usize) -> Result<(), OutOfMemory>
        requires holds { (setup : Setup) × (s : State) × AreRoutes J.verdict setup s self.old
            × Fits (signal_of mark.Refresh) (is_open (s.channels number)) }
        requires there { number < length self.old.channels.items }
        ensures { OnOk result ((setup : Setup) (s : State)
            → AreRoutes J.verdict setup s self.old
            → Fits (signal_of mark.Refresh) (is_open (s.channels number))
            → (t : State) × Obeys (signal_of mark.Refresh) (rules_of setup) number s t
            × AreRoutes J.verdict setup t self.new) }
    {
        let table = self.channels[number].table;
        self.channels[number].renew(&self.tables[table])
    }

    fn fall(&mut self, number: usize) -> Result<(), OutOfMemory>
        requires holds { (setup : Setup) × (s : State) × AreRoutes J.verdict setup s self.old
            × Fits (signal_of mark.Down) (is_open (s.channels number)) }
        requires there { number < length self.old.channels.items }
        ensures { OnOk result ((setup : Setup) (s : State)
            → AreRoutes J.verdict setup s self.old
            → Fits (signal_of mark.Down) (is_open (s.channels number))
            → (t : State) × Obeys (signal_of mark.Down) (rules_of setup) number s t
            × AreRoutes J.verdict setup t self.new) }
    {
        match self.channels[number].target {
            Some(table) => self.fall_from(number, table),
            None => {
                self.channels[number].fall()?;
                Ok(())
            }
        }
    }

    /// The same, where the channel writes this table.
    fn fall_from(&mut self, number: usize, table: usize) -> Result<(), OutOfMemory>
        requires holds { HoldsUp J.verdict number self.old }
        requires there { number < length self.old.channels.items }
        requires writes { (held : HeldChannel J) → slice_get self.old.channels.items number ≡ Some held
            → held.target ≡ Some table }
        ensures { OnOk result ((setup : Setup) (s : State)
            → AreRoutes J.verdict setup s self.old
            → let u = flushed (rules_of setup) table (standing_keys (s.channels number).log) s in
            AreRoutes J.verdict setup (with_channel number (closed (u.channels number)) u)
            self.new) }
    {
        let keys = self.channels[number].flush(self.alloc)?;
        self.withdraw(table, keys)
    }

    /// Withdraws keys from a table.
    fn withdraw(&mut self, table: usize, keys: Vec<Key>) -> Result<(), OutOfMemory>
        requires holds { Holds J.verdict self.old }
        requires there { table < length self.old.tables.items }
        requires admitted { All (λ k. AdmitsAt table self.old (withdrawal k)) keys.items }
        ensures { OnOk result ((setup : Setup) (s : State)
            → AreRoutes J.verdict setup s self.old
            → AreRoutes J.verdict setup
            (flushed (rules_of setup) table keys.items s) self.new) }
    {
        for key in keys {
            self.append(table, withdrawal(key))?;
        }
        Ok(())
    }

    // ---- the rounds of a sync

    /// Has a channel push until nothing is marked.
    fn push_out(&mut self, number: usize) -> Result<(), OutOfMemory>
        requires holds { HoldsUp J.verdict number self.old }
        requires there { number < length self.old.channels.items }
        ensures { OnOk result ((setup : Setup) (s : State)
            → AreRoutes J.verdict setup s self.old
            → AreRoutes J.verdict setup
            (pushed_out (rules_of setup) number s) self.new) }
    {
        while self.push_one(number)? {}
        Ok(())
    }

    /// A channel's turn: where it is up, it takes to the head of its table, and pushes until
    /// nothing is marked.
    fn settle(&mut self, number: usize) -> Result<(), OutOfMemory>
        requires holds { Holds J.verdict self.old }
        requires there { number < length self.old.channels.items }
        ensures { OnOk result ((setup : Setup) (s : State)
            → AreRoutes J.verdict setup s self.old
            → AreRoutes J.verdict setup
            (turned (rules_of setup) number s) self.new) }
    {
        match self.channels[number].cursor {
            Some(_) => self.settle_up(number),
            None => Ok(()),
        }
    }

    /// The turn of a channel that is up.
    fn settle_up(&mut self, number: usize) -> Result<(), OutOfMemory>
        requires holds { HoldsUp J.verdict number self.old }
        requires there { number < length self.old.channels.items }
        ensures { OnOk result ((setup : Setup) (s : State)
            → AreRoutes J.verdict setup s self.old → is_open (s.channels number) ≡ true
            → AreRoutes J.verdict setup
            (pushed_out (rules_of setup) number (taken_up (rules_of setup) number s)) self.new) }
    {
        self.take_up(number)?;
        self.push_out(number)
    }

    /// Has a channel that is up take to the head of its table.
    fn take_up(&mut self, number: usize) -> Result<(), OutOfMemory>
        requires holds { Holds J.verdict self.old }
        requires there { number < length self.old.channels.items }
        ensures { OnOk result ((setup : Setup) (s : State)
            → AreRoutes J.verdict setup s self.old → is_open (s.channels number) ≡ true
            → AreRoutes J.verdict setup (taken_up (rules_of setup) number s) self.new) }
    {
        let table = self.channels[number].table;
        self.channels[number].take_to_head(&self.tables[table])
    }

    /// Whether a channel, where it is up, is settled.
    fn is_settled_at(&self, number: usize) -> bool
        requires holds { Holds J.verdict self.now }
        requires there { number < length self.now.channels.items }
        ensures { (setup : Setup) (s : State) → AreRoutes J.verdict setup s self.now
            → IsTrue result ↔ (is_open (s.channels number) ≡ true
            → IsSettled (s.history ((rules_of setup).reads number)) (s.channels number)) }
    {
        let table = self.channels[number].table;
        self.channels[number].is_settled(self.tables[table].head())
    }

    /// Whether each channel that is up is settled.
    fn are_settled(&self) -> bool
        requires { Holds J.verdict self.now }
        ensures { (setup : Setup) (s : State) → AreRoutes J.verdict setup s self.now
            → IsTrue result ↔ AreSettled (rules_of setup) s }
    {
        for number in 0..self.channels.len() {
            if !self.is_settled_at(number) {
                return false;
            }
        }
        true
    }

    /// The turns of all channels, in their order.
    fn round(&mut self) -> Result<(), OutOfMemory>
        requires { Holds J.verdict self.old }
        ensures { OnOk result ((setup : Setup) (s : State)
            → AreRoutes J.verdict setup s self.old
            → AreRoutes J.verdict setup
            (round (rules_of setup) s) self.new) }
    {
        for number in 0..self.channels.len() {
            self.settle(number)?;
        }
        Ok(())
    }

    /// Rounds until each channel that is up is settled; answers how many.
    pub fn sync(&mut self) -> Result<usize, OutOfMemory>
        requires { Ends J.verdict self.old }
        ensures { IfOk result (λ rounds. (setup : Setup) (s : State)
            → AreRoutes J.verdict setup s self.old
            → HasRounds (rules_of setup) s rounds
            × AreRoutes J.verdict setup (times rounds (round (rules_of setup)) s) self.new) }
    {
        let mut rounds: usize = 0;
        while !self.are_settled() {
            self.round()?;
            rounds += 1;
        }
        Ok(rounds)
    }
}

/// The change that takes a key out.
fn withdrawal(key: Key) -> Change
    ensures { result ≡ withdrawal key }
{
    Change {
        net: key.net,
        num: key.num,
        new: None,
    }
}
