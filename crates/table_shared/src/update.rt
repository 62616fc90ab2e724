//! How a change becomes an entry.
ghost use Rattle.std.specs.Prelude.{◌≡◌, ◌+◌, ◌<◌, ◌≤◌, ◌^◌, [], ◌∷◌, IfErr, IfOk};
ghost use mathlib.Core.List.{IsPrefix};
ghost use Rattle.attrs.specs.History.{after};
ghost use Rattle.attrs.specs.Table.{IsBestOf, route_in};
ghost use Rattle.jour.specs.Seats.{HasRoom, front, head_of, journal, known, number_of, own};
ghost use Rattle.table_shared.specs.Answers.{Differs, IsAboveAll, IsAboveKnown, IsDone, IsEntered, IsFault, MayMake};
ghost use Rattle.table_shared.specs.Kept.{IsKept};
ghost use Rattle.table_shared.specs.Prepared.{AreCopies, HasMemory};

use crate::answers::{Done, UpdateFault};
use crate::desk::{Desk, Prepared};
use crate::law::TableMaker;
use attrs::{Change, Route};
use bits_ip::OutOfMemory;
use jour_rule::buf::Buf;
use rec_words::put_words;
use rib::Prospect;

impl Desk {
    /// Makes the change, where it is real. All memory is taken before the first word is stored, and
    /// before the maker is told anything.
    pub(crate) fn update(
        &mut self,
        maker: &mut TableMaker,
        change: &Change,
    ) -> Result<Done, UpdateFault>
        requires kept { IsKept (journal maker.old) self.old }
        requires change { MayMake maker.old.1 change.now }
        ensures kept { IsKept (journal maker.old) self.new }
        ensures here { (journal maker.new ≡ journal maker.old)
            × (number_of maker.new.1.role ≡ number_of maker.old.1.role) }
        ensures done { IfOk result (IsDone change.now maker.old.1 maker.new.1) }
        ensures fault { IfErr result (IsFault change.now maker.old.1 maker.new.1) }
        ensures above { IfOk result (IsAboveAll maker.old.1) }
        ensures known { IfOk result (IsAboveKnown maker.old.1 maker.new.1) }
        ensures least { known maker.old.1 ≤ known maker.new.1 }
        ensures prefix { IsPrefix (front maker.old.1) (front maker.new.1) }
    {
        match self.rib.prospect(change) {
            Ok(Prospect::Same) => {
                let at = self.writer.tell_maker(maker);
                Ok(Done::Same { at })
            }
            Ok(Prospect::Changes { best }) => self.make(maker, change, best),
            Err(OutOfMemory) => Err(UpdateFault::Memory),
        }
    }

    /// Makes a real change. `best` is the best of its net behind it.
    fn make(
        &mut self,
        maker: &mut TableMaker,
        change: &Change,
        best: Option<Route>,
    ) -> Result<Done, UpdateFault>
        requires kept { IsKept (journal maker.old) self.old }
        requires change { MayMake maker.old.1 change.now }
        requires real { Differs change.now (route_in self.old.rib.rows) }
        requires best { IsBestOf
            (after (route_in self.old.rib.rows) (change.now ∷ []))
            change.now.net
            best }
        ensures kept { IsKept (journal maker.old) self.new }
        ensures here { (journal maker.new ≡ journal maker.old)
            × (number_of maker.new.1.role ≡ number_of maker.old.1.role) }
        ensures done { IfOk result (IsDone change.now maker.old.1 maker.new.1) }
        ensures fault { IfErr result (IsFault change.now maker.old.1 maker.new.1) }
        ensures above { IfOk result (IsAboveAll maker.old.1) }
        ensures known { IfOk result (IsAboveKnown maker.old.1 maker.new.1) }
        ensures least { known maker.old.1 ≤ known maker.new.1 }
        ensures prefix { IsPrefix (front maker.old.1) (front maker.new.1) }
    {
        let Ok(prepared) = self.prepare(change, best) else {
            return Err(UpdateFault::Memory);
        };
        self.enter(maker, prepared)
    }

    /// Makes a real change for which there is memory.
    fn enter(&mut self, maker: &mut TableMaker, prepared: Prepared) -> Result<Done, UpdateFault>
        requires kept { IsKept (journal maker.old) self.old }
        requires change { MayMake maker.old.1 prepared.change }
        requires copies { AreCopies self.old.rib.rows prepared.change prepared }
        requires memory { HasMemory self.old prepared.change }
        requires real { Differs prepared.change (route_in self.old.rib.rows) }
        ensures kept { IsKept (journal maker.old) self.new }
        ensures here { (journal maker.new ≡ journal maker.old)
            × (number_of maker.new.1.role ≡ number_of maker.old.1.role) }
        ensures done { IfOk result (IsDone prepared.change maker.old.1 maker.new.1) }
        ensures fault { IfErr result (IsFault prepared.change maker.old.1 maker.new.1) }
        ensures above { IfOk result (IsAboveAll maker.old.1) }
        ensures known { IfOk result (IsAboveKnown maker.old.1 maker.new.1) }
        ensures least { known maker.old.1 ≤ known maker.new.1 }
        ensures prefix { IsPrefix (front maker.old.1) (front maker.new.1) }
    {
        let head = self.writer.tell_maker(maker);
        if head >= (1 << 63) - 1 {
            return Err(UpdateFault::Ended { head });
        }
        if let Err(lag) = self.writer.room(maker) {
            return Err(UpdateFault::Full {
                cursor: lag.cursor,
                at: lag.at,
                head: lag.head,
            });
        }
        Ok(Done::At(self.append(maker, prepared)))
    }

    /// Makes the change for which there is memory and a free cell.
    fn append(&mut self, maker: &mut TableMaker, prepared: Prepared) -> u64
        requires kept { IsKept (journal maker.old) self.old }
        requires change { MayMake maker.old.1 prepared.change }
        requires copies { AreCopies self.old.rib.rows prepared.change prepared }
        requires memory { HasMemory self.old prepared.change }
        requires room { HasRoom self.old.writer.1 }
        requires told { front maker.old.1 ≡ front self.old.writer.1 }
        requires below { head_of maker.old.1 + 1 < 2 ^ 63 }
        requires real { Differs prepared.change (route_in self.old.rib.rows) }
        ensures kept { IsKept (journal maker.old) self.new }
        ensures here { (journal maker.new ≡ journal maker.old)
            × (number_of maker.new.1.role ≡ number_of maker.old.1.role) }
        ensures entered { IsEntered prepared.change maker.old.1 maker.new.1 result }
        ensures above { head_of maker.old.1 < result }
        ensures known { result ≡ known maker.new.1 }
        ensures prefix { IsPrefix (front maker.old.1) (front maker.new.1) }
    {
        let Prepared { said, change } = prepared;
        let mut buf = Buf::new();
        put_words(&said, &mut buf);
        let position = self.writer.append(maker, buf.words());
        self.rib.change(change);
        self.records.push_reserved(said);
        self.ports.push_reserved(maker.number());
        position
    }
}
