//! How a pipe's direction comes up, goes down and sends all anew.
ghost use Rattle.std.specs.Prelude.{◌≡◌, ◌++◌, List, map, true, false, IfOk, OnErr};
ghost use Rattle.core_machine.specs.Rules.{Fall, Renew};
ghost use Rattle.core_setup.specs.Protocols.{signal_of};
ghost use Rattle.export_core.specs.declared.log.Key.{Key};
ghost use Rattle.jour.specs.Seats.{head_of, journal, number_of, own};
ghost use Rattle.phase_legal.specs.Stamps.{items_of, mark_words};
ghost use Rattle.phase_legal.specs.Turns.{words_in};
ghost use Rattle.export_lock.specs.Kept.{GoesOn, MayMark};
ghost use Rattle.export_lock.specs.Flushes.{IsWithdrawn};
ghost use Rattle.export_lock.specs.Lanes.{IsLane, LaneTerms};
ghost use Rattle.export_lock.specs.MarkTurns.{HasMarked, IsUnmarked, MayMarkLane, withdrawn_behind};

use crate::lane::PipeLane;
use crate::state::ExportState;
use attrs::Judge;
use bits_ip::OutOfMemory;
use import_core::Mark;
use import_lock::Stamp;
use std::sync::Wait;
use table_shared::Table;

impl<J: Judge> ExportState<J> {
    /// The channel, which is a pipe's direction, takes a mark under its own stamp.
    fn mark_alone<R: Wait>(
        &mut self,
        rt: &R,
        table: &Table,
        stamp: &mut Stamp,
        mark: Mark,
    ) -> Result<(), OutOfMemory>
        requires may { MayMark J.verdict true table.now (signal_of mark) stamp.old self.old }
        requires withdrawn { signal_of mark ≡ Fall → IsWithdrawn self.old }
        requires running { signal_of mark ≡ Renew → self.old.exporter.flushing ≡ false }
        ensures goes { GoesOn J.verdict self.old self.new }
        ensures marked { IfOk result (λ _. HasMarked (signal_of mark) self.old self.new) }
        ensures refused { OnErr result (IsUnmarked self.old self.new
            × (own stamp.new.1 ≡ own stamp.old.1)) }
        ensures stamp { (journal stamp.new ≡ journal stamp.old)
            × (number_of stamp.new.1.role ≡ number_of stamp.old.1.role) }
        ensures said { IfOk result (λ _. words_in (own stamp.new.1)
            ≡ words_in (own stamp.old.1)
            ++ map mark_words (items_of (signal_of mark) (head_of self.new.cursor.0.1))) }
    {
        self.marks.lawful();
        self.marks.tell_maker(stamp);
        match mark {
            Mark::Stay => Ok(()),
            Mark::Up => {
                let head = table.start_cursor(rt, &mut self.cursor);
                self.rise(stamp, head)
            }
            Mark::Down => self.fall(stamp),
            Mark::Refresh => self.renew(stamp),
        }
    }
}

impl<J: Judge> PipeLane<J> {
    /// The direction takes a mark, which is recorded under its own stamp: it comes up at the head
    /// of the table that it reads, goes down, or is to send all anew. It goes down once
    /// `flush_turn` has answered `Nothing`, under the same hold of the lock. What its port has made
    /// stays. Where memory is refused, nothing is recorded, and the cursor alone may have seen
    /// more.
    pub fn mark_turn<R: Wait>(
        &mut self,
        rt: &R,
        table: &Table,
        stamp: &mut Stamp,
        mark: Mark,
    ) -> Result<(), OutOfMemory>
        requires may { MayMarkLane J.verdict table.now (signal_of mark) stamp.old self.old }
        ensures kept { IfOk result (λ _. (key : LaneTerms) (done : List Key)
            → IsLane J.verdict done key self.old
            → IsLane J.verdict (withdrawn_behind (signal_of mark) done) key self.new) }
        ensures goes { GoesOn J.verdict self.old.state self.new.state }
        ensures marked { IfOk result
            (λ _. HasMarked (signal_of mark) self.old.state self.new.state) }
        ensures port { self.new.port ≡ self.old.port }
        ensures stamp { (journal stamp.new ≡ journal stamp.old)
            × (number_of stamp.new.1.role ≡ number_of stamp.old.1.role) }
        ensures said { IfOk result (λ _. words_in (own stamp.new.1)
            ≡ words_in (own stamp.old.1)
            ++ map mark_words (items_of (signal_of mark) (head_of self.new.state.cursor.0.1))) }
        ensures refused { OnErr result (IsUnmarked self.old.state self.new.state
            × (own stamp.new.1 ≡ own stamp.old.1)
            × ((key : LaneTerms) (done : List Key) → IsLane J.verdict done key self.old
            → IsLane J.verdict done key self.new)) }
    {
        let _ = self.state.cursor.position();
        self.state.mark_alone(rt, table, stamp, mark)
    }
}
