//! How a channel is fed from its table.
ghost use Rattle.std.specs.Prelude.{◌≡◌, ◌≤◌, false, true, IfOk, OnErr, is_some};
ghost use Rattle.std.specs.declared.result.Result.TheVariants.{Ok};
ghost use Rattle.export_core.specs.declared.floors.FeedState.TheVariants.{From};
ghost use Rattle.jour.specs.Seats.{journal};
ghost use Rattle.export_lock.specs.Feeds.{FeedsPart, is_feeding};
ghost use Rattle.export_lock.specs.Kept.{GoesOn, IsHeld, LeavesFlush};

use crate::state::ExportState;
use attrs::Judge;
use bits_ip::{OutOfMemory, Prefix};
use export_core::FeedState;
use export_core::laws::rows_tell_best;
use rec_words::laws::words_spell_one_entry;
use std::sync::Wait;
use table_shared::Table;

impl<J: Judge> ExportState<J> {
    /// Reads the next nets of the table for the feed that goes on, at most so many, as they stand
    /// at the head, and tells whether the feed still goes on. A channel that is down is not fed,
    /// nor is one that withdraws what stands, or whose feed is done. Where memory is refused, they
    /// are left for the next call.
    pub fn feed_turn<R: Wait>(
        &mut self,
        rt: &R,
        table: &Table,
        max: u32,
    ) -> Result<bool, OutOfMemory>
        requires held { IsHeld J.verdict self.old }
        requires here { journal self.old.cursor.0 ≡ table.now }
        requires some { 1 ≤ max }
        ensures goes { GoesOn J.verdict self.old self.new }
        ensures flush { LeavesFlush self.old self.new }
        ensures feeds { IfOk result
            (λ _. is_feeding self.old ≡ true → FeedsPart max self.old self.new) }
        ensures rests { is_feeding self.old ≡ false
            → (result ≡ Ok false) × (self.new ≡ self.old) }
        ensures more { IfOk result (λ more. more ≡ is_feeding self.new) }
        ensures refused { OnErr result (self.new.exporter ≡ self.old.exporter) }
        ensures log { self.new.exporter.log ≡ self.old.exporter.log }
        ensures marks { self.new.marks ≡ self.old.marks }
    {
        if !self.is_running() {
            return Ok(false);
        }
        match self.exporter.feed_from() {
            FeedState::Done => Ok(false),
            FeedState::From(from) => self.feed_part(rt, table, from, max),
        }
    }

    /// The same where the feed goes on from this net.
    fn feed_part<R: Wait>(
        &mut self,
        rt: &R,
        table: &Table,
        from: Option<Prefix>,
        max: u32,
    ) -> Result<bool, OutOfMemory>
        requires held { IsHeld J.verdict self.old }
        requires here { journal self.old.cursor.0 ≡ table.now }
        requires some { 1 ≤ max }
        requires up { self.old.cursor.1 ≡ true }
        requires stays { self.old.exporter.flushing ≡ false }
        requires from { self.old.exporter.feed ≡ From from }
        ensures goes { GoesOn J.verdict self.old self.new }
        ensures flush { LeavesFlush self.old self.new }
        ensures feeds { IfOk result (λ _. FeedsPart max self.old self.new) }
        ensures more { IfOk result (λ more. more ≡ is_feeding self.new) }
        ensures refused { OnErr result (self.new.exporter ≡ self.old.exporter) }
        ensures log { self.new.exporter.log ≡ self.old.exporter.log }
        ensures marks { self.new.marks ≡ self.old.marks }
    {
        rows_tell_best();
        words_spell_one_entry();
        let _ = self.cursor.position();
        let chunk = table.feed(rt, &mut self.cursor, from.as_ref(), max)?;
        self.exporter.fed(&chunk)?;
        Ok(chunk.upto.is_some())
    }
}
