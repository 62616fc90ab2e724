//! How a channel reads its table.
ghost use Rattle.std.specs.Prelude.{◌≡◌, ◌+◌, false, true, IfOk};
ghost use Rattle.jour_rule.specs.Moves.{position_of};
ghost use Rattle.jour.specs.Seats.{known};
ghost use Rattle.export_lock.specs.Kept.{GoesOn, IsHeld, LeavesFlush, ReadsOn};

use crate::state::ExportState;
use attrs::Judge;
use bits_ip::OutOfMemory;
use entry_memo::Memo;
use export_core::laws::entries_are_told;
use jour_rule::buf::Buf;
use rec_words::laws::words_spell_one_entry;
use std::alloc::Global;

impl<J: Judge> ExportState<J> {
    /// Takes the next entry of the table's journal, and tells whether there was one. A channel that
    /// is down takes none, and one that is up where it stands at the head that it loaded. Where
    /// memory is refused, the entry is left for the next call. What its words say comes from the memo
    /// where that remembers them.
    pub fn take_turn(&mut self, alloc: Global, memo: &Memo) -> Result<bool, OutOfMemory>
        requires held { IsHeld J.verdict self.old }
        ensures goes { GoesOn J.verdict self.old self.new }
        ensures flush { LeavesFlush self.old self.new }
        ensures took { IfOk result (λ took. took ≡ true
            → self.new.exporter.position ≡ self.old.exporter.position + 1) }
        ensures none { IfOk result (λ took. took ≡ false
            → (self.new.exporter ≡ self.old.exporter) × (self.old.cursor.1 ≡ true
            → known self.new.cursor.0.1 ≡ position_of self.new.cursor.0.1.role)) }
        ensures reads { ReadsOn self.old.cursor self.new.cursor }
        ensures feed { self.new.exporter.feed ≡ self.old.exporter.feed }
        ensures log { self.new.exporter.log ≡ self.old.exporter.log }
        ensures marks { self.new.marks ≡ self.old.marks }
    {
        entries_are_told();
        words_spell_one_entry();
        if !self.cursor.is_started() {
            return Ok(false);
        }
        let mut buf = Buf::new();
        let Some(at) = self.cursor.next(&mut buf) else {
            return Ok(false);
        };
        let entry = memo.read(alloc, &self.cursor, &buf, at)?;
        self.exporter.take(at, &entry)?;
        self.cursor.advance();
        Ok(true)
    }
}
