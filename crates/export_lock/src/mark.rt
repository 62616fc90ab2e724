//! How a channel comes up, goes down and sends all anew.
ghost use Rattle.std.specs.Prelude.{◌≡◌, ◌+◌, ◌<◌, ◌^◌, ◌++◌, ◌∷◌, [], Bool, true, false, IfOk, OnErr};
ghost use Rattle.atomic_table.specs.Seated.{TableId};
ghost use Rattle.core_machine.specs.Rules.{Rise, Fall, Renew};
ghost use Rattle.export_core.specs.declared.log.LogItem.TheVariants.{Up, Down, Reload};
ghost use Rattle.export_core.specs.Standing.{is_open};
ghost use Rattle.jour_rule.specs.Cells.{IsWhole};
ghost use Rattle.jour_rule.specs.Moves.{entry};
ghost use Rattle.jour_rule.specs.declared.views.View.{View as Seat};
ghost use Rattle.jour.specs.Seats.{front, head_of, journal, number_of, own};
ghost use Rattle.table_shared.specs.Opening.{TableOpening};
ghost use Rattle.phase_legal.specs.Stamps.{mark_words};
ghost use Rattle.phase_legal.specs.Turns.{words_in};
ghost use Rattle.export_lock.specs.Kept.{GoesOn, IsReady};
ghost use Rattle.export_lock.specs.MarkTurns.{HasMarked, HasStarted, IsUnmarked, Starts, with_cursor};

use crate::state::ExportState;
use attrs::Judge;
use bits_ip::OutOfMemory;
use export_core::laws::positions_are_told;
use import_core::Mark;
use import_lock::{Marks, Stamp, TakesMarks};
use std::sync::Wait;
use table_shared::{Port, Table};

/// Records a mark under the stamp, which has seen all marks.
fn note(marks: &mut Marks, stamp: &mut Stamp, words: &[u64])
    requires here { journal stamp.old ≡ journal marks.old }
    requires told { front stamp.old.1 ≡ front marks.old.1 }
    requires number { number_of stamp.old.1.role ≡ 0 }
    requires makers { marks.old.1.seen.terms.opening ≡ 1 }
    requires cursors { marks.old.1.seen.terms.cursors ≡ 0 }
    requires end { head_of marks.old.1 + 1 < 2 ^ 63 }
    requires words { IsWhole words.now }
    ensures here { (journal marks.new ≡ journal marks.old) × (journal stamp.new ≡ journal stamp.old)
        × (number_of stamp.new.1.role ≡ number_of stamp.old.1.role) }
    ensures list { front marks.new.1 ≡ front marks.old.1 ++ entry 0 words.now ∷ [] }
    ensures said { words_in (own stamp.new.1) ≡ words_in (own stamp.old.1) ++ words.now ∷ [] }
{
    marks.lawful();
    marks.append(stamp, words);
}

impl<J: Judge> ExportState<J> {
    /// The channel comes up at the head at which its cursor was started.
    pub(crate) fn rise(&mut self, stamp: &mut Stamp, head: u64) -> Result<(), OutOfMemory>
        requires started { HasStarted J.verdict head stamp.old self.old }
        ensures goes { (before : (TableId × Seat TableOpening) × Bool)
            → Starts head before self.old.cursor
            → GoesOn J.verdict (with_cursor before self.old) self.new }
        ensures marked { IfOk result (λ _. HasMarked Rise self.old self.new) }
        ensures refused { OnErr result (IsUnmarked self.old self.new × (stamp.new ≡ stamp.old)) }
        ensures cursor { self.new.cursor.0 ≡ self.old.cursor.0 }
        ensures stamp { (journal stamp.new ≡ journal stamp.old)
            × (number_of stamp.new.1.role ≡ number_of stamp.old.1.role) }
        ensures said { IfOk result (λ _. words_in (own stamp.new.1)
            ≡ words_in (own stamp.old.1) ++ mark_words (Up head) ∷ []) }
    {
        positions_are_told();
        let _ = self.cursor.position();
        match self.exporter.up(head) {
            Ok(()) => {
                let words = [3, 1, head];
                note(&mut self.marks, stamp, &words);
                Ok(())
            }
            Err(_) => {
                self.cursor.close();
                Err(OutOfMemory)
            }
        }
    }

    /// The channel goes down. A pipe's direction has withdrawn all that stood.
    pub(crate) fn fall(&mut self, stamp: &mut Stamp) -> Result<(), OutOfMemory>
        requires ready { IsReady J.verdict stamp.old self.old }
        requires up { is_open self.old.exporter.log ≡ true }
        requires withdrawn { self.old.exporter.spec.every ≡ true → self.old.exporter.left ≡ [] }
        ensures goes { GoesOn J.verdict self.old self.new }
        ensures marked { IfOk result (λ _. HasMarked Fall self.old self.new) }
        ensures refused { OnErr result ((self.new ≡ self.old) × (stamp.new ≡ stamp.old)) }
        ensures stamp { (journal stamp.new ≡ journal stamp.old)
            × (number_of stamp.new.1.role ≡ number_of stamp.old.1.role) }
        ensures said { IfOk result (λ _. words_in (own stamp.new.1)
            ≡ words_in (own stamp.old.1) ++ mark_words Down ∷ []) }
    {
        self.exporter.down()?;
        self.cursor.close();
        let words = [2, 2];
        note(&mut self.marks, stamp, &words);
        Ok(())
    }

    /// The channel is to send all anew. Nothing of a pipe's direction is being withdrawn.
    pub(crate) fn renew(&mut self, stamp: &mut Stamp) -> Result<(), OutOfMemory>
        requires ready { IsReady J.verdict stamp.old self.old }
        requires up { is_open self.old.exporter.log ≡ true }
        requires running { self.old.exporter.flushing ≡ false }
        ensures goes { GoesOn J.verdict self.old self.new }
        ensures marked { IfOk result (λ _. HasMarked Renew self.old self.new) }
        ensures refused { OnErr result ((self.new ≡ self.old) × (stamp.new ≡ stamp.old)) }
        ensures stamp { (journal stamp.new ≡ journal stamp.old)
            × (number_of stamp.new.1.role ≡ number_of stamp.old.1.role) }
        ensures said { IfOk result (λ _. words_in (own stamp.new.1)
            ≡ words_in (own stamp.old.1) ++ mark_words Reload ∷ []) }
    {
        self.exporter.refresh()?;
        let words = [2, 3];
        note(&mut self.marks, stamp, &words);
        Ok(())
    }
}

impl<J: Judge> TakesMarks for ExportState<J> {
    ghost use Rattle.export_lock.specs.Kept.{Goes, MayMark};

    ghost may = { λ table signal stamp state. MayMark J.verdict false table signal stamp state };

    ghost goes = { λ old new. Goes J.verdict old new };

    fn mark_turn<R: Wait>(
        &mut self,
        rt: &R,
        table: &Table,
        stamp: &mut Stamp,
        port: &mut Port,
        mark: Mark,
    ) -> Result<(), OutOfMemory> {
        self.marks.lawful();
        self.marks.tell_maker(stamp);
        match mark {
            Mark::Stay => Ok(()),
            Mark::Up => {
                let head = table.start(rt, &mut self.cursor, port);
                self.rise(stamp, head)
            }
            Mark::Down => self.fall(stamp),
            Mark::Refresh => self.renew(stamp),
        }
    }
}
