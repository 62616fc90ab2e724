//! The writer opens a journal and gives out the other seats.
ghost use Rattle.std.specs.Prelude.{◌≡◌, ◌+◌, ◌^◌, ◌<◌, ◌≤◌, false, [], IfOk};
ghost use Rattle.jour_rule.specs.Moves.{position_of};
ghost use Rattle.jour.specs.Seats.{HasTerms, journal, front, known, number_of, makers_of, cursors_of};

use crate::cursor::Cursor;
use crate::maker::Maker;
use crate::pass::Pass;
use crate::writer::Writer;
use bits_ip::OutOfMemory;
use jour_rule::law::Law;
use jour_rule::steps::{copy, give_cursor, give_maker, open};
use jour_rule::views::Terms;
use std::alloc::Global;
use std::sync::Arc;

impl<O, L: Law<O>> Writer<O, L> {
    /// The writer of a journal with an empty list.
    pub(crate) fn open(
        alloc: Global,
        cells: u32,
        cursors: u32,
        makers: u32,
        start: u64,
        opening: O,
    ) -> Result<Writer<O, L>, OutOfMemory>
    where
        O: Drop,
        requires { (0 < cells) × (cells ≤ 4096) × (cursors ≤ 512) }
        ensures terms { IfOk result (λ w. HasTerms cells cursors makers start opening w.1) }
        ensures list { IfOk result (λ w. (front w.1 ≡ []) × (known w.1 ≡ start)
            × (makers_of w.1.role ≡ 0) × (cursors_of w.1.role ≡ 0)) }
    {
        let terms = Terms {
            start,
            cells: u64::from(cells),
            cursors: u64::from(cursors),
            makers: u64::from(makers),
            opening,
        };
        let (table, place) = open(alloc, &terms)?;
        let board = Arc::new(alloc, table)?;
        let lows = Vec::from_elem(alloc, start, cursors as usize)?;
        Ok(Writer {
            board,
            place,
            head: start,
            cells: u64::from(cells),
            makers: 0,
            lows,
        })
    }

    /// The next maker.
    pub(crate) fn give_maker(&mut self) -> Result<Maker<O, L>, OutOfMemory>
        requires count { (makers_of self.old.1.role < self.old.1.seen.terms.makers)
            × (self.old.1.seen.terms.makers < 2 ^ 32) }
        ensures same { (journal self.new ≡ journal self.old)
            × (front self.new.1 ≡ front self.old.1) }
        ensures new { IfOk result (λ m. (journal m ≡ journal self.old)
            × (front m.1 ≡ front self.old.1)
            × (number_of m.1.role ≡ makers_of self.old.1.role)) }
        ensures count { IfOk result (λ m.
            makers_of self.new.1.role ≡ makers_of self.old.1.role + 1) }
    {
        let board = Arc::try_clone(&self.board)?;
        let place = give_maker(&self.board.shared, &mut self.place);
        let number = self.makers;
        self.makers = number + 1;
        let seen = self.head;
        Ok(Maker {
            board,
            place,
            number,
            seen,
        })
    }

    /// The next cursor, closed.
    pub(crate) fn give_cursor(&mut self, number: u32) -> Result<Cursor<O, L>, OutOfMemory>
        requires count { (cursors_of self.old.1.role ≡ number)
            × (number < self.old.1.seen.terms.cursors) }
        requires fresh { (front self.old.1 ≡ [])
            × (known self.old.1 ≡ self.old.1.seen.terms.start) }
        ensures same { (journal self.new ≡ journal self.old) × (front self.new.1 ≡ [])
            × (known self.new.1 ≡ self.old.1.seen.terms.start)
            × (makers_of self.new.1.role ≡ makers_of self.old.1.role) }
        ensures new { IfOk result (λ c. (journal c.0 ≡ journal self.old)
            × (number_of c.0.1.role ≡ number)
            × (position_of c.0.1.role ≡ self.old.1.seen.terms.start) × (c.1 ≡ false)) }
        ensures unread { IfOk result (λ c. front c.0.1 ≡ []) }
        ensures count { IfOk result (λ c. cursors_of self.new.1.role ≡ number + 1) }
    {
        let cursors = self.cursors();
        let board = Arc::try_clone(&self.board)?;
        let place = give_cursor(&self.board.shared, &mut self.place);
        Ok(Cursor {
            board,
            place,
            number,
            cells: self.cells,
            cursors,
            position: self.head,
            known: self.head,
            seen: self.head,
            started: false,
        })
    }

    /// A pass that has seen the whole list. It refuses for want of memory alone.
    pub fn split(&mut self) -> Result<Pass<O, L>, OutOfMemory>
        ensures same { self.new ≡ self.old }
        ensures new { IfOk result (λ p. (journal p ≡ journal self.old)
            × (front p.1 ≡ front self.old.1) × (known p.1 ≡ known self.old.1)) }
    {
        let board = Arc::try_clone(&self.board)?;
        let place = copy(&self.board.shared, &mut self.place);
        let seen = self.head;
        Ok(Pass { board, place, seen })
    }
}
