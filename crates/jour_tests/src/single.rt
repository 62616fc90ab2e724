//! A journal with one maker and one cursor.
ghost use Rattle.std.specs.Prelude.{◌≡◌, ◌<◌, ◌≤◌};
ghost use Rattle.jour.specs.Seats.{journal};

use crate::bench::{Bench, Reader, Refused, last_of};
use bits_ip::OutOfMemory;
use jour_rule::buf::Buf;
use std::alloc::Global;
use std::process::Abort;

/// A journal with one maker and one cursor.
#[derive(Drop)]
pub struct Single {
    bench: Bench,
    cursor: Reader,
    started: bool,
    ghost here: { journal cursor.0 ≡ journal bench.writer },
    ghost started_is: { cursor.1 ≡ started },
}

impl Single {
    /// One that starts at 0, whose cursor is closed.
    pub fn open(rt: &impl Abort, alloc: Global, cells: u32) -> Result<Single, OutOfMemory>
        requires { (0 < cells) × (cells ≤ 4096) }
    {
        let Some((bench, mut cursors)) = Bench::open(alloc, cells, 1)? else {
            panic!(rt; "a journal without a maker")
        };
        let Some(cursor) = last_of(&bench.writer, &mut cursors) else {
            panic!(rt; "a journal without a cursor")
        };
        Ok(Single {
            bench,
            cursor,
            started: false,
        })
    }

    /// Appends an entry with these words, and answers its position.
    pub fn put(&mut self, words: &[u64]) -> Result<u64, Refused> {
        self.bench.put(words)
    }

    /// Starts the cursor, and answers where it stands. None if it is started already.
    pub fn start(&mut self) -> Option<u64> {
        if self.started {
            return None;
        }
        let at = self.bench.writer.start_cursor(&mut self.cursor);
        self.started = true;
        Some(at)
    }

    /// Starts the cursor where it stands, and answers where. None if it is started already.
    pub fn start_here(&mut self) -> Option<u64> {
        if self.started {
            return None;
        }
        self.cursor.start();
        self.started = true;
        Some(self.cursor.position())
    }

    /// Closes the cursor if it is started.
    pub fn close(&mut self) {
        if self.started {
            self.cursor.close();
            self.started = false;
        }
    }

    /// The cursor skips what the maker has seen. Answers where it stands, and none if it is
    /// started.
    pub fn skip(&mut self) -> Result<Option<u64>, OutOfMemory> {
        if self.started {
            return Ok(None);
        }
        let pass = self.bench.maker.split()?;
        Ok(Some(self.cursor.skip(pass)))
    }

    /// The cursor meets the journal's pass. Answers the head that it knows then.
    pub fn meet(&mut self) -> u64 {
        self.cursor.meet(&mut self.bench.pass);
        self.cursor.known()
    }

    /// The writer tells the cursor of the whole list. Answers the head.
    pub fn tell(&mut self) -> u64 {
        self.bench.writer.tell_cursor(&mut self.cursor)
    }

    /// What passes have seen that the writer, the maker, the journal's pass and the cursor give.
    pub fn given(&mut self) -> Result<[u64; 4], OutOfMemory> {
        let writer = self.bench.writer.split()?.seen();
        let maker = self.bench.maker.split()?.seen();
        let pass = self.bench.pass.split()?.seen();
        let cursor = self.cursor.pass()?.seen();
        Ok([writer, maker, pass, cursor])
    }

    /// The journal's pass loads the head. Answers that, and what the pass has seen.
    pub fn learn(&mut self) -> (u64, u64) {
        let head = self.bench.pass.learn();
        (head, self.bench.pass.seen())
    }

    /// The pass takes in what the maker has seen. Answers what it has seen then.
    pub fn share(&mut self) -> Result<u64, OutOfMemory> {
        self.bench.share()
    }

    /// The maker takes in what the pass has seen. Answers what it has seen then.
    pub fn share_back(&mut self) -> Result<u64, OutOfMemory> {
        self.bench.share_back()
    }

    /// The next entry, and the cursor stays.
    pub fn next(&mut self, buf: &mut Buf) -> Option<u64> {
        self.cursor.next(buf)
    }

    /// Takes the next entry, and answers its position. Its words are then in `buf`.
    pub fn take(&mut self, buf: &mut Buf) -> Option<u64> {
        let at = self.cursor.next(buf)?;
        self.cursor.advance();
        Some(at)
    }

    /// The cursor's position and the head that it knows.
    pub fn place(&self) -> (u64, u64) {
        (self.cursor.position(), self.cursor.known())
    }
}
