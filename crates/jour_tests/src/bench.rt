//! A writer with its only maker.
ghost use Rattle.std.specs.Prelude.{◌≡◌, ◌+◌, ◌<◌, ◌≤◌, ◌^◌, true, false, IfOk, IfSome};
ghost use Rattle.jour_rule.specs.Cells.{IsWhole};
ghost use Rattle.jour.specs.Seats.{journal, head_of, HasRoom};
ghost use Rattle.jour_tests.specs.Cursors.{AreClosed};

use bits_ip::OutOfMemory;
use jour::cursor::Cursor;
use jour::make::make;
use jour::maker::Maker;
use jour::pass::Pass;
use jour::room::Lag;
use jour::writer::Writer;
use jour_rule::buf::Buf;
use jour_rule::law::OfMakers;
use std::alloc::Global;

/// A cursor of the journals of these tests.
pub type Reader = Cursor<u64, OfMakers>;

/// A writer with its only maker, whose number is 0, and the pass of its journal.
#[derive(Drop)]
pub struct Bench {
    pub writer: Writer<u64, OfMakers>,
    pub maker: Maker<u64, OfMakers>,
    pub pass: Pass<u64, OfMakers>,
    ghost maker_here: { journal maker ≡ journal writer },
    ghost pass_here: { journal pass ≡ journal writer },
    ghost makers: { writer.1.seen.terms.opening ≡ writer.1.seen.terms.makers },
}

/// Why no entry was appended.
#[derive(Clone, Copy, Debug, PartialEq, Eq, Drop)]
pub enum Refused {
    Full(Lag),
    /// The words don't begin with their number, or the journal is at its end.
    NotEntry,
}

/// Whether these are the words of an entry.
pub fn is_whole(words: &[u64]) -> bool
    ensures { result ≡ true → IsWhole words.now }
{
    match words.first() {
        Some(first) => words.len() <= 256 && first % 65536 == words.len() as u64,
        None => false,
    }
}

/// The words of the entry at this position: one to nine, of which each tells the position.
pub fn words_of(position: u64) -> Buf {
    let mut words = Buf::new();
    let len = 1 + position % 9;
    words.push(position % (1 << 32) * 65536 + len);
    for _ in 1..len {
        if words.len() < 256 {
            words.push(position);
        }
    }
    words
}

/// Appends an entry to a journal whose law is that each entry is of one of its makers.
fn append(
    writer: &mut Writer<u64, OfMakers>,
    maker: &mut Maker<u64, OfMakers>,
    words: &[u64],
) -> u64
    requires here { journal maker.old ≡ journal writer.old }
    requires makers { writer.old.1.seen.terms.opening ≡ writer.old.1.seen.terms.makers }
    requires room { HasRoom writer.old.1 }
    requires words { IsWhole words.now }
    requires end { head_of writer.old.1 + 1 < 2 ^ 63 }
    ensures here { (journal writer.new ≡ journal writer.old)
        × (journal maker.new ≡ journal maker.old) }
{
    maker.number();
    writer.lawful();
    writer.append(maker, words)
}

impl Bench {
    /// A journal that starts at 0, with its cursors.
    pub fn open(
        alloc: Global,
        cells: u32,
        cursors: u32,
    ) -> Result<Option<(Bench, Vec<Reader>)>, OutOfMemory>
        requires { (0 < cells) × (cells ≤ 4096) × (cursors ≤ 512) }
        ensures { IfOk result (λ made.
            IfSome made (λ m. AreClosed (journal m.0.writer) m.1.items)) }
    {
        let (writer, cursors, mut makers, pass) = make::<u64, OfMakers>(
            alloc, cells, cursors, 1, 0, 1,
        )?;
        let Some(maker) = makers.pop() else {
            return Ok(None);
        };
        let bench = Bench {
            writer,
            maker,
            pass,
        };
        Ok(Some((bench, cursors)))
    }

    /// Appends an entry with these words, and answers its position.
    pub fn put(&mut self, words: &[u64]) -> Result<u64, Refused>
        ensures { journal self.new.writer ≡ journal self.old.writer }
    {
        if !is_whole(words) || self.writer.head() >= 1 << 62 {
            return Err(Refused::NotEntry);
        }
        if let Err(lag) = self.writer.room(&mut self.maker) {
            return Err(Refused::Full(lag));
        }
        Ok(append(&mut self.writer, &mut self.maker, words))
    }

    /// The last of some cursors, started at the head.
    pub fn start_one(&mut self, cursors: &mut Vec<Reader>) -> Option<Reader>
        requires { AreClosed (journal self.old.writer) cursors.old.items }
        ensures here { journal self.new.writer ≡ journal self.old.writer }
        ensures cursors { AreClosed (journal self.old.writer) cursors.new.items }
    {
        let mut cursor = last_of(&self.writer, cursors)?;
        self.writer.start_cursor(&mut cursor);
        Some(cursor)
    }

    /// The pass takes in what the maker has seen. Answers what it has seen then.
    pub fn share(&mut self) -> Result<u64, OutOfMemory>
        ensures { journal self.new.writer ≡ journal self.old.writer }
    {
        let other = self.maker.split()?;
        self.pass.join(other);
        Ok(self.pass.seen())
    }

    /// The maker takes in what the pass has seen. Answers what it has seen then.
    pub fn share_back(&mut self) -> Result<u64, OutOfMemory>
        ensures { journal self.new.writer ≡ journal self.old.writer }
    {
        let other = self.pass.split()?;
        self.maker.join(other);
        Ok(self.maker.seen())
    }
}

/// The last of some closed cursors.
pub fn last_of(writer: &Writer<u64, OfMakers>, cursors: &mut Vec<Reader>) -> Option<Reader>
    requires { AreClosed (journal writer.now) cursors.old.items }
    ensures cursors { AreClosed (journal writer.now) cursors.new.items }
    ensures last { IfSome result (λ c. (journal c.0 ≡ journal writer.now) × (c.1 ≡ false)) }
{
    let _ = writer;
    cursors.pop()
}
