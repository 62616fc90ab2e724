//! What the words of an entry say to the cursor that read them.
ghost use Rattle.std.specs.Prelude.{IfOk};
ghost use Rattle.table_shared.specs.Taken.{IsGiven, IsReadAs};

use crate::law::TableCursor;
use crate::laws::what_is_read_is_a_record;
use attrs::JEntry;
use bits_ip::OutOfMemory;
use jour_rule::buf::Buf;
use rec_words::laws::words_spell_one_entry;
use rec_words::{WordsFault, get_words};
use std::alloc::Global;

/// The record that the words say which `next` of the cursor gave: a real change of a source of its
/// port, where the entries up to the cursor's position leave the table, with the best route of its
/// net behind it. The words are always an entry's, so it refuses for want of memory alone.
pub fn read_record(alloc: Global, cursor: &TableCursor, words: &Buf) -> Result<JEntry, OutOfMemory>
    requires { IsGiven cursor.now.0.1 words.now }
    ensures { IfOk result (λ said. IsReadAs cursor.now.0.1 words.now said) }
{
    let _ = cursor;
    what_is_read_is_a_record();
    words_spell_one_entry();
    match get_words(alloc, words.words()) {
        Ok(said) => Ok(said),
        Err(WordsFault::Memory) => Err(OutOfMemory),
        Err(WordsFault::BadWords) => unreachable!(),
    }
}
