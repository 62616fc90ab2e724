//! What is remembered.
ghost use Rattle.std.specs.Prelude.{IfOk, IfSome};
ghost use Rattle.rec_words.specs.Entries.{Spells};
ghost use Rattle.table_shared.specs.Taken.{IsGiven, IsReadAs};

use crate::slot::Slot;
use attrs::JEntry;
use bits_ip::OutOfMemory;
use jour_rule::buf::Buf;
use rec_words::laws::words_spell_one_entry;
use std::alloc::Global;
use std::sync::Mutex;
use table_shared::laws::what_is_read_is_a_record;
use table_shared::{TableCursor, read_record};

/// Entries that were read lately, in the places that their positions leave.
#[derive(Drop)]
pub struct Memo {
    slots: Vec<Mutex<Slot>>,
}

impl Memo {
    /// One that remembers nothing.
    pub fn none(alloc: Global) -> Memo {
        Memo {
            slots: Vec::new(alloc),
        }
    }

    /// One that remembers so many entries.
    pub fn new(alloc: Global, count: usize) -> Result<Memo, OutOfMemory> {
        let mut slots = Vec::with_capacity(alloc, count)?;
        for _ in 0..count {
            slots.push(Mutex::new(Slot::empty(alloc)))?;
        }
        Ok(Memo { slots })
    }

    /// The record that the words say which `next` of the cursor gave, of the entry at this
    /// position, as `read_record` reads it. It is remembered, unless memory is refused or another
    /// thread is at its place just then.
    pub fn read(
        &self,
        alloc: Global,
        cursor: &TableCursor,
        words: &Buf,
        position: u64,
    ) -> Result<JEntry, OutOfMemory>
        requires { IsGiven cursor.now.0.1 words.now }
        ensures { IfOk result (λ said. IsReadAs cursor.now.0.1 words.now said) }
    {
        what_is_read_is_a_record();
        words_spell_one_entry();
        if let Some(said) = self.recall(words.words(), position)? {
            return Ok(said);
        }
        let said = read_record(alloc, cursor, words)?;
        self.keep(words.words(), position, &said);
        Ok(said)
    }

    fn slot(&self, position: u64) -> Option<&Mutex<Slot>> {
        let place = position.checked_rem(self.slots.len() as u64)?;
        self.slots.get(place as usize)
    }

    /// What the words say, where that is remembered.
    fn recall(&self, words: &[u64], position: u64) -> Result<Option<JEntry>, OutOfMemory>
        ensures { IfOk result (λ found. IfSome found (λ said. Spells said words.now)) }
    {
        match self.slot(position) {
            Some(slot) => recall_at(slot, words),
            None => Ok(None),
        }
    }

    fn keep(&self, words: &[u64], position: u64, said: &JEntry)
        requires { Spells said.now words.now }
    {
        if let Some(slot) = self.slot(position) {
            keep_at(slot, words, said);
        }
    }
}

fn recall_at(slot: &Mutex<Slot>, words: &[u64]) -> Result<Option<JEntry>, OutOfMemory>
    ensures { IfOk result (λ found. IfSome found (λ said. Spells said words.now)) }
{
    match slot.try_lock() {
        Some(slot) => slot.recall(words),
        None => Ok(None),
    }
}

fn keep_at(slot: &Mutex<Slot>, words: &[u64], said: &JEntry)
    requires { Spells said.now words.now }
{
    if let Some(mut slot) = slot.try_lock() {
        let _ = slot.keep(words, said);
    }
}
