//! An entry that was read lately.
ghost use Rattle.std.specs.Prelude.{◌≡◌, IfOk, IfSome, option_copied};
ghost use Rattle.rec_words.specs.Entries.{Spells};

use attrs::{JEntry, Route};
use bits_ip::OutOfMemory;
use std::alloc::Global;
use std::marker::Model;

/// The words of an entry that was read lately, and what they say; of none at first.
#[derive(Drop)]
pub(crate) struct Slot {
    words: Vec<u64>,
    said: Option<JEntry>,
}

impl Model for Slot {
    ghost use Rattle.std.specs.Prelude.{List, ℕ, Option, IfSome};
    ghost use Rattle.attrs.specs.declared.journal.JEntry.{JEntry};
    ghost use Rattle.rec_words.specs.Entries.{Spells};

    ghost Value = { List ℕ × Option JEntry };

    ghost view = { λ slot. (slot.words.items, slot.said) };

    ghost invariant = { λ slot. IfSome slot.said (λ said. Spells said slot.words.items) };
}

impl Slot {
    pub(crate) fn empty(alloc: Global) -> Slot {
        Slot {
            words: Vec::new(alloc),
            said: None,
        }
    }

    /// What these words say, where they are the slot's.
    pub(crate) fn recall(&self, words: &[u64]) -> Result<Option<JEntry>, OutOfMemory>
        ensures { IfOk result (λ found. IfSome found (λ said. Spells said words.now)) }
    {
        if self.words.as_slice() != words {
            return Ok(None);
        }
        copy_said(&self.said)
    }

    /// The slot is that of these words from now on. Where memory is refused it is of none.
    pub(crate) fn keep(&mut self, words: &[u64], said: &JEntry) -> Result<(), OutOfMemory>
        requires { Spells said.now words.now }
    {
        self.said = None;
        self.words.clear();
        self.words.extend_from_slice(words)?;
        self.said = Some(copy_entry(said)?);
        Ok(())
    }
}

fn copy_said(said: &Option<JEntry>) -> Result<Option<JEntry>, OutOfMemory>
    ensures { IfOk result (λ copy. copy ≡ said.now) }
{
    match said {
        Some(said) => Ok(Some(copy_entry(said)?)),
        None => Ok(None),
    }
}

fn copy_entry(entry: &JEntry) -> Result<JEntry, OutOfMemory>
    ensures { IfOk result (λ copy. copy ≡ entry.now) }
{
    Ok(JEntry {
        net: entry.net,
        num: entry.num,
        new: copy_option(entry.new.as_ref())?,
        best: copy_option(entry.best.as_ref())?,
    })
}

fn copy_option(route: Option<&Route>) -> Result<Option<Route>, OutOfMemory>
    ensures { IfOk result (λ copy. copy ≡ option_copied route.entry) }
{
    match route {
        Some(route) => Ok(Some(route.copy()?)),
        None => Ok(None),
    }
}
