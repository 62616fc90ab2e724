//! An entry goes into its cell word by word, and joins the list when the head rises.
ghost use Rattle.std.specs.Prelude.{◌≡◌, ◌+◌, ◌<◌, ◌≤◌, ◌^◌, [], ◌∷◌, ◌++◌, length};
ghost use mathlib.Core.List.{IsPrefix};
ghost use Rattle.jour_rule.specs.Cells.{place as cell_of, IsWhole};
ghost use Rattle.jour_rule.specs.Moves.{entry};
ghost use Rattle.jour.specs.Seats.{IsAtRest, HasRoom, journal, front, own, head_of, known, number_of, looks_of, with_all, with_entry};

use crate::maker::Maker;
use crate::telling::tell;
use crate::writer::Writer;
use jour_rule::law::Law;
use jour_rule::steps::{Line, Place, append, store_word};

/// Loads words of a cell eight apart, which tells nothing: the lines of memory that an entry is
/// stored into then come together and not one behind the other.
fn fetch<O, L: Law<O>>(line: &Line<O, L>, cell: usize, count: usize)
    requires wide { (line.now.table_id.words < 2 ^ 32)
        × (cell + 256 ≤ line.now.table_id.words) }
    requires few { count ≤ 256 }
{
    for k in 0..count / 8 + 2 {
        line.peek(cell + (k * 8).min(255));
    }
}

/// Stores the words of an entry, the first one at `cell`.
fn stage<O, L: Law<O>>(line: &Line<O, L>, place: &mut Place<O>, cell: usize, words: &[u64])
    requires here { place.old.table_id ≡ line.now.table_id }
    requires wide { (line.now.table_id.words < 2 ^ 32)
        × (cell + 256 ≤ line.now.table_id.words) }
    requires rest { IsAtRest place.old.me.0.role }
    requires room { HasRoom place.old.me.0 }
    requires cell { cell ≡ cell_of place.old.me.0.seen.terms (head_of place.old.me.0 + 1) }
    requires cells { 0 < place.old.me.0.seen.terms.cells }
    requires few { length words.now ≤ 256 }
    ensures kept { place.new.table_id ≡ place.old.table_id }
    ensures view { place.new.me ≡ (with_all words.now place.old.me.0, place.old.me.1) }
{
    fetch(line, cell, words.len());
    for k in 0..words.len() {
        store_word(line, place, cell + k, words[k]);
    }
}

/// The entry of a maker joins the list.
fn put<O, L: Law<O>>(
    line: &Line<O, L>,
    place: &mut Place<O>,
    cell: usize,
    head: u64,
    maker: u64,
    words: &[u64],
)
    requires here { place.old.table_id ≡ line.now.table_id }
    requires wide { (line.now.table_id.words < 2 ^ 32)
        × (cell + 256 ≤ line.now.table_id.words) }
    requires rest { IsAtRest place.old.me.0.role }
    requires room { HasRoom place.old.me.0 }
    requires cell { cell ≡ cell_of place.old.me.0.seen.terms (head_of place.old.me.0 + 1) }
    requires cells { 0 < place.old.me.0.seen.terms.cells }
    requires whole { IsWhole words.now }
    requires lawful { L.meets place.old.me.0.seen.terms.opening
        (front place.old.me.0 ++ entry maker words.now ∷ []) }
    requires next { head ≡ head_of place.old.me.0 + 1 }
    ensures kept { place.new.table_id ≡ place.old.table_id }
    ensures view { place.new.me ≡ (with_entry maker words.now place.old.me.0, place.old.me.1) }
{
    stage(line, place, cell, words);
    append(line, place, head, maker);
}

impl<O, L: Law<O>> Writer<O, L> {
    /// Appends an entry of the maker, and answers its position, which is the new head. The writer
    /// must be known to have room, as it is since `room` answered so until the next entry. The
    /// maker has then seen the whole list, and where it had seen the whole list before, its
    /// receipts are one more.
    pub fn append(&mut self, maker: &mut Maker<O, L>, words: &[u64]) -> u64
        requires here { journal maker.old ≡ journal self.old }
        requires room { HasRoom self.old.1 }
        requires words { IsWhole words.now }
        requires end { head_of self.old.1 + 1 < 2 ^ 63 }
        requires lawful { L.meets self.old.1.seen.terms.opening
            (front self.old.1 ++ entry (number_of maker.old.1.role) words.now ∷ []) }
        ensures here { (journal self.new ≡ journal self.old)
            × (journal maker.new ≡ journal maker.old) }
        ensures list { front self.new.1
            ≡ front self.old.1 ++ entry (number_of maker.old.1.role) words.now ∷ [] }
        ensures maker { (front maker.new.1 ≡ front self.new.1)
            × (number_of maker.new.1.role ≡ number_of maker.old.1.role) }
        ensures head { (result ≡ head_of self.new.1) × (result ≡ known maker.new.1) }
        ensures looks { looks_of maker.new.1.role ≡ looks_of maker.old.1.role }
        ensures prefix { IsPrefix (front maker.old.1) (front maker.new.1) }
        ensures above { head_of maker.old.1 ≤ head_of maker.new.1 }
        ensures receipts { front maker.old.1 ≡ front self.old.1
            → own maker.new.1 ≡ own maker.old.1 ++ (result, words.now) ∷ [] }
    {
        let head = self.head + 1;
        let number = u64::from(maker.number);
        let cell = self.lows.len() + 1 + (head % self.cells) as usize * 256;
        put(
            &self.board.shared,
            &mut self.place,
            cell,
            head,
            number,
            words,
        );
        tell(&self.board.shared, &mut self.place, &mut maker.place);
        self.head = head;
        maker.seen = head;
        head
    }
}
