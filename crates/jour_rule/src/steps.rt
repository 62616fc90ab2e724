//! The kinds of step that a seat makes, each a function. Every one is a single atomic step on the
//! words, but `open`, and takes no lock.
ghost use Rattle.std.specs.Prelude.{◌≡◌, ℕ, ◌+◌, ◌*◌, ◌-◌, ◌<◌, ◌≤◌, ◌⊎◌, List, [], ◌∷◌, ◌++◌, length, slice_index, ◌^◌, true, IfOk, replicate};
ghost use mathlib.Core.Option.{none, some};
ghost use lib.ListN.{get_elem?};
ghost use Rattle.atomic_table.specs.Table.{step};
ghost use Rattle.jour_rule.specs.declared.views.Role.TheVariants.{Writer, Cursor};
ghost use Rattle.jour_rule.specs.declared.views.Desk.{Desk};
ghost use Rattle.jour_rule.specs.Cells.{IsWhole, place as cell_of, told, is_whole};
ghost use Rattle.jour_rule.specs.Moves.{IsLive, entry, with_head, with_low, with_word, with_staged, read_of, read_on, position_of, moved_to, appended, copy_of, taken_in, gave_maker, new_maker, gave_cursor, new_cursor, Tells, IsReading};
ghost use Rattle.jour_rule.specs.Journal.{opened};

use crate::law::Law;
use crate::plays::{
    GiveCursor, GiveMaker, LoadHead, LoadPosition, LoadWord, RaiseHead, Said, SplitPass,
    StorePosition, StoreWord, TakeIn,
};
use crate::rule::Kept;
use crate::views::{Terms, View};
use atomic_table::{Seat, Shared, Table};
use bits_ip::OutOfMemory;
use std::alloc::Global;
use std::marker::Brand;

/// The words of a journal, which its seats share.
pub type Line<O, L> = Shared<(), View<O>, Terms<O>, Kept<L>>;

/// A seat's token, with which a thread steps.
pub type Place<O> = Seat<(), View<O>>;

/// Loads the head, which is then the greatest that the seat knows. `Tells` says what each kind of
/// seat learns by it.
pub fn load_head<O, L: Law<O>>(line: &Line<O, L>, place: &mut Place<O>) -> u64
    requires here { place.old.table_id ≡ line.now.table_id }
    requires wide { 0 < line.now.table_id.words }
    ensures kept { (place.new.table_id ≡ place.old.table_id) × (place.new.id ≡ place.old.id) }
    ensures view { place.new.me ≡ (with_head result place.old.me.0, place.old.me.1) }
    ensures tells { Tells L.meets place.old.me.0.seen result place.old.me.0.role }
{
    line.load::<LoadHead<L>>(place, 0)
}

/// Loads the position of the cursor `word - 1`, which never falls and is never further behind the
/// head than the journal is long.
pub fn load_position<O, L: Law<O>>(line: &Line<O, L>, place: &mut Place<O>, word: usize) -> u64
    requires here { place.old.table_id ≡ line.now.table_id }
    requires word { (0 < word) × (word < line.now.table_id.words)
        × (word ≤ place.old.me.0.seen.terms.cursors) }
    requires live { IsLive place.old.me.0.role }
    ensures kept { (place.new.table_id ≡ place.old.table_id) × (place.new.id ≡ place.old.id) }
    ensures view { place.new.me ≡ (with_low (word - 1) result place.old.me.0, place.old.me.1) }
    ensures near { place.old.me.0.seen.known ≤ result + place.old.me.0.seen.terms.cells }
    ensures rises { slice_index place.old.me.0.seen.lows (word - 1) ≤ result }
{
    line.load::<LoadPosition>(place, word)
}

/// Loads the word `index` of the entry after a cursor's position, which stands at `word`. The words
/// are read in order, and one that was read already may be read again. `IsReading` says what the
/// cursor learns, and that with the last word the entry is the next one of the journal.
pub fn load_word<O, L: Law<O>>(
    line: &Line<O, L>,
    place: &mut Place<O>,
    word: usize,
    index: usize,
) -> u64
    requires here { place.old.table_id ≡ line.now.table_id }
    requires inside { word < line.now.table_id.words }
    requires cursor { (c p : ℕ) × (ws : List ℕ) × (place.old.me.0.role ≡ Cursor c p ws)
        × (p < place.old.me.0.seen.known) × (index ≤ length ws)
        × ((0 < index) → index < told ws) }
    requires cell { word
        ≡ cell_of place.old.me.0.seen.terms (position_of place.old.me.0.role + 1) + index }
    ensures kept { (place.new.table_id ≡ place.old.table_id) × (place.new.id ≡ place.old.id) }
    ensures view { place.new.me ≡ (with_word index result place.old.me.0, place.old.me.1) }
    ensures tells { IsReading L.meets place.old.me.0.seen
        (position_of place.old.me.0.role) index result
        (read_on index result (read_of place.old.me.0.role)) }
{
    line.load::<LoadWord<L>>(place, word)
}

/// Stores a cursor's position, which is not below the old one. An entry that it has read whole
/// joins what it has seen, and the position is no further than that.
pub fn store_position<O, L: Law<O>>(
    line: &Line<O, L>,
    place: &mut Place<O>,
    word: usize,
    position: u64,
)
    requires here { place.old.table_id ≡ line.now.table_id }
    requires inside { word < line.now.table_id.words }
    requires cursor { (c q : ℕ) × (ws : List ℕ) × (place.old.me.0.role ≡ Cursor c q ws)
        × (word ≡ c + 1) × (q ≤ position) }
    requires seen { position ≤ place.old.me.0.seen.terms.start
        + length (moved_to 0 position place.old.me.0).seen.front }
    ensures kept { (place.new.table_id ≡ place.old.table_id) × (place.new.id ≡ place.old.id) }
    ensures view { (k : ℕ) × (place.new.me ≡ (moved_to k position place.old.me.0, place.old.me.1))
        × L.meets place.old.me.0.seen.terms.opening
        (moved_to k position place.old.me.0).seen.front
        × (is_whole (read_of place.old.me.0.role) ≡ true
        → get_elem? (moved_to k position place.old.me.0).seen.front
        (position_of place.old.me.0.role - place.old.me.0.seen.terms.start)
        ≡ some (entry k (read_of place.old.me.0.role))) }
{
    line.store::<StorePosition<L>>(place, word, position);
}

/// Stores the next word of the entry to come, at `word`. The first one is stored only where no
/// cursor still reads the entry that stands in this cell.
pub fn store_word<O, L: Law<O>>(line: &Line<O, L>, place: &mut Place<O>, word: usize, value: u64)
    requires here { place.old.table_id ≡ line.now.table_id }
    requires inside { word < line.now.table_id.words }
    requires writer { (d : Desk) × (place.old.me.0.role ≡ Writer d) × (length d.staged < 256)
        × (word ≡ cell_of place.old.me.0.seen.terms
        (place.old.me.0.seen.terms.start + length place.old.me.0.seen.front + 1)
        + length d.staged)
        × (length d.staged ≡ 0 → (c : ℕ) → c < place.old.me.0.seen.terms.cursors
        → place.old.me.0.seen.terms.start + length place.old.me.0.seen.front
        < slice_index place.old.me.0.seen.lows c + place.old.me.0.seen.terms.cells) }
    requires cells { 0 < place.old.me.0.seen.terms.cells }
    ensures kept { (place.new.table_id ≡ place.old.table_id) × (place.new.id ≡ place.old.id) }
    ensures view { place.new.me ≡ (with_staged value place.old.me.0, place.old.me.1) }
{
    line.store::<StoreWord>(place, word, value);
}

/// Raises the head, and with this one store the entry that is staged joins the list as the maker's.
pub fn append<O, L: Law<O>>(line: &Line<O, L>, place: &mut Place<O>, head: u64, maker: u64)
    requires here { place.old.table_id ≡ line.now.table_id }
    requires wide { 0 < line.now.table_id.words }
    requires writer { (d : Desk) × (place.old.me.0.role ≡ Writer d)
        × (d.owed ≡ 0) × IsWhole d.staged
        × L.meets place.old.me.0.seen.terms.opening
        (place.old.me.0.seen.front ++ entry maker d.staged ∷ []) }
    requires next { head ≡ place.old.me.0.seen.terms.start + length place.old.me.0.seen.front + 1 }
    ensures kept { (place.new.table_id ≡ place.old.table_id) × (place.new.id ≡ place.old.id) }
    ensures view { place.new.me ≡ (appended maker place.old.me.0, place.old.me.1) }
{
    raise_head::<O, L, Brand>(line, place, head, maker);
}

/// `append` with the maker's number as a type, since a step reads no argument of its caller.
fn raise_head<O, L: Law<O>, N: Said>(line: &Line<O, L>, place: &mut Place<O>, head: u64, maker: u64)
    requires said { N.maker ≡ maker }
    requires here { place.old.table_id ≡ line.now.table_id }
    requires wide { 0 < line.now.table_id.words }
    requires writer { (d : Desk) × (place.old.me.0.role ≡ Writer d)
        × (d.owed ≡ 0) × IsWhole d.staged
        × L.meets place.old.me.0.seen.terms.opening
        (place.old.me.0.seen.front ++ entry maker d.staged ∷ []) }
    requires next { head ≡ place.old.me.0.seen.terms.start + length place.old.me.0.seen.front + 1 }
    ensures kept { (place.new.table_id ≡ place.old.table_id) × (place.new.id ≡ place.old.id) }
    ensures view { place.new.me ≡ (appended maker place.old.me.0, place.old.me.1) }
{
    line.store::<RaiseHead<N>>(place, 0, head);
}

/// Splits off a pass that has seen as much.
pub fn copy<O, L: Law<O>>(line: &Line<O, L>, place: &mut Place<O>) -> Place<O>
    requires here { place.old.table_id ≡ line.now.table_id }
    requires wide { 0 < line.now.table_id.words }
    ensures kept { (place.new.table_id ≡ place.old.table_id) × (place.new.id ≡ place.old.id)
        × (place.new.me ≡ place.old.me) }
    ensures new { (result.table_id ≡ place.old.table_id)
        × (result.me ≡ (copy_of place.old.me.0, [])) }
{
    line.split_seat::<SplitPass>(place)
}

/// Takes in what another seat has seen, which ends. The list is then the longer of the two, and the
/// numbers are the greater ones.
pub fn take_in<O, L: Law<O>>(line: &Line<O, L>, place: &mut Place<O>, other: Place<O>)
    requires here { (place.old.table_id ≡ line.now.table_id)
        × (other.table_id ≡ line.now.table_id) }
    requires wide { 0 < line.now.table_id.words }
    requires other { (other.me.1 ≡ []) × IsLive other.me.0.role }
    ensures kept { (place.new.table_id ≡ place.old.table_id) × (place.new.id ≡ place.old.id) }
    ensures view { place.new.me ≡ (taken_in place.old.me.0 other.me.0, place.old.me.1) }
{
    line.join_seat::<TakeIn<L>>(place, other);
}

/// The writer gives out a maker, with the next number.
pub fn give_maker<O, L: Law<O>>(line: &Line<O, L>, place: &mut Place<O>) -> Place<O>
    requires here { place.old.table_id ≡ line.now.table_id }
    requires wide { 0 < line.now.table_id.words }
    requires writer { (d : Desk) × (place.old.me.0.role ≡ Writer d) × Unit {0} }
    ensures kept { (place.new.table_id ≡ place.old.table_id) × (place.new.id ≡ place.old.id)
        × (place.new.me ≡ (gave_maker place.old.me.0, place.old.me.1)) }
    ensures new { (result.table_id ≡ place.old.table_id)
        × (result.me ≡ (new_maker place.old.me.0, [])) }
{
    line.split_seat::<GiveMaker>(place)
}

/// The writer gives out a cursor, with the next number.
pub fn give_cursor<O, L: Law<O>>(line: &Line<O, L>, place: &mut Place<O>) -> Place<O>
    requires here { place.old.table_id ≡ line.now.table_id }
    requires wide { 0 < line.now.table_id.words }
    requires writer { (d : Desk) × (place.old.me.0.role ≡ Writer d)
        × (d.cursors < place.old.me.0.seen.terms.cursors) }
    ensures kept { (place.new.table_id ≡ place.old.table_id) × (place.new.id ≡ place.old.id)
        × (place.new.me ≡ (gave_cursor place.old.me.0, place.old.me.1)) }
    ensures new { (result.table_id ≡ place.old.table_id)
        × (result.me ≡ (new_cursor place.old.me.0, [])) }
{
    line.split_seat::<GiveCursor>(place)
}

/// The words of a new journal, of which each is `start`, and the writer's seat. It refuses for want
/// of memory alone.
pub fn open<O, L: Law<O>>(
    alloc: Global,
    terms: &Terms<O>,
) -> Result<(Table<(), View<O>, Terms<O>, Kept<L>, Global>, Place<O>), OutOfMemory>
    requires { (terms.now.cursors ≤ 512) × (terms.now.cells ≤ 4096) }
    ensures { IfOk result (λ r.
        (r.0.shared.table_id.words ≡ terms.now.cursors + 1 + terms.now.cells * 256)
        × (r.0.shared.key ≡ terms.now) × (r.1.table_id ≡ r.0.shared.table_id)
        × (r.1.me ≡ (opened terms.now, []))) }
{
    let count = terms.cursors as usize + 1 + terms.cells as usize * 256;
    let words = starts(alloc, terms.start, count)?;
    Ok(Table::of_words(alloc, words.as_slice(), terms)?)
}

fn starts(alloc: Global, start: u64, count: usize) -> Result<Vec<u64>, OutOfMemory>
    ensures { IfOk result (λ v. v.items ≡ replicate count start) }
{
    Ok(Vec::from_elem(alloc, start, count)?)
}
