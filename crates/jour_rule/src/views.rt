//! What the seats of a journal know. No value of these types is made but of `Terms`: views stand in
//! contracts alone.
use std::collections::LinkedList;

/// An entry: the number of its maker, and its words.
pub struct Entry {
    pub maker: u64,
    pub words: LinkedList<u64>,
}

/// What is fixed when a journal is made: the position before the first entry, how many cells,
/// cursors and makers it has, and the opening of which its law speaks.
#[derive(Drop)]
pub struct Terms<O> {
    pub start: u64,
    pub cells: u64,
    pub cursors: u64,
    pub makers: u64,
    pub opening: O,
}

/// What every seat has seen.
pub struct Seen<O> {
    pub terms: Terms<O>,
    /// The entries that it has seen, which begin the journal's list.
    pub front: LinkedList<Entry>,
    /// The greatest head that it knows.
    pub known: u64,
    /// How often it loaded the head itself.
    pub heads: u64,
    /// For each cursor a number that its word has reached.
    pub lows: LinkedList<u64>,
    /// What begins the front, where it took in another last: of a reader what it had seen before,
    /// of the writer what the other had seen.
    pub heard: LinkedList<Entry>,
}

/// The writer's own part.
pub struct Desk {
    /// How many cursors it has given out.
    pub cursors: u64,
    /// How many makers it has given out.
    pub makers: u64,
    /// The number plus 1 of the maker that hasn't seen its last entry yet, or 0.
    pub owed: u64,
    /// The number plus 1 of the maker that it took in last, or 0.
    pub noted: u64,
    /// The receipts of the noted maker.
    pub receipts: LinkedList<(u64, LinkedList<u64>)>,
    /// The words of the next entry that are stored.
    pub staged: LinkedList<u64>,
}

/// A maker's own part.
pub struct Look {
    pub number: u64,
    /// How often it loaded a cursor's position itself.
    pub looks: u64,
    /// The cursor of the last such load, and what was found.
    pub cursor: u64,
    pub found: u64,
    /// The receipts that it had before it took in a pass last.
    pub was: LinkedList<(u64, LinkedList<u64>)>,
    /// Whether it is sure to have the same receipts since.
    pub sure: bool,
}

/// The kinds of seat.
pub enum Role {
    /// It was taken in by another.
    Spent,
    Writer(Desk),
    Maker(Look),
    /// The number plus 1 of the maker that it was split from, or 0, and whether it was split from
    /// a writer whose entries were all seen by their makers.
    Pass(u64, bool),
    /// The number, the position, and the words that it has read of the entry after it.
    Cursor(u64, u64, LinkedList<u64>),
}

/// What a seat knows.
pub struct View<O> {
    pub seen: Seen<O>,
    pub role: Role,
}
