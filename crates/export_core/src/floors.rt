//! Up to where the nets of a table have been read.
ghost use Rattle.std.specs.Prelude.{◌≡◌, ◌<◌, ℕ, Some, slice_get};
ghost use Rattle.export_core.specs.declared.log.Key.{Key};
ghost use Rattle.export_core.specs.Candidates.{covers, floor_of, is_from, is_below};
ghost use Rattle.export_core.specs.States.{reach, higher, feed_after};

use crate::log::Key;
use attrs::Chunk;
use bits_ip::Prefix;
use std::collections::VecDeque;

/// The nets of a range have been read up to a position.
#[derive(Clone, Copy, Debug, PartialEq, Eq, Drop)]
pub struct Floor {
    /// The first net, itself included.
    pub from: Option<Prefix>,
    /// The net behind the last.
    pub upto: Option<Prefix>,
    pub at: u64,
}

/// Whether a feed goes on, and from which net.
#[derive(Clone, Copy, Debug, PartialEq, Eq, Drop)]
pub enum FeedState {
    Done,
    /// From this net on, itself included; from the first one where there is none.
    From(Option<Prefix>),
}

fn is_from(first: Option<Prefix>, net: &Prefix) -> bool
    ensures { result ≡ is_from first net.now }
{
    match first {
        None => true,
        Some(first) => !net.precedes(&first),
    }
}

fn is_below(end: Option<Prefix>, net: &Prefix) -> bool
    ensures { result ≡ is_below end net.now }
{
    match end {
        None => true,
        Some(end) => net.precedes(&end),
    }
}

impl Floor {
    pub(crate) fn of_chunk(chunk: &Chunk) -> Floor
        ensures { result ≡ floor_of chunk.now }
    {
        Floor {
            from: chunk.from,
            upto: chunk.upto,
            at: chunk.at,
        }
    }

    /// Whether the key's net is in the range.
    pub(crate) fn covers(&self, key: &Key) -> bool
        ensures { result ≡ covers self.now key.now }
    {
        is_from(self.from, &key.net) & is_below(self.upto, &key.net)
    }
}

/// The greater of the position found and that of the range, where the key's net is in it.
fn higher_of(found: u64, floor: &Floor, key: &Key) -> u64
    ensures { result ≡ higher key.now found floor.now }
{
    if floor.covers(key) {
        floor.at.max(found)
    } else {
        found
    }
}

/// Up to where the key's net has been read.
pub(crate) fn reach_at(floors: &VecDeque<Floor>, position: u64, key: &Key) -> u64
    ensures { result ≡ reach position floors.now.items key.now }
{
    floors
        .iter()
        .fold(position, |found, floor| higher_of(found, floor, key))
}

/// Drops ranges at or below the position from the front: they tell nothing more.
pub(crate) fn lower(floors: &mut VecDeque<Floor>, position: u64)
    ensures read { (k : Key)
        → reach position floors.new.items k ≡ reach position floors.old.items k }
    ensures lowered { (f : Floor) → slice_get floors.new.items 0 ≡ Some f → position < f.at }
{
    while let Some(floor) = floors.front() {
        if floor.at > position {
            break;
        }
        floors.pop_front();
    }
}

/// Where a feed stands behind a chunk.
pub(crate) fn after_chunk(upto: Option<Prefix>) -> FeedState
    ensures { result ≡ feed_after upto }
{
    match upto {
        None => FeedState::Done,
        Some(next) => FeedState::From(Some(next)),
    }
}
