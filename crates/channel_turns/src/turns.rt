//! A turn of a channel to a neighbour.
ghost use Rattle.std.specs.Prelude.{◌≡◌, false, IfOk};
ghost use Rattle.jour.specs.Seats.{journal};
ghost use Rattle.export_lock.specs.Feeds.{is_feeding};
ghost use Rattle.export_lock.specs.Kept.{GoesOn, IsHeld, IsOfKind, LeavesFlush, ReadsOn};
ghost use Rattle.channel_turns.specs.Inside.{DoesPush};
ghost use Rattle.channel_turns.specs.Turns.{Does};

use attrs::Judge;
use bits_ip::OutOfMemory;
use entry_memo::Memo;
use export_core::{FeedState, LogOnly, Pushed};
use export_lock::ExportState;
use std::alloc::Global;
use std::sync::Wait;
use table_shared::Table;

/// What a turn did.
#[derive(Clone, Copy, Debug, PartialEq, Eq, Drop)]
pub(crate) enum Did {
    /// It read a part of the table, for the feed that goes on.
    Fed,
    /// It took the next entry of the table.
    Took,
    /// It pushed the first key that was marked.
    Pushed,
    /// There was nothing to do.
    Nothing,
}

/// Whether a feed of the channel goes on.
fn is_feeding<J: Judge>(state: &ExportState<J>) -> bool
    ensures { result ≡ is_feeding state.now }
{
    let goes_on = match state.exporter.feed_from() {
        FeedState::Done => false,
        FeedState::From(_) => true,
    };
    state.is_running() & goes_on
}

/// Pushes the first key that is marked. A neighbour takes all that it is sent, which the log has,
/// so memory alone may be wanted.
fn push<J: Judge>(state: &mut ExportState<J>) -> Result<Did, OutOfMemory>
    requires held { IsHeld J.verdict state.old }
    ensures goes { GoesOn J.verdict state.old state.new }
    ensures did { IfOk result (DoesPush J.verdict state.old state.new) }
    ensures cursor { state.new.cursor ≡ state.old.cursor }
    ensures feed { state.new.exporter.feed ≡ state.old.exporter.feed }
    ensures flush { LeavesFlush state.old state.new }
    ensures marks { state.new.marks ≡ state.old.marks }
{
    if !state.is_running() {
        return Ok(Did::Nothing);
    }
    let mut outlet = LogOnly;
    match state.exporter.push_one(&mut outlet) {
        Ok(Pushed::Nothing) => Ok(Did::Nothing),
        Ok(Pushed::Quiet) => Ok(Did::Pushed),
        Ok(Pushed::Sent) => Ok(Did::Pushed),
        Err(_) => Err(OutOfMemory),
    }
}

/// A turn of a channel that is not being fed, and what it did: it takes the next entry, and where
/// there is none it pushes the first key that is marked. It wants no table, so it serves a channel
/// whose table is closed too. Where memory is refused, what the turn was to do is left for the
/// next.
pub(crate) fn read_or_push<J: Judge>(
    alloc: Global,
    memo: &Memo,
    state: &mut ExportState<J>,
) -> Result<Did, OutOfMemory>
    requires kind { IsOfKind J.verdict false state.old }
    requires fed { is_feeding state.old ≡ false }
    ensures goes { GoesOn J.verdict state.old state.new }
    ensures did { IfOk result (Does J.verdict state.old state.new) }
    ensures fed { is_feeding state.new ≡ false }
    ensures feed { state.new.exporter.feed ≡ state.old.exporter.feed }
    ensures reads { ReadsOn state.old.cursor state.new.cursor }
    ensures marks { state.new.marks ≡ state.old.marks }
{
    if state.take_turn(alloc, memo)? {
        return Ok(Did::Took);
    }
    push(state)
}

/// A turn of a channel to a neighbour, and what it did. Where a feed goes on it reads up to 256
/// nets of the table. Else it takes the next entry, and where there is none it pushes the first key
/// that is marked. A channel that is down does nothing. Where memory is refused, what the turn was
/// to do is left for the next.
pub(crate) fn turn_channel<R: Wait, J: Judge>(
    alloc: Global,
    rt: &R,
    memo: &Memo,
    table: &Table,
    state: &mut ExportState<J>,
) -> Result<Did, OutOfMemory>
    requires kind { IsOfKind J.verdict false state.old }
    requires here { journal state.old.cursor.0 ≡ table.now }
    ensures goes { GoesOn J.verdict state.old state.new }
    ensures did { IfOk result (Does J.verdict state.old state.new) }
    ensures marks { state.new.marks ≡ state.old.marks }
{
    if !is_feeding(state) {
        return read_or_push(alloc, memo, state);
    }
    state.feed_turn(rt, table, 256)?;
    Ok(Did::Fed)
}
