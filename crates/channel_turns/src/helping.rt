//! How others have a cursor read on.
ghost use Rattle.std.specs.Prelude.{◌≡◌};
ghost use mathlib.Core.List.{IsPrefix};
ghost use Rattle.jour.specs.Seats.{front, journal};
ghost use Rattle.export_lock.specs.Kept.{GoesOn, IsHeld, LeavesFlush};

use attrs::Judge;
use entry_memo::Memo;
use export_lock::{ExportState, Sends};
use jour_rule::buf::Buf;
use phase_room::ExportLock;
use std::alloc::Global;
use std::sync::Wait;
use table_shared::TableCursor;

/// Moves past the next entry, and tells whether there was one.
fn pass_one(cursor: &mut TableCursor, buf: &mut Buf) -> bool
    ensures same { (journal cursor.new.0 ≡ journal cursor.old.0)
        × (cursor.new.1 ≡ cursor.old.1) }
    ensures prefix { IsPrefix (front cursor.old.0.1) (front cursor.new.0.1) }
{
    match cursor.next(buf) {
        Some(_) => {
            cursor.advance();
            true
        }
        None => false,
    }
}

/// Moves past the entries that there are, of which a journal has 4096 at most.
pub fn pass_by(cursor: &mut TableCursor)
    ensures same { (journal cursor.new.0 ≡ journal cursor.old.0)
        × (cursor.new.1 ≡ cursor.old.1) }
    ensures prefix { IsPrefix (front cursor.old.0.1) (front cursor.new.0.1) }
{
    let mut buf = Buf::new();
    for _ in 0..4096 {
        if !pass_one(cursor, &mut buf) {
            return;
        }
    }
}

/// Each of the cursors moves past the entries that there are.
pub fn pass_all(cursors: &mut Vec<TableCursor>) {
    for index in 0..cursors.len() {
        pass_by(&mut cursors[index]);
    }
}

/// A channel, or a pipe's direction, that is up takes the next entry, also while it withdraws what
/// stands. The cursor of one that is down moves past the entries that there are. Where memory is
/// refused, the entry is left for the next help.
pub fn read_on<J: Judge>(alloc: Global, memo: &Memo, state: &mut ExportState<J>)
    requires held { IsHeld J.verdict state.old }
    ensures goes { GoesOn J.verdict state.old state.new }
    ensures flush { LeavesFlush state.old state.new }
    ensures log { state.new.exporter.log ≡ state.old.exporter.log }
    ensures marks { state.new.marks ≡ state.old.marks }
{
    if state.cursor.is_started() {
        let _ = state.take_turn(alloc, memo);
    } else {
        pass_by(&mut state.cursor);
    }
}

/// Has the cursor of a channel to a neighbour read on, under the channel's lock, and waits for no
/// other lock.
pub fn help_channel<R: Wait, J: Judge + Drop, P: Sends>(
    alloc: Global,
    rt: &R,
    memo: &Memo,
    channel: &ExportLock<J, P>,
) {
    let (held, mut state) = channel.lock(rt);
    read_on(alloc, memo, &mut state);
    channel.unlock(held, state);
}
