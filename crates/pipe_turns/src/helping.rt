//! How others have the cursor of a pipe's direction read on.
use attrs::Judge;
use channel_turns::read_on;
use entry_memo::Memo;
use export_lock::Sends;
use pipe_lock::LaneLock;
use std::alloc::Global;
use std::sync::Wait;

/// Has the cursor of a pipe's direction read on, under the direction's lock, and waits for no other
/// lock: so it may be called wherever no lock of a direction or channel is held.
pub fn help_lane<R: Wait, J: Judge + Drop, P: Sends>(
    alloc: Global,
    rt: &R,
    memo: &Memo,
    lock: &LaneLock<J, P>,
) {
    let (held, mut lane) = lock.lock(rt);
    read_on(alloc, memo, &mut lane.state);
    lock.unlock(held, lane);
}
