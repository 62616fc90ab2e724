//! How workers hear that all actors have ended.
use std::sync::Wait;
use std::sync::atomic::{AtomicBool, Ordering};
use std::thread::Parker;
use std::time::Duration;

/// A worker's bell. It rings once all actors have ended, and wakes the worker if that sleeps.
#[derive(Drop)]
pub struct Bell {
    has_rung: AtomicBool,
    parker: Parker,
}

impl Bell {
    /// One that hasn't rung.
    pub fn new() -> Bell {
        Bell {
            has_rung: AtomicBool::new(false),
            parker: Parker::new(),
        }
    }

    /// All actors have ended.
    pub fn ring(&self) {
        self.has_rung.store(true, Ordering::SeqCst);
        self.parker.unpark();
    }

    /// Whether it has rung.
    pub(crate) fn has_rung(&self) -> bool {
        self.has_rung.load(Ordering::SeqCst)
    }

    /// Sleeps for so long, but no longer than until it rings. It may wake earlier.
    pub(crate) fn wait<R: Wait>(&self, rt: &R, time: Duration) {
        self.parker.park_timeout(rt, time);
    }
}
