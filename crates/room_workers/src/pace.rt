//! When a worker's channels send.

/// How many times a worker reads, at most, before its channels send.
const READS: u32 = 16;

/// How often a worker has read since its channels sent last.
#[derive(Drop)]
pub(crate) struct Pace {
    reads: u32,
}

impl Pace {
    /// Channels send at once.
    pub(crate) fn new() -> Pace {
        Pace { reads: READS }
    }

    /// Whether channels send now.
    pub(crate) fn sends(&self) -> bool {
        self.reads >= READS
    }

    /// Channels have sent, or have read alone. Where there was nothing to read, changes have
    /// settled, and channels send next.
    pub(crate) fn note(&mut self, busy: bool) {
        self.reads = if self.sends() {
            0
        } else if busy {
            self.reads.saturating_add(1)
        } else {
            READS
        };
    }
}
