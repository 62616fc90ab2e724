//! The log of a channel.
ghost use Rattle.std.specs.Prelude.{◌≡◌, length, option_map};

use attrs::{Attrs, Shared};
use bits_ip::Prefix;

/// What a channel sends values for. Keys are ordered by net, and then by source.
#[derive(Clone, Copy, Debug, PartialEq, Eq, PartialOrd, Ord, Hash, Drop)]
pub struct Key {
    pub net: Prefix,
    /// The number of the source of a pipe's routes, and 0 in other channels.
    pub num: u32,
}

/// A value that was sent for a key.
#[derive(Debug, Drop)]
pub struct Sending {
    /// The position of the table at which the value stood.
    pub at: u64,
    pub key: Key,
    /// The attributes, and none for a withdrawal.
    pub value: Option<Shared<Attrs>>,
    /// Whether it is equal to the value that was sent before, in a refresh.
    pub again: bool,
}

impl Sending {
    /// The number that the value gets behind the log's items, and none for a withdrawal.
    pub(crate) fn number(&self, log: &[LogItem]) -> Option<usize>
        ensures { result ≡ option_map (λ _. length log.now) self.now.value }
    {
        match self.value {
            Some(_) => Some(log.len()),
            None => None,
        }
    }
}

/// An item of a channel's log.
#[derive(Debug, Drop)]
pub enum LogItem {
    /// The channel came up, where its table had this position.
    Up(u64),
    Down,
    /// All is sent anew.
    Reload,
    Sent(Sending),
}
