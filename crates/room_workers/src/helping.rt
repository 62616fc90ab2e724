//! How those who write a table have its cursors read on.
use crate::channels::{Channels, Heading};
use attrs::Judge;
use channel_turns::help_channel;
use export_lock::Sends;
use import_lock::{Helper, Phase};
use phase_pipes::PipeSession;
use phase_room::Session;
use pipe_turns::help_lane;
use room_members::{Member, Room};
use std::alloc::Global;
use std::sync::Wait;

/// Has the channel of a protocol with routes of its own take an entry, where it has one.
fn help_own<R: Wait, J: Judge + Drop, P: Phase + Sends>(
    alloc: Global,
    rt: &R,
    channels: &Channels,
    session: &Session<J, P>,
) {
    if let Some(channel) = &session.export {
        help_channel(alloc, rt, channels.memo(session.table as usize), channel);
    }
}

/// Has a direction of a pipe take an entry.
fn help_pipe<R: Wait, J: Judge + Drop, P: Phase + Sends>(
    alloc: Global,
    rt: &R,
    channels: &Channels,
    pipe: &PipeSession<J, P>,
    heading: Heading,
) {
    match heading {
        Heading::Out => help_lane(alloc, rt, channels.memo(pipe.primary as usize), &pipe.out),
        Heading::Back => help_lane(alloc, rt, channels.memo(pipe.peer as usize), &pipe.back),
    }
}

/// Helps a room's actors, and its pipes' directions, where a table's journal is full. Who reads is
/// found by the number of the cursor.
#[derive(Drop)]
pub struct Help<'a, J: Judge + Drop, P: Phase + Sends> {
    pub alloc: Global,
    pub room: &'a Room<J, P>,
    pub channels: &'a Channels,
}

impl<J: Judge + Drop, P: Phase + Sends> Helper for Help<'_, J, P> {
    /// Has the channel or the direction of this cursor's number take an entry, under its lock, and
    /// moves past all entries with cursors of the number that nobody reads by. It waits for no
    /// protocol's lock.
    fn help<R: Wait>(&self, rt: &R, cursor: u32) {
        let number = cursor as usize;
        self.channels.pass_spares(rt, number);
        let Some(reader) = self.channels.reader(number) else {
            return;
        };
        let Some(member) = self.room.members.get(reader.member) else {
            return;
        };
        match member {
            Member::Own(session) => help_own(self.alloc, rt, self.channels, session),
            Member::Pipe(pipe) => help_pipe(self.alloc, rt, self.channels, pipe, reader.heading),
        }
    }
}
