//! Which channel or direction has a cursor of a number.
use attrs::Judge;
use bits_ip::OutOfMemory;
use channel_turns::pass_all;
use entry_memo::Memo;
use export_lock::Sends;
use import_lock::Phase;
use phase_pipes::PipeSession;
use phase_room::{ExportLock, Session};
use pipe_lock::LaneLock;
use room_members::{Member, Room};
use std::alloc::Global;
use std::sync::{Mutex, Wait};
use table_shared::TableCursor;

/// Which of a member's channels reads.
#[derive(Clone, Copy, Debug, PartialEq, Eq, Drop)]
pub enum Heading {
    /// The channel of a protocol with routes of its own, or the direction out of a pipe.
    Out,
    /// The direction back of a pipe.
    Back,
}

/// Who reads a table for a member of a room.
#[derive(Clone, Copy, Debug, PartialEq, Eq, Drop)]
pub struct Reader {
    /// The number of the member.
    pub member: usize,
    pub heading: Heading,
}

/// By the numbers of channels, which are also those of their cursors, who reads by them, and the
/// cursors that nobody reads by. A pipe's directions are among the channels.
#[derive(Drop)]
pub struct Channels {
    /// Who reads by the cursor of this number, where somebody does.
    readers: Vec<Option<Reader>>,
    /// Its cursors of tables that it doesn't read. They are closed, and lag like any other.
    pub(crate) spares: Vec<Mutex<Vec<TableCursor>>>,
    /// By table which of its entries were read lately.
    memos: Vec<Memo>,
    /// One that remembers nothing.
    nothing: Memo,
}

/// The number of a channel's cursor.
fn number_of<R: Wait, J: Judge + Drop, P: Sends>(rt: &R, channel: &ExportLock<J, P>) -> usize {
    let (held, state) = channel.lock(rt);
    let number = state.cursor.number() as usize;
    channel.unlock(held, state);
    number
}

/// The number of a direction's cursor.
fn lane_number_of<R: Wait, J: Judge + Drop, P: Sends>(rt: &R, lock: &LaneLock<J, P>) -> usize {
    let (held, lane) = lock.lock(rt);
    let number = lane.state.cursor.number() as usize;
    lock.unlock(held, lane);
    number
}

/// Notes for which member, by which of its channels, is read by the cursor of a number.
fn note(readers: &mut Vec<Option<Reader>>, number: usize, member: usize, heading: Heading) {
    if let Some(place) = readers.get_mut(number) {
        *place = Some(Reader { member, heading });
    }
}

/// The same of the channel of a protocol with routes of its own, where it has one.
fn note_own<R: Wait, J: Judge + Drop, P: Phase + Sends>(
    rt: &R,
    session: &Session<J, P>,
    member: usize,
    readers: &mut Vec<Option<Reader>>,
) {
    if let Some(channel) = &session.export {
        note(readers, number_of(rt, channel), member, Heading::Out);
    }
}

/// The same of a pipe's directions.
fn note_pipe<R: Wait, J: Judge + Drop, P: Phase + Sends>(
    rt: &R,
    pipe: &PipeSession<J, P>,
    member: usize,
    readers: &mut Vec<Option<Reader>>,
) {
    note(readers, lane_number_of(rt, &pipe.out), member, Heading::Out);
    note(
        readers,
        lane_number_of(rt, &pipe.back),
        member,
        Heading::Back,
    );
}

/// The same of all members.
fn find_readers<R: Wait, J: Judge + Drop, P: Phase + Sends>(
    rt: &R,
    room: &Room<J, P>,
    readers: &mut Vec<Option<Reader>>,
) {
    for member in 0..room.members.len() {
        match &room.members[member] {
            Member::Own(session) => note_own(rt, session, member, readers),
            Member::Pipe(pipe) => note_pipe(rt, pipe, member, readers),
        }
    }
}

/// How many entries of a table are remembered.
const REMEMBERED: usize = 256;

fn memos(alloc: Global, tables: usize) -> Result<Vec<Memo>, OutOfMemory> {
    let mut memos = Vec::new(alloc);
    for _ in 0..tables {
        memos.push(Memo::new(alloc, REMEMBERED)?)?;
    }
    Ok(memos)
}

impl Channels {
    /// Finds who reads for the members of a room. There are as many channels as lists of spare
    /// cursors: in the place of a channel's number stand its cursors of tables that it doesn't
    /// read.
    pub fn of<R: Wait, J: Judge + Drop, P: Phase + Sends>(
        alloc: Global,
        rt: &R,
        room: &Room<J, P>,
        cursors: Vec<Vec<TableCursor>>,
    ) -> Result<Channels, OutOfMemory> {
        let mut readers = Vec::new(alloc);
        let mut spares = Vec::new(alloc);
        for list in cursors {
            readers.push(None)?;
            spares.push(Mutex::new(list))?;
        }
        find_readers(rt, room, &mut readers);
        Ok(Channels {
            readers,
            spares,
            memos: memos(alloc, room.tables.len())?,
            nothing: Memo::none(alloc),
        })
    }

    /// What was read lately of the entries of a table.
    pub(crate) fn memo(&self, table: usize) -> &Memo {
        match self.memos.get(table) {
            Some(memo) => memo,
            None => &self.nothing,
        }
    }

    /// How many channels there are.
    pub fn count(&self) -> usize {
        self.readers.len()
    }

    /// Who reads by the cursor of this number, where somebody does.
    pub fn reader(&self, channel: usize) -> Option<Reader> {
        *self.readers.get(channel)?
    }

    /// The spare cursors of a channel's number pass by all that there is to read.
    pub fn pass_spares<R: Wait>(&self, rt: &R, channel: usize) {
        if let Some(spares) = self.spares.get(channel) {
            let mut cursors = spares.lock(rt);
            pass_all(&mut cursors);
        }
    }
}
