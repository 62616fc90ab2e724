//! Workers that serve channels and directions while the actors act.
ghost use Rattle.std.specs.Prelude.{◌≡◌, ℕ, Some, slice_get};
ghost use Rattle.room_members.specs.Members.{IsRoom};
ghost use Rattle.room_members.specs.declared.member.Member.TheVariants.{Own, Pipe};

use crate::bell::Bell;
use crate::channels::{Channels, Heading, Reader};
use crate::helping::Help;
use crate::lanes::{serve_back, serve_out};
use crate::pace::Pace;
use attrs::Judge;
use channel_turns::{read_channel, serve_channel};
use export_lock::Sends;
use import_lock::{Helper, OpFault, Phase};
use outside_io::Gate;
use phase_pipes::PipeSession;
use phase_room::Session;
use room_members::{Member, Room};
use std::alloc::Global;
use std::sync::Wait;
use std::time::Duration;

/// For how many microseconds a worker sleeps while actors act. Its channels may lag so long: who
/// writes a table that has no room helps itself.
const REST: u64 = 250;

/// Some turns of the channel of a protocol with routes of its own, where it has one; it takes
/// entries alone where it isn't to send. Tells whether there was anything to do.
fn serve_own<R: Wait, G: Gate, J: Judge + Drop, P: Phase + Sends>(
    alloc: Global,
    rt: &R,
    gate: &G,
    room: &Room<J, P>,
    channels: &Channels,
    session: &Session<J, P>,
    sends: bool,
) -> Result<bool, OpFault>
    requires room { IsRoom P.terms P.exports P.rules room.now }
    requires there { (number : ℕ) × (slice_get room.now.members.items number ≡ Some (Own session.now)) }
{
    match &session.export {
        Some(channel) => {
            let table = &room.tables[session.table as usize];
            let memo = channels.memo(session.table as usize);
            let busy = if sends {
                serve_channel(alloc, rt, gate, memo, table, channel)
            } else {
                read_channel(alloc, rt, gate, memo, channel)
            };
            match busy {
                Ok(busy) => Ok(busy),
                Err(_) => Err(OpFault::Memory),
            }
        }
        None => Ok(false),
    }
}

/// Some turns of a direction of a pipe, which brings what it reads to its other table at once.
fn serve_pipe<R: Wait, G: Gate, H: Helper, J: Judge + Drop, P: Phase + Sends>(
    alloc: Global,
    rt: &R,
    gate: &G,
    helper: &H,
    room: &Room<J, P>,
    channels: &Channels,
    pipe: &PipeSession<J, P>,
    heading: Heading,
) -> Result<bool, OpFault>
    requires room { IsRoom P.terms P.exports P.rules room.now }
    requires there { (number : ℕ) × (slice_get room.now.members.items number ≡ Some (Pipe pipe.now)) }
{
    match heading {
        Heading::Out => serve_out(alloc, rt, gate, helper, room, channels, pipe),
        Heading::Back => serve_back(alloc, rt, gate, helper, room, channels, pipe),
    }
}

/// The same of a reader of the room, where it has such a member.
fn serve_reader<R: Wait, G: Gate, H: Helper, J: Judge + Drop, P: Phase + Sends>(
    alloc: Global,
    rt: &R,
    gate: &G,
    helper: &H,
    room: &Room<J, P>,
    channels: &Channels,
    reader: Reader,
    sends: bool,
) -> Result<bool, OpFault>
    requires room { IsRoom P.terms P.exports P.rules room.now }
{
    let number = reader.member;
    if number >= room.members.len() {
        return Ok(false);
    }
    match &room.members[number] {
        Member::Own(session) => serve_own(alloc, rt, gate, room, channels, session, sends),
        Member::Pipe(pipe) => serve_pipe(
            alloc,
            rt,
            gate,
            helper,
            room,
            channels,
            pipe,
            reader.heading,
        ),
    }
}

/// Some turns of each channel and direction of a worker; channels to neighbours take entries alone
/// where they aren't to send. Tells whether there was anything to do.
fn serve_all<R: Wait, G: Gate, H: Helper, J: Judge + Drop, P: Phase + Sends>(
    alloc: Global,
    rt: &R,
    gate: &G,
    helper: &H,
    room: &Room<J, P>,
    channels: &Channels,
    worker: usize,
    sends: bool,
) -> Result<bool, OpFault>
    requires room { IsRoom P.terms P.exports P.rules room.now }
{
    let mut busy = false;
    for channel in 0..channels.count() {
        if channel % 4 == worker {
            if let Some(reader) = channels.reader(channel) {
                busy |= serve_reader(alloc, rt, gate, helper, room, channels, reader, sends)?;
            }
        }
    }
    Ok(busy)
}

/// The turns of a worker until all actors have ended and its channels have nothing to do.
fn serve_on<R: Wait, G: Gate, H: Helper, J: Judge + Drop, P: Phase + Sends>(
    alloc: Global,
    rt: &R,
    gate: &G,
    helper: &H,
    room: &Room<J, P>,
    channels: &Channels,
    worker: usize,
    bell: &Bell,
) -> Result<(), OpFault>
    requires room { IsRoom P.terms P.exports P.rules room.now }
{
    let mut pace = Pace::new();
    for _ in rt.forever() {
        let is_last = bell.has_rung();
        let sends = is_last | pace.sends();
        let busy = serve_all(alloc, rt, gate, helper, room, channels, worker, sends)?;
        if is_last & !busy {
            return Ok(());
        }
        if !is_last {
            pace.note(busy);
            bell.wait(rt, Duration::from_micros(REST));
        }
    }
    unreachable!()
}

/// A worker: of four workers, numbered from 0 on, each serves the channels whose numbers leave its
/// own by 4, a pipe's directions among them. A direction whose table has no room has the cursor
/// read on that lags there, without its own lock. Once all actors have ended it goes on until its
/// channels have nothing to do; what a direction of another worker brings later is left.
///
/// It ends also for want of memory, or where a direction writes a table that has no position left.
/// Its channels are then as they were before the turn that failed, and are left to whoever settles
/// them.
pub fn serve<R: Wait, G: Gate, J: Judge + Drop, P: Phase + Sends>(
    alloc: Global,
    rt: &R,
    gate: &G,
    room: &Room<J, P>,
    channels: &Channels,
    worker: usize,
    bell: &Bell,
) -> Result<(), OpFault>
    requires room { IsRoom P.terms P.exports P.rules room.now }
{
    let helper = Help {
        alloc,
        room,
        channels,
    };
    serve_on(alloc, rt, gate, &helper, room, channels, worker, bell)
}
