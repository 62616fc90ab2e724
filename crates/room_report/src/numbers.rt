//! Numbers of channels.
ghost use Rattle.std.specs.Prelude.{◌≡◌, IfOk, map, option_copied, option_map};
ghost use Rattle.phase_open.specs.declared.standing.StandingChannel.{StandingChannel as HeldChannel};
ghost use Rattle.room_report.specs.Behind.{numbers_in};

use attrs::Judge;
use bits_ip::OutOfMemory;
use phase_open::StandingChannel;
use room_open::StandingMember;
use std::alloc::Global;

/// The numbers of a protocol's channels.
#[derive(Clone, Copy, Debug, Drop)]
pub enum ChannelNumbers {
    /// It has routes of its own: the number of its channel, where it has one.
    Own(Option<u32>),
    /// It is a pipe: the numbers of the directions out and back.
    Pipe(u32, u32),
}

/// By protocol the numbers of its channels.
pub fn note_numbers<J: Judge>(
    alloc: Global,
    members: &[StandingMember<J>],
) -> Result<Vec<ChannelNumbers>, OutOfMemory>
    ensures { IfOk result (λ numbers. numbers.items ≡ map numbers_in members.now) }
{
    let mut numbers = Vec::with_capacity(alloc, members.len())?;
    for member in members {
        numbers.push(member_numbers(member))?;
    }
    Ok(numbers)
}

fn member_numbers<J: Judge>(member: &StandingMember<J>) -> ChannelNumbers
    ensures { result ≡ numbers_in member.now }
{
    match member {
        StandingMember::Own(own) => ChannelNumbers::Own(own_number(own.channel.as_ref())),
        StandingMember::Pipe(pipe) => ChannelNumbers::Pipe(pipe.out.number, pipe.back.number),
    }
}

fn own_number<J: Judge>(channel: Option<&StandingChannel<J>>) -> Option<u32>
    ensures { result ≡ option_map (λ (channel : HeldChannel J). channel.number)
        (option_copied channel.entry) }
{
    match channel {
        Some(channel) => Some(channel.number),
        None => None,
    }
}
