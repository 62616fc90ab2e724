//! How many channels protocols have.
ghost use Rattle.std.specs.Prelude.{◌≡◌, ◌<◌, ◌^◌, ℕ, List, length, map};
ghost use Rattle.bits_ip.specs.declared.address.Family.{Family};
ghost use Rattle.core_setup.specs.Channels.{channels_from};
ghost use Rattle.room_first.specs.Inside.{own_channels};
ghost use Rattle.sys_run.specs.Parts.{protocol_seen};

use attrs::Judge;
use sys_run::{BodyParts, ProtocolParts};

/// How many channels all protocols have, among them the directions of pipes.
pub fn count_channels<J: Judge>(protocols: &[ProtocolParts<J>]) -> u32
    requires { length protocols.now < 2 ^ 30 }
    ensures { (tables : List (List ℕ × Family))
        → result ≡ length (channels_from tables 0 (map (protocol_seen J.verdict) protocols.now)) }
{
    let mut count: u32 = 0;
    for protocol in protocols {
        count += channels_of(&protocol.body);
    }
    count
}

/// How many a protocol has: a pipe has two, and any other one at most.
pub(crate) fn channels_of<J: Judge>(body: &BodyParts<J>) -> u32
    ensures { result ≡ own_channels body.now }
{
    match body {
        BodyParts::Source(source) => match &source.exports {
            Some(_) => 1,
            None => 0,
        },
        BodyParts::Pipe(_) => 2,
    }
}
