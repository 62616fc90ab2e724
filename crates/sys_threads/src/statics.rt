//! Which protocols start in the first phase.
ghost use Rattle.std.specs.Prelude.{◌≡◌, ◌<◌, ◌^◌, ℕ, [], IfOk, OnOk, length, map};
ghost use Rattle.std.specs.List.{All};
ghost use Rattle.core_setup.specs.Protocols.{starts_from};
ghost use Rattle.room_ends.specs.Played.{starts_of};
ghost use Rattle.sys_run.specs.Parts.{protocol_seen};
ghost use Rattle.sys_threads.specs.Inside.{begins, with_number};

use attrs::{Judge, Kind};
use bits_ip::OutOfMemory;
use std::alloc::Global;
use sys_run::{BodyParts, ProtocolParts};

/// The numbers of static protocols, in their order.
pub(crate) fn statics_of<J: Judge>(
    alloc: Global,
    protocols: &[ProtocolParts<J>],
) -> Result<Vec<u32>, OutOfMemory>
    requires { length protocols.now < 2 ^ 32 }
    ensures starts { IfOk result (λ numbers. starts_of numbers.items
        ≡ starts_from 0 (map (protocol_seen J.verdict) protocols.now) []) }
    ensures there { IfOk result (λ numbers.
        All (λ (number : ℕ). number < length protocols.now) numbers.items) }
{
    let mut numbers = Vec::new(alloc);
    for (number, protocol) in protocols.iter().enumerate() {
        push_start(&mut numbers, number as u32, &protocol.body)?;
    }
    Ok(numbers)
}

fn push_start<J: Judge>(
    numbers: &mut Vec<u32>,
    number: u32,
    body: &BodyParts<J>,
) -> Result<(), OutOfMemory>
    ensures { OnOk result (numbers.new.items
        ≡ with_number (begins body.now) number numbers.old.items) }
{
    if starts(body) {
        numbers.push(number)?;
    }
    Ok(())
}

/// Whether it begins with a start.
fn starts<J: Judge>(body: &BodyParts<J>) -> bool
    ensures { result ≡ begins body.now }
{
    match body {
        BodyParts::Source(source) => source.spec.kind == Kind::Static,
        BodyParts::Pipe(_) => false,
    }
}
