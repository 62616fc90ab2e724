//! The journals of a protocol's turns and of a channel's marks, as a phase begins.
ghost use Rattle.std.specs.Prelude.{◌≡◌, ◌≤◌, [], vec_len, IfOk};
ghost use Rattle.jour.specs.Seats.{AreMakers, front, journal, number_of, own};
ghost use Rattle.phase_room.specs.Journals.{marks_terms, turns_terms};

use bits_ip::OutOfMemory;
use import_lock::{Hand, Marks, Stamp, Turns};
use jour::make::make;
use jour_rule::law::OfMakers;
use std::alloc::Global;

/// The journal of a protocol's turns, and a hand for each actor, numbered from 0 on, with one more
/// for starts.
pub fn open_turns(alloc: Global, hands: u32) -> Result<(Turns, Vec<Hand>), OutOfMemory>
    requires few { hands ≤ 1024 }
    ensures terms { IfOk result (λ made. made.0.1.seen.terms ≡ turns_terms hands) }
    ensures unturned { IfOk result (λ made. front made.0.1 ≡ []) }
    ensures hands { IfOk result (λ made. (vec_len made.1 ≡ hands)
        × AreMakers (journal made.0) made.1.items) }
{
    let (turns, _cursors, hands, _pass) = make::<u64, OfMakers>(
        alloc,
        1,
        0,
        hands,
        0,
        u64::from(hands),
    )?;
    Ok((turns, hands))
}

/// The journal of a channel's marks, and its stamp.
pub fn open_marks(alloc: Global) -> Result<(Marks, Stamp), OutOfMemory>
    ensures terms { IfOk result (λ made. made.0.1.seen.terms ≡ marks_terms) }
    ensures unmarked { IfOk result (λ made. front made.0.1 ≡ []) }
    ensures stamp { IfOk result (λ made. (journal made.1 ≡ journal made.0)
        × (number_of made.1.1.role ≡ 0) × (own made.1.1 ≡ [])) }
{
    let (marks, _cursors, mut stamps, _pass) = make::<u64, OfMakers>(alloc, 1, 0, 1, 0, 1)?;
    match stamps.pop() {
        Some(stamp) => Ok((marks, stamp)),
        None => unreachable!(),
    }
}
