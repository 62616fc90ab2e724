//! Which scripts threads can run.
ghost use Rattle.std.specs.Prelude.{◌≡◌, ◌<◌, ◌^◌, length, true};
ghost use Rattle.std.specs.List.{All};
ghost use Rattle.script_lines.specs.declared.script.Line.{Line as HeldLine};
ghost use Rattle.std.specs.declared.alloc.Global.{Global};
ghost use Rattle.std.specs.declared.vec.Vec.{Vec};
ghost use Rattle.sys_threads.specs.Inside.{AreFew, HasSeats};
ghost use Rattle.sys_threads.specs.Playing.{setup_lent};
ghost use Rattle.sys_threads.specs.Running.{IsFew};

use crate::parts::LentParts;
use attrs::Judge;
use room_first::count_channels;
use script_lines::Line;
use sys_run::ProtocolParts;

/// Whether threads can run these phases of a script with so many actors: there are seats for all.
pub fn can_run<J: Judge>(parts: &LentParts<'_, J>, actors: usize, phases: &[Vec<Line>]) -> bool
    ensures few { result ≡ true → IsFew (setup_lent J.verdict parts.now) actors }
    ensures short { result ≡ true
        → All (λ (phase : Vec HeldLine Global). length phase.items < 2 ^ 32) phases.now }
{
    let seated = has_seats(parts, actors);
    let few = are_few(parts.protocols);
    let short = are_short(phases);
    seated & few & short
}

/// Whether a room has seats for tables and actors.
fn has_seats<J: Judge>(parts: &LentParts<'_, J>, actors: usize) -> bool
    ensures { result ≡ true → HasSeats parts.now actors }
{
    let held = (0 < parts.cells) & (parts.cells <= 4096);
    let listed = (parts.tables.len() <= 1024) & (actors < 1024);
    held & listed
}

/// Whether a room has seats for protocols and for their channels.
fn are_few<J: Judge>(protocols: &[ProtocolParts<J>]) -> bool
    ensures { result ≡ true → AreFew J.verdict protocols.now }
{
    if protocols.len() <= 512 {
        count_channels(protocols) <= 512
    } else {
        false
    }
}

fn are_short(phases: &[Vec<Line>]) -> bool
    ensures { result ≡ true
        → All (λ (phase : Vec HeldLine Global). length phase.items < 2 ^ 32) phases.now }
{
    phases.iter().all(|phase| is_short(phase))
}

/// Whether the places of its lines are numbers of 32 bits.
fn is_short(phase: &Vec<Line>) -> bool
    ensures { result ≡ true → length phase.now.items < 2 ^ 32 }
{
    phase.len() <= u32::MAX as usize
}
