//! The protocols as they stand.
ghost use Rattle.std.specs.Prelude.{◌≡◌, ◌++◌, OnOk};
ghost use Rattle.std.specs.List.{flat_map};
ghost use Rattle.bits_ip.specs.Out.{Kept};
ghost use Rattle.report.specs.Report.{mode_line, mode_text, state_text};
ghost use Rattle.report.specs.declared.phase.ProtocolState.TheVariants.{Imports, Pipe};

use crate::phase::{ModeReport, ProtocolState};
use bits_ip::{TextOut, write_number};
use import_core::Mode;

/// Appends each protocol's mode.
pub(crate) fn write_modes<W: TextOut>(modes: &[ModeReport], out: &mut W) -> Result<(), W::Fault>
    ensures written { OnOk result
        (W.written out.new ≡ W.written out.old ++ flat_map mode_line modes.now) }
    ensures kept { Kept W.follows out.old out.new }
{
    for mode in modes {
        write_mode(mode, out)?;
    }
    Ok(())
}

fn write_mode<W: TextOut>(mode: &ModeReport, out: &mut W) -> Result<(), W::Fault>
    ensures written { OnOk result (W.written out.new ≡ W.written out.old ++ mode_line mode.now) }
    ensures kept { Kept W.follows out.old out.new }
{
    out.put(b"\tprotocol ")?;
    out.put(mode.name.as_slice())?;
    out.put(b" ")?;
    write_state(mode.state, out)?;
    out.put(b"\n")
}

fn write_state<W: TextOut>(state: ProtocolState, out: &mut W) -> Result<(), W::Fault>
    ensures written { OnOk result (W.written out.new ≡ W.written out.old ++ state_text state) }
    ensures kept { Kept W.follows out.old out.new }
{
    match state {
        ProtocolState::Imports(mode, accepted) => write_imports(mode, accepted, out),
        ProtocolState::Pipe(up) => out.put(pipe_word(up).as_bytes()),
    }
}

/// A mode, and how many nets are accepted.
fn write_imports<W: TextOut>(mode: Mode, accepted: u64, out: &mut W) -> Result<(), W::Fault>
    ensures written { OnOk result
        (W.written out.new ≡ W.written out.old ++ state_text (Imports mode accepted)) }
    ensures kept { Kept W.follows out.old out.new }
{
    out.put(mode_word(mode).as_bytes())?;
    out.put(b" ")?;
    write_number(accepted, out)
}

fn pipe_word(up: bool) -> &'static str
    ensures { result.now ≡ state_text (Pipe up) }
{
    if up { "up" } else { "down" }
}

fn mode_word(mode: Mode) -> &'static str
    ensures { result.now ≡ mode_text mode }
{
    match mode {
        Mode::Idle => "idle",
        Mode::Up => "up",
        Mode::Disabled => "disabled",
        Mode::Limited => "limited",
    }
}
