//! Code as it is emitted, from its end: the list has the last instruction first.

ghost use Rattle.std.specs.Prelude.{◌≡◌, ◌∷◌, OnOk};
ghost use Rattle.filt_compile.specs.Emits.{ahead};

use bits_ip::OutOfMemory;
use filt_code::Instr;

/// An instruction in front of what is there.
pub(crate) fn push<'a>(out: &mut Vec<Instr<'a>>, instr: Instr<'a>) -> Result<(), OutOfMemory>
    ensures { OnOk result (ahead out.new ≡ instr.entry ∷ ahead out.old) }
{
    out.push(instr)?;
    Ok(())
}
