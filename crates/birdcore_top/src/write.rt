//! What is written of a check.
ghost use Rattle.std.specs.Prelude.{◌≡◌, ◌⊎◌};
ghost use Rattle.std.specs.Io.KnownBytes.{Appends};
ghost use Rattle.outside_io.specs.Faults.{Rose};
ghost use Rattle.outside_io.specs.Whole.{WritesFront};
ghost use Rattle.birdcore_top.specs.Written.{accepted_text};

use crate::status::Status;
use outside_io::{Failed, Sink, write_whole};

/// Writes that what was checked is accepted.
pub(crate) fn write_accepted<K: Sink>(out: &mut K) -> Status
    ensures end { (result ≡ Status.Ok) ⊎ (result ≡ Status.WriteFault) }
    ensures whole { result ≡ Status.Ok
        → Appends (K.contents out.old) (K.contents out.new) accepted_text }
    ensures front { result ≡ Status.WriteFault
        → WritesFront (K.contents out.old) (K.contents out.new) accepted_text }
    ensures write { result ≡ Status.WriteFault → Rose (K.faults out.old) (K.faults out.new) }
{
    match write_whole(out, b"ok\n") {
        Ok(()) => Status::Ok,
        Err(Failed) => Status::WriteFault,
    }
}
