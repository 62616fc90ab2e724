//! Writes the report of a phase, and the last line.
ghost use Rattle.std.specs.Prelude.{◌≡◌, ◌⊎◌, ◌≤◌, Err, codes, IfErr, OnOk};
ghost use Rattle.std.specs.Io.KnownBytes.{Appends, Keeps};
ghost use Rattle.outside_io.specs.Faults.{Rose};
ghost use Rattle.outside_io.specs.Whole.{WritesFront};
ghost use Rattle.report.specs.Report.{text_in};
ghost use Rattle.phases_out.specs.Inside.{CutsOff};

use crate::ending::Ending;
use outside_io::{Block, Failed, Sink, Stream, write_whole};
use report::{Form, PhaseReport, text_in};
use std::alloc::Global;

/// Writes the report of one phase. Memory is wanted for a block alone, before anything is written.
pub(crate) fn write_phase<K: Sink>(
    alloc: Global,
    form: Form,
    report: &PhaseReport,
    out: &mut K,
) -> Result<(), Ending>
    ensures whole { OnOk result
        (Appends (K.contents out.old) (K.contents out.new) (text_in form report.now)) }
    ensures cut { IfErr result CutsOff }
    ensures front { result ≡ Err Ending.SinkFailed
        → WritesFront (K.contents out.old) (K.contents out.new) (text_in form report.now) }
    ensures nothing { result ≡ Err Ending.OutOfMemory
        → Keeps (K.contents out.old) (K.contents out.new) }
    ensures write { result ≡ Err Ending.SinkFailed → Rose (K.faults out.old) (K.faults out.new) }
    ensures later { K.faults out.old ≤ K.faults out.new }
{
    let mut stream = Stream::new(Block::make(alloc)?, out);
    match text_in(form, report, &mut stream) {
        Ok(()) => {}
        Err(never) => match never {},
    }
    let finished = stream.finish();
    let sink = stream.into_sink();
    // No effect at run time: from this use the proof reads what the sink holds.
    let _ = &*sink;
    match finished {
        Ok(()) => Ok(()),
        Err(Failed) => Err(Ending::SinkFailed),
    }
}

/// Writes the last line of all.
pub(crate) fn write_end<K: Sink>(out: &mut K) -> Ending
    ensures end { (result ≡ Ending.Written) ⊎ (result ≡ Ending.SinkFailed) }
    ensures whole { result ≡ Ending.Written
        → Appends (K.contents out.old) (K.contents out.new) (codes "end\n") }
    ensures front { result ≡ Ending.SinkFailed
        → WritesFront (K.contents out.old) (K.contents out.new) (codes "end\n") }
    ensures write { result ≡ Ending.SinkFailed → Rose (K.faults out.old) (K.faults out.new) }
{
    match write_whole(out, b"end\n") {
        Ok(()) => Ending::Written,
        Err(Failed) => Ending::SinkFailed,
    }
}
