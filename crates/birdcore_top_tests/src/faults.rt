ghost use Rattle.std.specs.Prelude.{[], Some};

use crate::worked::{CONF, REPORT, REPORT_OF_TWO_PHASES, SCRIPT, TWO_PHASES, files, words};
use birdcore_top::Status;
use birdcore_top::surely::do_surely;
use birdcore_top::top::top;
use outside_io::{Failed, MemShelf, MemSink, OpenGate, Sink, SureShelf};
use std::io;
use std::random::RandomSource;
use std::sync::Wait;
use std::test::Fail;
use std::thread::Threads;

/// The status of the worked run over a shelf whose call of this number fails, what it wrote, and
/// how often the shelf was called.
fn played_with_a_fault<T: RandomSource + Threads + Wait + Sync>(
    rt: &HostRuntime,
    threads: &T,
    call: u64,
) -> Result<(Status, Vec<u8>, u64), Fail> {
    let alloc = rt.alloc();
    let words = words(alloc, &["play", "conf", "script"])?;
    let mut shelf = MemShelf::new(alloc, files(alloc, CONF, SCRIPT)?);
    shelf.failing.push(call)?;
    let mut sink = MemSink::new(alloc);
    let status = top(threads, alloc, &words, &mut shelf, &mut sink, &OpenGate);
    Ok((status, sink.bytes, shelf.calls))
}

#[test]
fn each_read_can_fail(rt: HostRuntime) -> Result<(), Fail> {
    let (status, text, calls) = played_with_a_fault(&rt, &rt, 0)?;
    assert_eq!(rt; status, Status::Ok);
    assert_eq!(rt; text.as_slice(), REPORT.as_bytes());
    // Each of the two files takes a read at least.
    assert!(rt; calls >= 2);
    for done in 0..calls {
        let (status, text, _) = played_with_a_fault(&rt, &rt, done + 1)?;
        assert_eq!(rt; status, Status::ReadFault, "behind {done}");
        assert_eq!(rt; text.len(), 0);
    }
    Ok(())
}

/// Takes one byte a call, and fails where its sink does.
struct Slow {
    sink: MemSink,
}

impl Sink for Slow {
    ghost contents = { λ s. Some s.sink.bytes.items };

    ghost faults = { λ s. s.sink.faults };

    fn write(&mut self, piece: &[u8]) -> Result<usize, Failed> {
        self.sink.write(&piece[..piece.len().min(1)])
    }
}

/// The status of a script's run into a slow sink whose call of this number fails, and what it took.
fn written_slowly<T: RandomSource + Threads + Wait + Sync>(
    rt: &HostRuntime,
    threads: &T,
    script: &str,
    call: u64,
) -> Result<(Status, Vec<u8>), Fail> {
    let alloc = rt.alloc();
    let words = words(alloc, &["play", "conf", "script"])?;
    let mut shelf = SureShelf {
        files: files(alloc, CONF, script)?,
    };
    let mut sink = MemSink::new(alloc);
    sink.failing.push(call)?;
    let mut slow = Slow { sink };
    let status = top(threads, alloc, &words, &mut shelf, &mut slow, &OpenGate);
    let Slow { sink } = slow;
    Ok((status, sink.bytes))
}

/// Behind how many bytes a fault leaves anything but these bytes of the report.
fn other_front<T: RandomSource + Threads + Wait + Sync>(
    rt: &HostRuntime,
    threads: &T,
    script: &str,
    report: &str,
) -> Result<Option<usize>, Fail> {
    for taken in 0..report.len() {
        let (status, text) = written_slowly(rt, threads, script, taken as u64 + 1)?;
        if status != Status::WriteFault || text.as_slice() != &report.as_bytes()[..taken] {
            return Ok(Some(taken));
        }
    }
    Ok(None)
}

/// A fault in a phase leaves no `end` behind the phases before it, though the sink takes more.
#[test]
fn a_slow_sink_gets_the_report_up_to_its_fault(rt: HostRuntime) -> Result<(), Fail> {
    for (script, report) in [(SCRIPT, REPORT), (TWO_PHASES, REPORT_OF_TWO_PHASES)] {
        assert_eq!(rt; other_front(&rt, &rt, script, report)?, None);
        let (status, text) = written_slowly(&rt, &rt, script, report.len() as u64 + 1)?;
        assert_eq!(rt; status, Status::Ok);
        assert_eq!(rt; text.as_slice(), report.as_bytes());
    }
    Ok(())
}

/// Takes nothing, which is a fault.
#[derive(Drop)]
struct Stuck {
    faults: u64,
}

impl Sink for Stuck {
    ghost contents = { λ s. Some [] };

    ghost faults = { λ s. s.faults };

    fn write(&mut self, _piece: &[u8]) -> Result<usize, Failed> {
        self.faults = self.faults.saturating_add(1);
        Ok(0)
    }
}

#[test]
fn a_sink_that_takes_nothing_is_a_write_fault(rt: HostRuntime) -> Result<(), Fail> {
    let alloc = rt.alloc();
    let words = words(alloc, &["play", "conf", "script"])?;
    let mut shelf = MemShelf::new(alloc, files(alloc, CONF, SCRIPT)?);
    let mut stuck = Stuck { faults: 0 };
    let status = top(&rt, alloc, &words, &mut shelf, &mut stuck, &OpenGate);
    assert_eq!(rt; status, Status::WriteFault);
    assert_eq!(rt; stuck.faults, 1);
    Ok(())
}

/// Starts threads, and has no bytes to give.
#[derive(Drop)]
struct Broken<T> {
    threads: T,
}

impl<T: Threads> Threads for Broken<T> {}

impl<T: Wait> Wait for Broken<T> {}

impl<T> RandomSource for Broken<T> {
    fn fill_bytes(&self, _buf: &mut [u8]) -> io::Result<()> {
        Err(io::Error::from_raw_os_error(5))
    }
}

#[test]
fn nothing_is_played_without_random_bytes(rt: HostRuntime) -> Result<(), Fail> {
    let alloc = rt.alloc();
    let words = words(alloc, &["play", "conf", "script"])?;
    let mut shelf = MemShelf::new(alloc, files(alloc, CONF, SCRIPT)?);
    let mut sink = MemSink::new(alloc);
    let status = top(
        &Broken { threads: &rt },
        alloc,
        &words,
        &mut shelf,
        &mut sink,
        &OpenGate,
    );
    assert_eq!(rt; status, Status::OutOfMemory);
    assert_eq!(rt; sink.bytes.len(), 0);
    Ok(())
}

#[test]
fn the_worked_run_over_what_never_fails_is_done(rt: HostRuntime) -> Result<(), Fail> {
    let alloc = rt.alloc();
    let words = words(alloc, &["play", "conf", "script"])?;
    let mut shelf = SureShelf {
        files: files(alloc, CONF, SCRIPT)?,
    };
    assert_eq!(rt; do_surely(&rt, alloc, &words, &mut shelf), Status::Ok);
    Ok(())
}
