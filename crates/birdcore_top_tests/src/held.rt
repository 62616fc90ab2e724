use crate::worked::{files, words};
use birdcore_top::Status;
use birdcore_top::top::top;
use outside_io::{Gate, MemShelf, MemSink};
use std::random::RandomSource;
use std::sync::Wait;
use std::sync::atomic::{AtomicBool, AtomicU64, Ordering};
use std::test::Fail;
use std::thread::{Threads, yield_now};

/// Two neighbours that send each other all.
const CONF: &str =
    "protocol bgp p1 { local as 65000; neighbor 192.0.2.1 as 65001; med metric on;\n  ipv4 { import all; export all; }; }\nprotocol bgp p2 { local as 65000; neighbor 192.0.2.2 as 65002; med metric on;\n  ipv4 { import all; export all; }; }\n";

/// The same, each over a table of its own, with a pipe between the two.
const PIPED: &str =
    "ipv4 table t;\nprotocol bgp p1 { local as 65000; neighbor 192.0.2.1 as 65001; med metric on;\n  ipv4 { import all; export all; }; }\nprotocol pipe k { peer table t; import all; export all; }\nprotocol bgp p2 { local as 65000; neighbor 192.0.2.2 as 65002; med metric on;\n  ipv4 { table t; import all; export all; }; }\n";

/// In its second phase the one announces two nets.
const SCRIPT: &str =
    "@p1 open 10.0.0.1\n@p2 open 10.0.0.2\nsync\n@p1 add 203.0.113.0/24 via 192.0.2.1 path 65001 origin igp\n@p1 add 198.51.100.0/24 via 192.0.2.1 path 65001 origin igp\n";

/// For how many turns an update is held at most.
const TURNS: u32 = 10_000_000;

/// Holds the second update, which has its table's lock, until entries were taken three times. Of
/// the first update's entry two channels make two takes, a pipe's direction for one, so a take that
/// waits for that lock, or for the thread that updates, makes the gate give up. Where one thread
/// does all lines, no update is held.
#[derive(Drop)]
struct HoldGate {
    updates: AtomicU64,
    takes: AtomicU64,
    has_held: AtomicBool,
    gave_up: AtomicBool,
}

impl HoldGate {
    fn new() -> HoldGate {
        HoldGate {
            updates: AtomicU64::new(0),
            takes: AtomicU64::new(0),
            has_held: AtomicBool::new(false),
            gave_up: AtomicBool::new(false),
        }
    }

    fn hold(&self) {
        self.has_held.store(true, Ordering::SeqCst);
        for _ in 0..TURNS {
            if self.takes.load(Ordering::SeqCst) >= 3 {
                return;
            }
            yield_now();
        }
        self.gave_up.store(true, Ordering::SeqCst);
    }
}

impl Gate for HoldGate {
    fn pass(&self, place: u32) {
        if place == 1 && self.updates.fetch_add(1, Ordering::SeqCst) == 1 {
            self.hold();
        }
        if place == 2 {
            self.takes.fetch_add(1, Ordering::SeqCst);
        }
    }
}

/// Runs the script over a configuration, with these words past a new gate.
fn run_held<T: RandomSource + Threads + Wait + Sync>(
    rt: &HostRuntime,
    threads: &T,
    conf: &str,
    texts: &[&str],
) -> Result<(Status, HoldGate), Fail> {
    let alloc = rt.alloc();
    let words = words(alloc, texts)?;
    let mut shelf = MemShelf::new(alloc, files(alloc, conf, SCRIPT)?);
    let mut sink = MemSink::new(alloc);
    let gate = HoldGate::new();
    let status = top(threads, alloc, &words, &mut shelf, &mut sink, &gate);
    Ok((status, gate))
}

#[test]
fn channels_take_entries_while_an_update_has_its_table(rt: HostRuntime) -> Result<(), Fail> {
    for (conf, texts) in [
        (CONF, &["run", "conf", "script"][..]),
        (CONF, &["run", "conf", "script", "-q"][..]),
        (PIPED, &["run", "conf", "script"][..]),
    ] {
        let (status, gate) = run_held(&rt, &rt, conf, texts)?;
        assert_eq!(rt; status, Status::Ok);
        assert!(rt; gate.has_held.load(Ordering::SeqCst));
        assert!(rt; !gate.gave_up.load(Ordering::SeqCst));
    }
    Ok(())
}
