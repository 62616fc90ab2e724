use crate::opened::opened;
use crate::{Bench, Refused, net};
use outside_io::Gate;
use std::alloc::Global;
use std::process::Abort;
use std::sync::Wait;
use std::sync::atomic::{AtomicU64, Ordering};
use std::test::Fail;
use table_shared::{Done, UpdateFault};

const FULL: Refused = Refused::Table(UpdateFault::Full {
    cursor: 0,
    at: 0,
    head: 1,
});

/// A started cursor that has read nothing leaves no room in a journal of one cell, until it takes.
fn one_cell<R: Wait + Abort>(rt: &R, bench: &mut Bench, alloc: Global) -> Result<(), Fail> {
    let ten = net(10)?;
    assert_eq!(rt; bench.start(rt), Some(0));
    assert_eq!(rt; bench.first(rt, alloc, &ten, 100), Ok(Done::At(1)));
    assert_eq!(rt; bench.second(rt, alloc, &ten, 100), Err(FULL));
    assert_eq!(rt; bench.first(rt, alloc, &ten, 100), Ok(Done::Same { at: 1 }));
    assert_eq!(rt; bench.take(), Some(1));
    assert_eq!(rt; bench.take(), None);
    assert_eq!(rt; bench.second(rt, alloc, &ten, 100), Ok(Done::At(2)));
    Ok(())
}

#[test]
fn a_cursor_that_lags_leaves_no_room(rt: HostRuntime) -> Result<(), Fail> {
    let mut bench = opened(&rt, rt.alloc(), 1, 0)?;
    one_cell(&rt, &mut bench, rt.alloc())
}

/// A closed cursor lags too, until it skips.
fn closed<R: Wait + Abort>(rt: &R, bench: &mut Bench, alloc: Global) -> Result<(), Fail> {
    let ten = net(10)?;
    assert_eq!(rt; bench.first(rt, alloc, &ten, 100), Ok(Done::At(1)));
    assert_eq!(rt; bench.first(rt, alloc, &ten, 101), Err(FULL));
    assert_eq!(rt; bench.skip()?, Some(1));
    assert_eq!(rt; bench.first(rt, alloc, &ten, 101), Ok(Done::At(2)));
    assert_eq!(rt; bench.start(rt), Some(2));
    assert_eq!(rt; bench.take(), None);
    assert_eq!(rt; bench.first(rt, alloc, &ten, 102), Ok(Done::At(3)));
    let full = UpdateFault::Full {
        cursor: 0,
        at: 2,
        head: 3,
    };
    assert_eq!(rt;
        bench.first(rt, alloc, &ten, 103),
        Err(Refused::Table(full))
    );
    Ok(())
}

#[test]
fn a_closed_cursor_skips_what_a_port_has_seen(rt: HostRuntime) -> Result<(), Fail> {
    let mut bench = opened(&rt, rt.alloc(), 1, 0)?;
    closed(&rt, &mut bench, rt.alloc())
}

/// No position is left behind 2^63 - 1.
#[test]
fn the_last_position_ends_a_table(rt: HostRuntime) -> Result<(), Fail> {
    let last = (1 << 63) - 1;
    let mut bench = opened(&rt, rt.alloc(), 4, last)?;
    let ten = net(10)?;
    let ended = UpdateFault::Ended { head: last };
    assert_eq!(rt;
        bench.first(&rt, rt.alloc(), &ten, 100),
        Err(Refused::Table(ended))
    );
    Ok(())
}

/// A gate that counts who passes it behind a change.
#[derive(Drop)]
struct Passes {
    count: AtomicU64,
}

impl Gate for Passes {
    fn pass(&self, place: u32) {
        if place == 1 {
            self.count.fetch_add(1, Ordering::SeqCst);
        }
    }
}

/// The gate is passed once behind an entry, and behind no other answer.
fn passed<R: Wait + Abort>(rt: &R, bench: &mut Bench, alloc: Global) -> Result<(), Fail> {
    let ten = net(10)?;
    let gate = Passes {
        count: AtomicU64::new(0),
    };
    assert_eq!(rt; bench.start(rt), Some(0));
    assert_eq!(rt;
        bench.first_past(rt, &gate, alloc, &ten, 1),
        Ok(Done::At(1))
    );
    assert_eq!(rt; gate.count.load(Ordering::SeqCst), 1);
    let same = Done::Same { at: 1 };
    assert_eq!(rt; bench.first_past(rt, &gate, alloc, &ten, 1), Ok(same));
    assert_eq!(rt; bench.first_past(rt, &gate, alloc, &ten, 2), Err(FULL));
    assert_eq!(rt; gate.count.load(Ordering::SeqCst), 1);
    Ok(())
}

#[test]
fn a_gate_is_passed_behind_each_entry(rt: HostRuntime) -> Result<(), Fail> {
    let mut bench = opened(&rt, rt.alloc(), 1, 0)?;
    passed(&rt, &mut bench, rt.alloc())
}
