use crate::opened::opened;
use crate::{Bench, Race, net};
use attrs::Select;
use std::alloc::Global;
use std::process::Abort;
use std::sync::Wait;
use std::test::Fail;
use table_shared::Done;

/// Two sources announce one net, and one of them twice the same.
fn two_routes<R: Wait + Abort>(rt: &R, bench: &mut Bench, alloc: Global) -> Result<(), Fail> {
    let ten = net(10)?;
    assert_eq!(rt; bench.start_with_port(rt), Some((0, 0)));
    assert_eq!(rt; bench.first(rt, alloc, &ten, 100), Ok(Done::At(1)));
    assert_eq!(rt; bench.second(rt, alloc, &ten, 100), Ok(Done::At(2)));
    assert_eq!(rt;
        bench.second(rt, alloc, &ten, 100),
        Ok(Done::Same { at: 2 })
    );
    assert_eq!(rt; bench.share(), 2);
    assert_eq!(rt; bench.meet(), 2);
    Ok(())
}

/// What the table shows of them: a row of two routes.
fn shown<R: Wait + Abort>(rt: &R, bench: &mut Bench) -> Result<(), Fail> {
    let view = bench.snapshot(rt, &Select::All)?;
    assert_eq!(rt; (view.at, view.total, view.rows.len()), (2, 2, 1));
    let Some(chunk) = bench.feed(rt, None, 1)? else {
        panic!(rt; "a closed cursor")
    };
    assert_eq!(rt; (chunk.at, chunk.rows.len(), chunk.more), (2, 1, false));
    assert!(rt; chunk.upto.is_none());
    Ok(())
}

/// The cursor takes both changes, as records.
fn taken<R: Wait + Abort>(rt: &R, bench: &mut Bench, alloc: Global) -> Result<(), Fail> {
    let ten = net(10)?;
    for num in 0..2u32 {
        let Some((at, said)) = bench.take_record(alloc)? else {
            panic!(rt; "a cursor without an entry")
        };
        assert_eq!(rt; (at, said.num), (u64::from(num) + 1, num));
        assert!(rt; said.net == ten && said.new.is_some() && said.best.is_some());
    }
    assert_eq!(rt; bench.take(), None);
    Ok(())
}

#[test]
fn a_phase_has_each_change_once(rt: HostRuntime) -> Result<(), Fail> {
    let mut bench = opened(&rt, rt.alloc(), 4, 0)?;
    two_routes(&rt, &mut bench, rt.alloc())?;
    shown(&rt, &mut bench)?;
    taken(&rt, &mut bench, rt.alloc())?;
    let phase = bench.close(&rt, rt.alloc())?;
    assert_eq!(rt; (phase.from, phase.entries.len()), (0, 2));
    assert_eq!(rt; phase.ports.as_slice(), [0, 1].as_slice());
    Ok(())
}

/// A cursor that is started where it stands takes an entry that was there already. Once it is told
/// of the closed table it takes the others, and then none.
#[test]
fn a_cursor_takes_the_rest_of_a_closed_table(rt: HostRuntime) -> Result<(), Fail> {
    let mut bench = opened(&rt, rt.alloc(), 4, 7)?;
    for place in 1..4 {
        let net = net(place)?;
        assert!(rt; bench.first(&rt, rt.alloc(), &net, 100).is_ok());
    }
    assert_eq!(rt; bench.start_here(), Some(7));
    assert_eq!(rt; bench.take(), Some(8));
    let taken = bench.take_closed(&rt);
    assert!(rt; taken == (10, [Some(9), Some(10), None]));
    Ok(())
}

/// Three nets in parts of two rows.
fn parts<R: Wait + Abort>(rt: &R, bench: &mut Bench) -> Result<(), Fail> {
    let third = net(3)?;
    let Some(chunk) = bench.feed(rt, None, 2)? else {
        panic!(rt; "a closed cursor")
    };
    assert_eq!(rt; (chunk.at, chunk.rows.len(), chunk.more), (3, 2, true));
    assert!(rt; chunk.upto == Some(third));
    let Some(rest) = bench.feed(rt, Some(&third), 2)? else {
        panic!(rt; "a closed cursor")
    };
    assert_eq!(rt; (rest.at, rest.rows.len(), rest.more), (3, 1, false));
    Ok(())
}

#[test]
fn a_table_is_fed_in_parts(rt: HostRuntime) -> Result<(), Fail> {
    let mut bench = opened(&rt, rt.alloc(), 4, 0)?;
    for place in 1..4 {
        let net = net(place)?;
        assert!(rt; bench.first(&rt, rt.alloc(), &net, 100).is_ok());
    }
    assert_eq!(rt; bench.start(&rt), Some(3));
    parts(&rt, &mut bench)
}

/// Two threads enter 500,000 changes each over 4,096 cells, and two cursors take all 1,000,000, as
/// the history has them.
#[test]
fn cursors_take_what_two_threads_enter(rt: HostRuntime) -> Result<(), Fail> {
    let Some(race) = Race::open(rt.alloc(), 4096)? else {
        panic!(rt; "a table without its ports or its cursors")
    };
    let Some(raced) = race.run(&rt, rt.alloc(), 500_000)? else {
        panic!(rt; "a table that somebody else has")
    };
    assert!(rt; raced.entered == (500_000, 500_000));
    assert!(rt; raced.history.count == 1_000_000);
    assert!(rt; raced.left == raced.history && raced.right == raced.history);
    Ok(())
}
