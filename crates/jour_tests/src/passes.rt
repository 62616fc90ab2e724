use crate::single::Single;
use crate::words_of;
use std::test::Fail;

/// What passes have seen: they learn a head alone, and the list from who has seen it.
#[test]
fn a_pass_sees_what_it_takes_in(rt: HostRuntime) -> Result<(), Fail> {
    let mut journal = Single::open(&rt, rt.alloc(), 4)?;
    assert!(rt; journal.put(words_of(1).words()) == Ok(1));
    assert!(rt; journal.put(words_of(2).words()) == Ok(2));
    assert!(rt; journal.learn() == (2, 0));
    assert!(rt; journal.share()? == 2);
    assert!(rt; journal.learn() == (2, 2));
    assert!(rt; journal.share_back()? == 2);
    Ok(())
}

/// Each seat splits off a pass that has seen as much, with ample memory.
#[test]
fn each_seat_gives_a_pass(rt: HostRuntime) -> Result<(), Fail> {
    let mut journal = Single::open(&rt, rt.alloc(), 4)?;
    assert!(rt; journal.given()? == [0, 0, 0, 0]);
    assert!(rt; journal.put(words_of(1).words()) == Ok(1));
    assert!(rt; journal.given()? == [1, 1, 0, 0]);
    assert!(rt; journal.start() == Some(1));
    assert!(rt; journal.given()? == [1, 1, 0, 1]);
    Ok(())
}

/// A cursor that meets a pass sees as much and knows the head, and stays where it is.
#[test]
fn a_cursor_meets_a_pass(rt: HostRuntime) -> Result<(), Fail> {
    let mut journal = Single::open(&rt, rt.alloc(), 4)?;
    assert!(rt; journal.put(words_of(1).words()) == Ok(1));
    assert!(rt; journal.place() == (0, 0));
    assert!(rt; journal.meet() == 1);
    assert!(rt; journal.place() == (0, 1));
    assert!(rt; journal.given()? == [1, 1, 0, 0]);
    assert!(rt; journal.share()? == 1);
    assert!(rt; journal.meet() == 1);
    assert!(rt; journal.given()? == [1, 1, 1, 1]);
    assert!(rt; journal.place() == (0, 1));
    Ok(())
}
