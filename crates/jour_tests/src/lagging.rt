use crate::single::Single;
use crate::{Refused, words_of};
use jour::room::Lag;
use jour_rule::buf::Buf;
use std::test::Fail;

/// A closed cursor of a journal of one cell lags at once. It skips what the maker has seen, and
/// once it is started at the head it lags again by the entry after that.
#[test]
fn a_closed_cursor_leaves_no_room_until_it_skips(rt: HostRuntime) -> Result<(), Fail> {
    let mut journal = Single::open(&rt, rt.alloc(), 1)?;
    let first = Lag {
        cursor: 0,
        at: 0,
        head: 1,
    };
    assert!(rt; journal.put(words_of(1).words()) == Ok(1));
    assert!(rt; journal.put(words_of(2).words()) == Err(Refused::Full(first)));
    assert!(rt; journal.skip()? == Some(1));
    assert!(rt; journal.put(words_of(2).words()) == Ok(2));
    assert!(rt; journal.start() == Some(2));
    let mut words = Buf::new();
    assert!(rt; journal.next(&mut words).is_none());
    assert!(rt; journal.put(words_of(3).words()) == Ok(3));
    let second = Lag {
        cursor: 0,
        at: 2,
        head: 3,
    };
    assert!(rt; journal.put(words_of(4).words()) == Err(Refused::Full(second)));
    Ok(())
}

/// A cursor that takes an entry makes room for one.
#[test]
fn a_take_makes_room(rt: HostRuntime) -> Result<(), Fail> {
    let mut journal = Single::open(&rt, rt.alloc(), 1)?;
    assert!(rt; journal.start() == Some(0));
    let mut words = Buf::new();
    for position in 1..50u64 {
        assert!(rt; journal.put(words_of(position).words()) == Ok(position));
        assert!(rt; journal.put(words_of(position).words()).is_err());
        assert!(rt; journal.take(&mut words) == Some(position));
        assert!(rt; words.words() == words_of(position).words());
    }
    assert!(rt; journal.next(&mut words).is_none());
    Ok(())
}

/// A cursor that is started where it stands takes what was there before it was.
#[test]
fn a_cursor_started_where_it_stands_lags(rt: HostRuntime) -> Result<(), Fail> {
    let mut journal = Single::open(&rt, rt.alloc(), 2)?;
    assert!(rt; journal.put(words_of(1).words()) == Ok(1));
    assert!(rt; journal.put(words_of(2).words()) == Ok(2));
    assert!(rt; journal.start_here() == Some(0));
    assert!(rt; journal.start().is_none());
    assert!(rt; journal.place() == (0, 0));
    let mut words = Buf::new();
    assert!(rt; journal.take(&mut words) == Some(1));
    assert!(rt; words.words() == words_of(1).words());
    assert!(rt; journal.take(&mut words) == Some(2));
    assert!(rt; journal.take(&mut words).is_none());
    Ok(())
}

/// A cursor that is told of the list stays where it is, and takes all of it.
#[test]
fn a_cursor_that_is_told_takes_the_list(rt: HostRuntime) -> Result<(), Fail> {
    let mut journal = Single::open(&rt, rt.alloc(), 4)?;
    assert!(rt; journal.start() == Some(0));
    for position in 1..4u64 {
        assert!(rt; journal.put(words_of(position).words()) == Ok(position));
    }
    assert!(rt; journal.place() == (0, 0));
    assert!(rt; journal.tell() == 3);
    assert!(rt; journal.place() == (0, 3));
    assert!(rt; journal.given()? == [3, 3, 0, 3]);
    let mut words = Buf::new();
    for position in 1..4u64 {
        assert!(rt; journal.take(&mut words) == Some(position));
        assert!(rt; words.words() == words_of(position).words());
    }
    assert!(rt; journal.take(&mut words).is_none());
    Ok(())
}

/// A cursor that is closed and started again goes on at the head, and skips what is between.
#[test]
fn a_cursor_started_again_stands_at_the_head(rt: HostRuntime) -> Result<(), Fail> {
    let mut journal = Single::open(&rt, rt.alloc(), 8)?;
    assert!(rt; journal.start() == Some(0));
    journal.close();
    for position in 1..6u64 {
        assert!(rt; journal.put(words_of(position).words()) == Ok(position));
    }
    assert!(rt; journal.place() == (0, 0));
    assert!(rt; journal.start() == Some(5));
    let mut words = Buf::new();
    assert!(rt; journal.take(&mut words).is_none());
    Ok(())
}
