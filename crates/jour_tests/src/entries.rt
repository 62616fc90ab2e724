use crate::single::Single;
use crate::words_of;
use jour_rule::buf::Buf;
use std::test::Fail;

/// A started cursor takes each entry once, in order and with its words, and then none.
#[test]
fn a_cursor_takes_the_entries_in_order(rt: HostRuntime) -> Result<(), Fail> {
    let mut journal = Single::open(&rt, rt.alloc(), 4)?;
    assert!(rt; journal.start() == Some(0));
    for position in 1..4u64 {
        assert!(rt; journal.put(words_of(position).words()) == Ok(position));
    }
    let mut words = Buf::new();
    for position in 1..4u64 {
        assert!(rt; journal.take(&mut words) == Some(position));
        assert!(rt; words.words() == words_of(position).words());
        assert!(rt; journal.place() == (position, 3));
    }
    assert!(rt; journal.take(&mut words).is_none());
    assert!(rt; journal.place() == (3, 3));
    Ok(())
}

/// The next entry is the same one until the cursor moves.
#[test]
fn the_next_entry_stays_until_the_cursor_moves(rt: HostRuntime) -> Result<(), Fail> {
    let mut journal = Single::open(&rt, rt.alloc(), 4)?;
    assert!(rt; journal.put(words_of(1).words()) == Ok(1));
    assert!(rt; journal.put(words_of(2).words()) == Ok(2));
    let mut words = Buf::new();
    assert!(rt; journal.next(&mut words) == Some(1));
    assert!(rt; journal.next(&mut words) == Some(1));
    assert!(rt; words.words() == words_of(1).words());
    assert!(rt; journal.take(&mut words) == Some(1));
    assert!(rt; journal.take(&mut words) == Some(2));
    Ok(())
}

/// Entries of one word and of 256.
#[test]
fn the_shortest_and_the_longest_entry(rt: HostRuntime) -> Result<(), Fail> {
    let mut journal = Single::open(&rt, rt.alloc(), 2)?;
    let mut long = [7u64; 256];
    long[0] = 65536 + 256;
    assert!(rt; journal.put([1].as_slice()) == Ok(1));
    assert!(rt; journal.put(long.as_slice()) == Ok(2));
    let mut words = Buf::new();
    assert!(rt; journal.take(&mut words) == Some(1));
    assert!(rt; words.words() == [1].as_slice());
    assert!(rt; journal.take(&mut words) == Some(2));
    assert!(rt; words.words() == long.as_slice());
    assert!(rt; journal.put([2].as_slice()).is_err());
    Ok(())
}
