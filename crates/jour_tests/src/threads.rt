use crate::bench::Reader;
use crate::{Bench, Refused, words_of};
use jour_rule::buf::Buf;
use std::sync::Wait;
use std::test::Fail;
use std::thread;

/// Appends so many entries, and answers the last one's position.
fn append_all<R: Wait>(rt: &R, bench: &mut Bench, count: u64) -> u64 {
    for _ in rt.forever() {
        let next = bench.writer.head().saturating_add(1);
        if next > count {
            break;
        }
        match bench.put(words_of(next).words()) {
            Ok(_) => {}
            Err(Refused::Full(_)) => thread::yield_now(),
            Err(Refused::NotEntry) => break,
        }
    }
    bench.writer.head()
}

/// Takes so many entries, and answers how many had the words that were appended.
fn take_all<R: Wait>(rt: &R, cursor: &mut Reader, count: u64) -> u64 {
    let mut words = Buf::new();
    let mut right = 0u64;
    for _ in rt.forever() {
        if cursor.position() >= count {
            break;
        }
        let Some(at) = cursor.next(&mut words) else {
            thread::yield_now();
            continue;
        };
        cursor.advance();
        if words.words() == words_of(at).words() && cursor.position() == at {
            right = right.wrapping_add(1);
        }
    }
    right
}

/// One thread appends 20,000 entries over 64 cells, and two others read all of them.
#[test]
fn two_cursors_read_what_one_thread_appends(rt: HostRuntime) -> Result<(), Fail> {
    let Some((mut bench, mut cursors)) = Bench::open(rt.alloc(), 64, 2)? else {
        panic!(rt; "a journal without a maker")
    };
    let (Some(mut first), Some(mut second)) = (
        bench.start_one(&mut cursors),
        bench.start_one(&mut cursors),
    ) else {
        panic!(rt; "a journal without two cursors")
    };
    let (head, read) = thread::join(
        &rt,
        || append_all(&rt, &mut bench, 20000),
        || {
            thread::join(
                &rt,
                || take_all(&rt, &mut first, 20000),
                || take_all(&rt, &mut second, 20000),
            )
        },
    );
    assert!(rt; head == 20000);
    assert!(rt; read.0 == 20000 && read.1 == 20000);
    Ok(())
}
