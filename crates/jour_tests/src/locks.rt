use keyed_lock::{Keeps, Lock};
use std::sync::Wait;
use std::test::Fail;
use std::thread;

/// That nothing is known of the value.
struct Any;

impl Keeps<u64, ()> for Any {
    ghost keeps = { λ _ _. Unit {0} };
}

fn add_often<R: Wait>(rt: &R, lock: &Lock<u64, (), Any>) {
    for _ in 0..10000u32 {
        let (held, sum) = lock.lock(rt);
        lock.unlock(held, sum.wrapping_add(1));
    }
}

/// No sum of two threads is lost.
#[test]
fn two_threads_add(rt: HostRuntime) -> Result<(), Fail> {
    let lock = Lock::<u64, (), Any>::new(rt.alloc(), 0, &())?;
    thread::join(&rt, || add_often(&rt, &lock), || add_often(&rt, &lock));
    assert!(rt; lock.into_value(&rt) == 20000);
    Ok(())
}
