use crate::worked::{CONF, SCRIPT, files};
use birdcore_top::Status;
use birdcore_top::top::top;
use outside_io::{MemShelf, MemSink, OpenGate};
use std::test::Fail;

#[test]
fn no_words_at_all_are_refused(rt: HostRuntime) -> Result<(), Fail> {
    let alloc = rt.alloc();
    let mut shelf = MemShelf::new(alloc, files(alloc, CONF, SCRIPT)?);
    let mut sink = MemSink::new(alloc);
    let status = top(&rt, alloc, &[], &mut shelf, &mut sink, &OpenGate);
    assert_eq!(rt; status, Status::Usage);
    assert_eq!(rt; sink.bytes.len(), 0);
    Ok(())
}
