use outside_io::{MemFile, MemShelf, MemSink, ReadError, SureShelf, read_whole, write_whole};
use std::alloc::Global;
use std::test::Fail;

/// A file of this many bytes, which are all different from their neighbours'.
fn long_file(alloc: Global, len: usize) -> Result<MemFile, Fail> {
    let mut bytes = vec![in alloc; 0u8; len]?;
    for (place, byte) in bytes.iter_mut().enumerate() {
        *byte = (place % 251) as u8;
    }
    let name = String::from_str(alloc, "long")?;
    Ok(MemFile::new(name, bytes))
}

fn shelf_of(alloc: Global, len: usize) -> Result<MemShelf, Fail> {
    let mut files = Vec::new(alloc);
    files.push(long_file(alloc, len)?)?;
    Ok(MemShelf::new(alloc, files))
}

#[test]
fn a_file_is_read_by_blocks_to_its_end(rt: HostRuntime) -> Result<(), Fail> {
    let alloc = rt.alloc();
    for (len, calls) in [(0, 1), (1, 2), (65_536, 2), (65_537, 3), (200_000, 5)] {
        let mut shelf = shelf_of(alloc, len)?;
        let wanted = long_file(alloc, len)?;
        let read = read_whole(alloc, &mut shelf, "long");
        assert!(rt; read.is_ok_and(|bytes| bytes == wanted.bytes), "{len}");
        assert_eq!(rt; shelf.calls, calls, "{len}");
    }
    Ok(())
}

#[test]
fn each_read_of_a_file_can_fail(rt: HostRuntime) -> Result<(), Fail> {
    let alloc = rt.alloc();
    for call in 1..6 {
        let mut shelf = shelf_of(alloc, 200_000)?;
        shelf.failing.push(call)?;
        let read = read_whole(alloc, &mut shelf, "long");
        assert!(rt;
            read.is_err_and(|error| error == ReadError::Failed),
            "{call}"
        );
        assert_eq!(rt; shelf.calls, call);
    }
    let mut shelf = shelf_of(alloc, 1)?;
    let read = read_whole(alloc, &mut shelf, "short");
    assert!(rt; read.is_err_and(|error| error == ReadError::Failed));
    Ok(())
}

#[test]
fn a_file_over_the_limit_is_too_long(rt: HostRuntime) -> Result<(), Fail> {
    let alloc = rt.alloc();
    for (len, long) in [(16_777_216, false), (16_777_217, true)] {
        let mut files = Vec::new(alloc);
        files.push(long_file(alloc, len)?)?;
        let mut shelf = SureShelf { files };
        match read_whole(alloc, &mut shelf, "long") {
            Ok(bytes) => assert!(rt; !long && bytes.len() == len),
            Err(error) => assert!(rt; long && error == ReadError::TooLong),
        }
    }
    Ok(())
}

#[test]
fn a_text_is_written_by_blocks(rt: HostRuntime) -> Result<(), Fail> {
    let alloc = rt.alloc();
    let text = long_file(alloc, 200_000)?;
    for (failing, taken, is_ok) in [
        (1, 0, false),
        (2, 65_536, false),
        (4, 196_608, false),
        (5, 200_000, true),
    ] {
        let mut sink = MemSink::new(alloc);
        sink.failing.push(failing)?;
        let written = write_whole(&mut sink, &text.bytes);
        assert_eq!(rt; written.is_ok(), is_ok, "{failing}");
        assert_eq!(rt; sink.bytes.len(), taken, "{failing}");
        assert!(rt; text.bytes.starts_with(sink.bytes.as_slice()), "{failing}");
    }
    Ok(())
}
