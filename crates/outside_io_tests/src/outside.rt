use outside_io::{
    FileShelf, MemFile, MemShelf, MemSink, Shelf, Sink, StdSink, SureShelf, SureSink,
};
use std::alloc::Global;
use std::fs;
use std::test::Fail;

fn one_file(alloc: Global) -> Result<Vec<MemFile>, Fail> {
    let mut files = Vec::new(alloc);
    let name = String::from_str(alloc, "a")?;
    files.push(MemFile::new(name, b"abcdef".to_vec(alloc)?))?;
    Ok(files)
}

#[test]
fn a_shelf_in_memory_reads_and_fails_where_it_is_to(rt: HostRuntime) -> Result<(), Fail> {
    let alloc = rt.alloc();
    let mut shelf = MemShelf::new(alloc, one_file(alloc)?);
    shelf.failing.push(2)?;
    let mut buf = [0u8; 4];
    assert!(rt; shelf.read_at("a", 0, &mut buf) == Ok(4));
    assert_eq!(rt; buf, *b"abcd");
    assert!(rt; shelf.read_at("a", 4, &mut buf).is_err());
    assert!(rt; shelf.read_at("a", 4, &mut buf) == Ok(2));
    assert!(rt; shelf.read_at("a", 6, &mut buf) == Ok(0));
    assert!(rt; shelf.read_at("b", 0, &mut buf).is_err());
    assert_eq!(rt; shelf.faults, 2);
    Ok(())
}

#[test]
fn a_sure_shelf_never_fails(rt: HostRuntime) -> Result<(), Fail> {
    let alloc = rt.alloc();
    let mut shelf = SureShelf {
        files: one_file(alloc)?,
    };
    let mut buf = [0u8; 2];
    assert!(rt; shelf.read_at("a", 1, &mut buf) == Ok(2));
    assert_eq!(rt; buf, *b"bc");
    assert!(rt; shelf.read_at("b", 0, &mut buf) == Ok(0));
    Ok(())
}

#[test]
fn a_sink_in_memory_keeps_what_it_takes(rt: HostRuntime) -> Result<(), Fail> {
    let alloc = rt.alloc();
    let mut sink = MemSink::new(alloc);
    sink.failing.push(2)?;
    assert!(rt; sink.write(b"ab") == Ok(2));
    assert!(rt; sink.write(b"cd").is_err());
    assert!(rt; sink.write(b"ef") == Ok(2));
    assert_eq!(rt; sink.bytes.as_slice(), b"abef".as_slice());
    assert_eq!(rt; sink.faults, 1);
    assert!(rt; SureSink.write(b"gh") == Ok(2));
    Ok(())
}

#[test]
fn files_of_the_system_are_read(rt: HostRuntime) -> Result<(), Fail> {
    fs::write(&rt, "shelf-test", "abcdef")?;
    let mut shelf = FileShelf::new(&rt);
    let mut buf = [0u8; 4];
    assert!(rt; shelf.read_at("shelf-test", 3, &mut buf) == Ok(3));
    assert_eq!(rt; &buf[..3], b"def".as_slice());
    assert!(rt; shelf.read_at("no-such-file", 0, &mut buf).is_err());
    fs::remove_file(&rt, "shelf-test")?;
    Ok(())
}

#[test]
fn a_file_of_the_system_is_opened_once_a_reading(rt: HostRuntime) -> Result<(), Fail> {
    fs::write(&rt, "old-test", "abcdef")?;
    fs::write(&rt, "new-test", "uvwxyz")?;
    let mut shelf = FileShelf::new(&rt);
    let mut buf = [0u8; 2];
    assert!(rt; shelf.read_at("old-test", 0, &mut buf) == Ok(2));
    fs::rename(&rt, "new-test", "old-test")?;
    assert!(rt; shelf.read_at("old-test", 2, &mut buf) == Ok(2));
    assert_eq!(rt; buf, *b"cd");
    assert!(rt; shelf.read_at("old-test", 0, &mut buf) == Ok(2));
    assert_eq!(rt; buf, *b"uv");
    fs::remove_file(&rt, "old-test")?;
    Ok(())
}

#[test]
fn standard_output_takes_bytes(rt: HostRuntime) -> Result<(), Fail> {
    let mut sink = StdSink::new(&rt);
    assert!(rt; sink.write(b"").is_ok());
    assert!(rt; sink.write(b"\n") == Ok(1));
    Ok(())
}
