use outside_io::{MemFile, MemShelf, Shelf};
use std::alloc::Global;
use std::test::Fail;

fn two_files(alloc: Global) -> Result<Vec<MemFile>, Fail> {
    let mut files = Vec::new(alloc);
    for name in ["a", "b"] {
        let name = String::from_str(alloc, name)?;
        files.push(MemFile::new(name, b"abc".to_vec(alloc)?))?;
    }
    Ok(files)
}

/// The faults of the first file, of the second, and of all other names.
fn counts(shelf: &MemShelf) -> [u64; 3] {
    match shelf.files.as_slice() {
        [first, second] => [first.faults, second.faults, shelf.missing],
        _ => [0; 3],
    }
}

#[test]
fn a_fault_counts_under_its_name(rt: HostRuntime) -> Result<(), Fail> {
    let alloc = rt.alloc();
    let mut shelf = MemShelf::new(alloc, two_files(alloc)?);
    for call in [2, 3, 5] {
        shelf.failing.push(call)?;
    }
    let calls = [
        ("a", [0, 0, 0]),
        ("a", [1, 0, 0]),
        ("b", [1, 1, 0]),
        ("c", [1, 1, 1]),
        ("d", [1, 1, 2]),
        ("b", [1, 1, 2]),
    ];
    let mut buf = [0u8; 2];
    for (name, wanted) in calls {
        let _ = shelf.read_at(name, 0, &mut buf);
        assert_eq!(rt; counts(&shelf), wanted, "behind {name}");
    }
    assert_eq!(rt; shelf.faults, 4);
    assert_eq!(rt; shelf.calls, 6);
    Ok(())
}
