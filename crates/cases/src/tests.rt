use crate::unescape;

#[test]
fn escapes_are_bytes(rt: HostRuntime) {
    let alloc = rt.alloc();
    let table = [
        ("router id 10.0.0.1;", "router id 10.0.0.1;".as_bytes()),
        ("a\\nb\\t\\\\\\r", b"a\nb\t\\\r".as_slice()),
        ("\\x00\\xff", b"\x00\xff".as_slice()),
        ("\\3{ab}c", b"abababc".as_slice()),
        ("\\12{\\{}\\0{x}", b"{{{{{{{{{{{{".as_slice()),
    ];
    for (text, bytes) in table {
        let read = unescape(alloc, text.as_bytes());
        assert!(rt;
            matches!(&read, Ok(read) if read.as_slice() == bytes),
            "{text}"
        );
    }
}

#[test]
fn other_escapes_are_refused(rt: HostRuntime) {
    let alloc = rt.alloc();
    for text in ["\\", "\\q", "\\x1", "\\xg0", "\\3", "\\3{a", "\\3{\\q}"] {
        assert!(rt; unescape(alloc, text.as_bytes()).is_err(), "{text}");
    }
}
