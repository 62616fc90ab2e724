use crate::samples::{learned, path, route};
use attrs::{Attrs, Dest, Kind, Origin};
use bits_ip::Addr;
use std::alloc::Global;
use std::test::Fail;

#[test]
fn copies_are_the_same(rt: HostRuntime) -> Result<(), Fail> {
    let alloc = rt.alloc();
    let original = route(alloc, 1, learned(alloc)?)?;
    let copy = original.copy()?;
    assert!(rt; copy == original);
    assert!(rt; copy.is_same(&original));
    assert!(rt; copy.attrs.is_same(&original.attrs.copy()?));
    assert_eq!(rt;
        copy.attrs.path.copy()?.as_slice(),
        [65001, 65002].as_slice()
    );
    assert!(rt; copy.attrs.coms.copy()?.is_empty());
    Ok(())
}

/// The learned attributes with another value in one field.
fn changed(alloc: Global, field: u8) -> Result<Attrs, Fail> {
    let mut attrs = learned(alloc)?;
    match field {
        0 => attrs.pref = 101,
        1 => attrs.kind = Kind::Static,
        2 => attrs.dest = Dest::Unreachable,
        3 => attrs.gw = None,
        4 => attrs.sender = Some(Addr::V6(0xC000_0201)),
        5 => attrs.peer_id = 0x0A00_0002,
        6 => attrs.ebgp = false,
        7 => attrs.path = path(alloc, &[65002, 65001])?,
        8 => attrs.origin = Some(Origin::Egp),
        9 => attrs.next_hop = Some(Addr::V4(0xC000_0202)),
        10 => attrs.med = Some(0),
        11 => attrs.lp = Some(101),
        12 => attrs.igp = Some(0),
        _ => attrs.coms.add(65000, 1)?,
    }
    Ok(attrs)
}

#[test]
fn each_changed_field_is_seen(rt: HostRuntime) -> Result<(), Fail> {
    let alloc = rt.alloc();
    let original = learned(alloc)?;
    for field in 0..14 {
        assert!(rt; changed(alloc, field)? != original, "field {field}");
    }
    assert!(rt; route(alloc, 1, learned(alloc)?)? != route(alloc, 2, original)?);
    Ok(())
}
