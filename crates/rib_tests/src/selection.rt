use crate::{PLAIN, Shape, net, put_all};
use attrs::Route;
use bits_ip::{Addr, Family};
use rib::Rib;
use std::alloc::Global;
use std::process::Abort;
use std::test::Fail;

fn source_of(route: Option<&Route>) -> Option<u32> {
    match route {
        Some(route) => Some(route.src.num),
        None => None,
    }
}

/// The sources of a net's routes in selection order, put in in this order.
fn sources(rt: &impl Abort, alloc: Global, shapes: &[Shape]) -> Result<Vec<u32>, Fail> {
    let mut table = Rib::make(alloc, Family::V4);
    put_all(alloc, &mut table, shapes)?;
    let net = net(0x0A00_0000, 8)?;
    let mut numbers = Vec::new(alloc);
    for route in table.copy_routes(&net)? {
        numbers.push(route.src.num)?;
    }
    assert_eq!(rt; source_of(table.best(&net)), numbers.first().copied());
    Ok(numbers)
}

/// The discriminator decides before the router ids, and a missing one counts as 0.
#[test]
fn three_neighbours_go_by_their_discriminators(rt: HostRuntime) -> Result<(), Fail> {
    let alloc = rt.alloc();
    let first = Shape {
        num: 0,
        med: Some(10),
        peer_id: 0x0A00_0009,
        ..PLAIN
    };
    let second = Shape {
        num: 1,
        med: Some(20),
        peer_id: 0x0A00_0001,
        ..PLAIN
    };
    let third = Shape {
        num: 2,
        med: None,
        peer_id: 0x0A00_0003,
        ..PLAIN
    };
    for shapes in [
        [first, second, third],
        [third, second, first],
        [second, third, first],
    ] {
        let numbers = sources(&rt, alloc, shapes.as_slice())?;
        assert_eq!(rt; numbers.as_slice(), [2, 0, 1].as_slice());
    }
    Ok(())
}

/// With one router id the neighbours' addresses decide, and then the sources.
#[test]
fn three_neighbours_go_by_their_addresses(rt: HostRuntime) -> Result<(), Fail> {
    let alloc = rt.alloc();
    let first = Shape {
        num: 0,
        sender: Addr::V4(0xC000_0209),
        ..PLAIN
    };
    let second = Shape {
        num: 1,
        sender: Addr::V4(0xC000_0208),
        ..PLAIN
    };
    let third = Shape {
        num: 2,
        sender: Addr::V4(0xC000_0209),
        ..PLAIN
    };
    for shapes in [
        [first, second, third],
        [third, second, first],
        [second, third, first],
    ] {
        let numbers = sources(&rt, alloc, shapes.as_slice())?;
        assert_eq!(rt; numbers.as_slice(), [1, 0, 2].as_slice());
    }
    Ok(())
}
