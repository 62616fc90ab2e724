use crate::samples::path;
use attrs::{Clist, ClistFault, Path, PathFault, Seq};
use std::alloc::Global;
use std::test::Fail;

#[test]
fn elements_are_put_in_and_given_back(rt: HostRuntime) -> Result<(), Fail> {
    let mut seq = Seq::new(rt.alloc());
    assert!(rt; seq.is_empty());
    seq.push(7u32)?;
    seq.push(8)?;
    assert_eq!(rt; seq.len(), 2);
    assert_eq!(rt; seq.as_slice(), [7, 8].as_slice());
    let again = Seq::from_vec(seq.into_vec());
    assert_eq!(rt; again.len(), 2);
    Ok(())
}

#[test]
fn paths_are_made_and_given_back(rt: HostRuntime) -> Result<(), Fail> {
    let alloc = rt.alloc();
    let path = path(alloc, &[65001, 65002])?;
    assert_eq!(rt; path.len(), 2);
    assert!(rt; !path.is_empty());
    assert_eq!(rt; path.into_vec().as_slice(), [65001, 65002].as_slice());
    assert!(rt; Path::new(alloc).is_empty());
    Ok(())
}

fn numbers(alloc: Global, len: u32) -> Result<Vec<u32>, Fail> {
    let mut numbers = Vec::new(alloc);
    for number in 0..len {
        numbers.push(number)?;
    }
    Ok(numbers)
}

#[test]
fn a_path_has_at_most_120_numbers(rt: HostRuntime) -> Result<(), Fail> {
    let cases = [
        (0, true),
        (119, true),
        (120, true),
        (121, false),
        (500, false),
    ];
    for (len, fits) in cases {
        let path = Path::try_from_vec(numbers(rt.alloc(), len)?);
        assert_eq!(rt; path.is_some(), fits, "{len}");
    }
    Ok(())
}

#[test]
fn a_path_grows_at_its_front(rt: HostRuntime) -> Result<(), Fail> {
    let alloc = rt.alloc();
    let mut path = path(alloc, &[65001, 65002])?;
    path.prepend(65000)?;
    assert_eq!(rt; path.as_slice(), [65000, 65001, 65002].as_slice());
    for number in 3..120 {
        path.prepend(number)?;
    }
    let before = path.copy()?;
    assert_eq!(rt; path.prepend(1), Err(PathFault::PathLong));
    assert_eq!(rt; path.len(), 120);
    assert!(rt; path == before);
    Ok(())
}

#[test]
fn a_list_of_communities_is_given_back(rt: HostRuntime) -> Result<(), Fail> {
    let alloc = rt.alloc();
    assert_eq!(rt; Clist::new(alloc).len(), 0);
    assert!(rt; Clist::new(alloc).as_slice().is_empty());
    let mut communities = Clist::new(alloc);
    communities.add(65000, 2)?;
    communities.add(65000, 1)?;
    let again = Clist::from_vec(communities.into_vec());
    assert_eq!(rt; again.as_slice(), [(65000, 2), (65000, 1)].as_slice());
    Ok(())
}

#[test]
fn a_list_takes_each_community_once(rt: HostRuntime) -> Result<(), Fail> {
    let alloc = rt.alloc();
    let mut communities = Clist::new(alloc);
    communities.add(65000, 2)?;
    communities.add(65000, 1)?;
    communities.add(65000, 2)?;
    let want = [(65000, 2), (65000, 1)];
    assert_eq!(rt; communities.as_slice(), want.as_slice());
    for value in 3..65 {
        communities.add(65000, value)?;
    }
    let before = communities.copy()?;
    assert_eq!(rt; communities.add(65001, 1), Err(ClistFault::ClistLong));
    assert_eq!(rt; communities.add(65000, 64), Ok(()));
    assert_eq!(rt; communities.len(), 64);
    assert!(rt; communities == before);
    Ok(())
}
