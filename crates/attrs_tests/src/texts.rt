use crate::samples::{configured, learned};
use attrs::{
    Attrs, Clist, Dest, Kind, Origin, attr_text, write_communities, write_optional_number,
    write_spaced_numbers, write_spaced_pairs,
};
use std::alloc::Global;
use std::test::Fail;

fn is_written(alloc: Global, attrs: &Attrs, want: &str) -> Result<bool, Fail> {
    let mut out = Vec::new(alloc);
    attr_text(alloc, attrs, &mut out)?;
    Ok(out.as_slice() == want.as_bytes())
}

#[test]
fn a_learned_route_is_written(rt: HostRuntime) -> Result<(), Fail> {
    let alloc = rt.alloc();
    let want =
        "pref 100 bgp unicast gw 192.0.2.1 from 192.0.2.1 id 10.0.0.1 ebgp path 65001 65002 origin igp nh 192.0.2.1 lp 100";
    assert!(rt; is_written(alloc, &learned(alloc)?, want)?);
    Ok(())
}

#[test]
fn what_is_absent_or_empty_is_left_out(rt: HostRuntime) -> Result<(), Fail> {
    let alloc = rt.alloc();
    let mut attrs = configured(alloc);
    assert!(rt; is_written(alloc, &attrs, "pref 200 static blackhole")?);
    attrs.dest = Dest::Prohibit;
    attrs.med = Some(0);
    attrs.igp = Some(4_294_967_295);
    let want = "pref 200 static prohibit med 0 igp 4294967295";
    assert!(rt; is_written(alloc, &attrs, want)?);
    Ok(())
}

fn two_communities(alloc: Global) -> Result<Clist, Fail> {
    let mut communities = Clist::new(alloc);
    communities.add(65000, 1)?;
    communities.add(0, 65535)?;
    Ok(communities)
}

#[test]
fn communities_are_written(rt: HostRuntime) -> Result<(), Fail> {
    let alloc = rt.alloc();
    let mut attrs = configured(alloc);
    attrs.coms = two_communities(alloc)?;
    let want = "pref 200 static blackhole com 65000:1 0:65535";
    assert!(rt; is_written(alloc, &attrs, want)?);
    Ok(())
}

#[test]
fn parts_are_written_one_by_one(rt: HostRuntime) -> Result<(), Fail> {
    let alloc = rt.alloc();
    let mut out = Vec::new(alloc);
    write_optional_number(" med ", Some(0), &mut out)?;
    write_optional_number(" lp ", None, &mut out)?;
    write_spaced_numbers(&[65001, 4_294_967_295], &mut out)?;
    write_spaced_pairs(&[(65535, 0)], &mut out)?;
    write_communities(&two_communities(alloc)?, &mut out)?;
    write_communities(&Clist::new(alloc), &mut out)?;
    let want = " med 0 65001 4294967295 65535:0 com 65000:1 0:65535";
    assert_eq!(rt; out.as_slice(), want.as_bytes());
    Ok(())
}

#[test]
fn words_name_what_they_stand_for(rt: HostRuntime) {
    let origins = [
        (Origin::Igp, "igp"),
        (Origin::Egp, "egp"),
        (Origin::Incomplete, "incomplete"),
    ];
    for (origin, word) in origins {
        assert_eq!(rt; origin.word(), word);
    }
    let dests = [
        (Dest::Unicast, "unicast"),
        (Dest::Blackhole, "blackhole"),
        (Dest::Unreachable, "unreachable"),
        (Dest::Prohibit, "prohibit"),
    ];
    for (dest, word) in dests {
        assert_eq!(rt; dest.word(), word);
    }
    assert_eq!(rt; Kind::Static.word(), "static");
    assert_eq!(rt; Kind::Bgp.word(), "bgp");
}
