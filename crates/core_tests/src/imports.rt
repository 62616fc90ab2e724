//! Operations that no script gives to such a protocol, or at such a time: they change nothing.
use crate::samples::{All, net};
use attrs::{Dest, Src};
use bits_ip::Addr;
use import_core::{Fixed, Importer, Mark, Mode, Op};
use protos::{BGP_PREFERENCE, STATIC_PREFERENCE, bgp_spec, static_spec};
use std::alloc::Global;
use std::process::Abort;
use std::test::Fail;

const NEIGHBOUR: Addr = Addr::V4(0xC000_0201);

const SOURCE: Src = Src {
    num: 0,
    def_med: 0,
    def_lp: 100,
};

const MODES: [Mode; 3] = [Mode::Idle, Mode::Up, Mode::Disabled];

/// In this mode, where `begin` is what it comes up by.
fn in_mode(mut importer: Importer<All>, mode: Mode, begin: Op) -> Result<Importer<All>, Fail> {
    match mode {
        Mode::Up => importer.apply(&begin)?,
        Mode::Disabled => importer.apply(&Op::Disable)?,
        _ => return Ok(importer),
    };
    Ok(importer)
}

fn session(alloc: Global, mode: Mode) -> Result<Importer<All>, Fail> {
    let spec = bgp_spec(alloc, SOURCE, NEIGHBOUR, true, BGP_PREFERENCE, None);
    in_mode(Importer::make(alloc, spec, All), mode, Op::SessionUp(1))
}

/// A static protocol with one route.
fn fixed(alloc: Global, mode: Mode) -> Result<Importer<All>, Fail> {
    let mut routes = Vec::new(alloc);
    routes.push(Fixed {
        net: net()?,
        dest: Dest::Blackhole,
        gw: None,
    })?;
    let spec = static_spec(SOURCE, STATIC_PREFERENCE, None, routes);
    in_mode(Importer::make(alloc, spec, All), mode, Op::Start)
}

fn assert_nothing_is_done(
    rt: &impl Abort,
    importer: &mut Importer<All>,
    op: &Op,
    mode: Mode,
) -> Result<(), Fail> {
    let accepted = importer.accepted();
    let step = importer.apply(op)?;
    assert!(rt; importer.mode() == mode);
    assert!(rt; importer.accepted() == accepted);
    assert!(rt; step.mark == Mark::Stay);
    assert!(rt; step.changes.is_empty());
    Ok(())
}

#[test]
fn a_session_is_not_started(rt: HostRuntime) -> Result<(), Fail> {
    for mode in MODES {
        let mut importer = session(rt.alloc(), mode)?;
        assert_nothing_is_done(&rt, &mut importer, &Op::Start, mode)?;
    }
    Ok(())
}

#[test]
fn a_static_protocol_is_not_opened(rt: HostRuntime) -> Result<(), Fail> {
    for mode in MODES {
        let mut importer = fixed(rt.alloc(), mode)?;
        assert_nothing_is_done(&rt, &mut importer, &Op::SessionUp(1), mode)?;
    }
    Ok(())
}

#[test]
fn a_static_protocol_starts_once(rt: HostRuntime) -> Result<(), Fail> {
    for mode in [Mode::Up, Mode::Disabled] {
        let mut importer = fixed(rt.alloc(), mode)?;
        assert_nothing_is_done(&rt, &mut importer, &Op::Start, mode)?;
    }
    Ok(())
}

#[test]
fn a_static_protocol_is_reloaded_behind_its_start(rt: HostRuntime) -> Result<(), Fail> {
    let mut importer = fixed(rt.alloc(), Mode::Idle)?;
    for op in [Op::ReloadIn, Op::ReloadOut, Op::Reload] {
        assert_nothing_is_done(&rt, &mut importer, &op, Mode::Idle)?;
    }
    Ok(())
}
