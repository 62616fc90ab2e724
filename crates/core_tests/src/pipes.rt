//! The text of what pipes send, beside what protocols of BGP send.
use crate::samples::{configured, net, one};
use attrs::{Attrs, Change, Seq, Shared};
use export_core::{Key, LogItem, Sending};
use import_core::{Done, Mode, Op};
use report::{
    ChannelReport, ExportReport, JournalReport, ModeReport, PhaseReport, ProtocolReport,
    ProtocolState, Standing, TableReport, phase_text,
};
use std::alloc::Global;
use std::test::Fail;

const PHASE: &str = "phase 3\n\
    protocol p1\n\
    protocol pc\n\
    channel p1\n\
    \t3 203.0.113.0/24 pref 200 static unreachable\n\
    \t4 203.0.113.0/24 -\n\
    \tagain 5 203.0.113.0/24 pref 200 static unreachable\n\
    channel pc.export\n\
    \t3 203.0.113.0/24 p1 pref 200 static unreachable\n\
    \t4 203.0.113.0/24 p1 -\n\
    \tagain 5 203.0.113.0/24 p1 pref 200 static unreachable\n\
    state\n\
    \tprotocol pc up\n\
    \texport p1 1\n\
    \t\t203.0.113.0/24 pref 200 static unreachable\n\
    \texport pc.export 1\n\
    \t\t203.0.113.0/24 p1 pref 200 static unreachable\n";

fn word(alloc: Global, text: &str) -> Result<Seq<u8>, Fail> {
    Ok(Seq::from_vec(text.as_bytes().to_vec(alloc)?))
}

fn attrs(alloc: Global) -> Result<Shared<Attrs>, Fail> {
    Ok(Shared::new(alloc, configured(alloc))?)
}

fn protocol(alloc: Global, name: &str) -> Result<ProtocolReport, Fail> {
    Ok(ProtocolReport {
        name: word(alloc, name)?,
        ops: Seq::new(alloc),
    })
}

fn text_of(alloc: Global, phase: &PhaseReport) -> Result<Vec<u8>, Fail> {
    let mut text = Vec::new(alloc);
    phase_text(phase, &mut text)?;
    Ok(text)
}

/// The key of p1's route.
fn key() -> Result<Key, Fail> {
    Ok(Key {
        net: net()?,
        num: 0,
    })
}

fn sent(at: u64, again: bool, value: Option<Shared<Attrs>>) -> Result<LogItem, Fail> {
    Ok(LogItem::Sent(Sending {
        at,
        key: key()?,
        value,
        again,
    }))
}

/// A value, a withdrawal, and a value once more.
fn log(alloc: Global, name: &str, pipe: bool) -> Result<ChannelReport, Fail> {
    let mut items = one(alloc, sent(3, false, Some(attrs(alloc)?))?)?;
    items.push(sent(4, false, None)?)?;
    items.push(sent(5, true, Some(attrs(alloc)?))?)?;
    Ok(ChannelReport {
        name: word(alloc, name)?,
        pipe,
        items,
    })
}

fn export(alloc: Global, name: &str, pipe: bool) -> Result<ExportReport, Fail> {
    let standing = Standing {
        key: key()?,
        attrs: attrs(alloc)?,
    };
    Ok(ExportReport {
        name: word(alloc, name)?,
        pipe,
        standing: Some(one(alloc, standing)?),
    })
}

/// The protocol p1, the pipe pc, and the channels of p1 and of the pipe's one direction, both of
/// which send.
fn send(alloc: Global, phase: &mut PhaseReport) -> Result<(), Fail> {
    phase.protocols.push(protocol(alloc, "p1")?)?;
    phase.protocols.push(protocol(alloc, "pc")?)?;
    phase
        .modes
        .push(mode(alloc, "pc", ProtocolState::Pipe(true))?)?;
    for (name, pipe) in [("p1", false), ("pc.export", true)] {
        phase.channels.push(log(alloc, name, pipe)?)?;
        phase.exports.push(export(alloc, name, pipe)?)?;
    }
    Ok(())
}

fn sending_text(alloc: Global) -> Result<Vec<u8>, Fail> {
    let mut phase = empty(alloc, 3);
    send(alloc, &mut phase)?;
    text_of(alloc, &phase)
}

#[test]
fn a_pipe_sends_by_source_and_accepts_nothing(rt: HostRuntime) -> Result<(), Fail> {
    assert_eq!(rt; sending_text(rt.alloc())?.as_slice(), PHASE.as_bytes());
    Ok(())
}

const DISABLED: &str = "phase 2\n\
    protocol s\n\
    protocol a\n\
    \tdisable\n\
    journal t1 1 2\n\
    \t2 203.0.113.0/24 s -\n\
    channel a.export\n\
    \tdown\n\
    channel a.import\n\
    \tdown\n\
    state\n\
    \ttable t1 0 0\n\
    \tprotocol s up 1\n\
    \tprotocol a down\n\
    \texport a.export down\n\
    \texport a.import down\n";

/// A pipe that is disabled.
fn disabled(alloc: Global) -> Result<ProtocolReport, Fail> {
    let mut pipe = protocol(alloc, "a")?;
    pipe.ops.push(Done {
        op: Op::Disable,
        over: false,
    })?;
    Ok(pipe)
}

/// The journal of t1, from which a route is withdrawn.
fn journal(alloc: Global) -> Result<JournalReport, Fail> {
    let gone = Change {
        net: net()?,
        num: 0,
        new: None,
    };
    Ok(JournalReport {
        table: word(alloc, "t1")?,
        from: 1,
        entries: one(alloc, gone)?,
    })
}

fn table(alloc: Global) -> Result<TableReport, Fail> {
    Ok(TableReport {
        name: word(alloc, "t1")?,
        rows: Seq::new(alloc),
    })
}

/// A phase without protocols in which nothing came about.
fn empty(alloc: Global, number: u64) -> PhaseReport {
    PhaseReport {
        number,
        protocols: Seq::new(alloc),
        journals: Seq::new(alloc),
        channels: Seq::new(alloc),
        replies: Seq::new(alloc),
        tables: Seq::new(alloc),
        modes: Seq::new(alloc),
        exports: Seq::new(alloc),
    }
}

/// The protocols s and a, and a table t1 that a emptied.
fn end(alloc: Global, phase: &mut PhaseReport) -> Result<(), Fail> {
    phase.protocols.push(protocol(alloc, "s")?)?;
    phase.protocols.push(disabled(alloc)?)?;
    phase.journals.push(journal(alloc)?)?;
    phase.tables.push(table(alloc)?)?;
    phase
        .modes
        .push(mode(alloc, "s", ProtocolState::Imports(Mode::Up, 1))?)?;
    phase
        .modes
        .push(mode(alloc, "a", ProtocolState::Pipe(false))?)?;
    for name in ["a.export", "a.import"] {
        phase.channels.push(down(alloc, name)?)?;
        phase.exports.push(closed(alloc, name)?)?;
    }
    Ok(())
}

fn down(alloc: Global, name: &str) -> Result<ChannelReport, Fail> {
    Ok(ChannelReport {
        name: word(alloc, name)?,
        pipe: true,
        items: one(alloc, LogItem::Down)?,
    })
}

fn closed(alloc: Global, name: &str) -> Result<ExportReport, Fail> {
    Ok(ExportReport {
        name: word(alloc, name)?,
        pipe: true,
        standing: None,
    })
}

fn mode(alloc: Global, name: &str, state: ProtocolState) -> Result<ModeReport, Fail> {
    Ok(ModeReport {
        name: word(alloc, name)?,
        state,
    })
}

fn ended_text(alloc: Global) -> Result<Vec<u8>, Fail> {
    let mut phase = empty(alloc, 2);
    end(alloc, &mut phase)?;
    text_of(alloc, &phase)
}

#[test]
fn a_disabled_pipe_is_down_both_ways(rt: HostRuntime) -> Result<(), Fail> {
    assert_eq!(rt; ended_text(rt.alloc())?.as_slice(), DISABLED.as_bytes());
    Ok(())
}
