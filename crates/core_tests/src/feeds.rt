//! A channel that is fed: each call that takes memory answers where there is some.
ghost use Rattle.std.specs.Prelude.{◌≡◌, [], None, OnOk, false, true};
ghost use Rattle.export_core.specs.declared.passing.ExportSpec.{ExportSpec};
ghost use Rattle.export_core.specs.Candidates.{IsChunk};
ghost use Rattle.export_core.specs.Standing.{is_open};

use crate::exports::spec;
use crate::samples::All;
use attrs::{Chunk, Seq};
use export_core::{Exporter, FeedState};
use std::alloc::Global;
use std::hash::RandomState;
use std::test::Fail;

/// All of a table without rows, at its beginning.
fn whole(alloc: Global) -> Chunk
    ensures chunk { (spec : ExportSpec) → IsChunk spec result }
    ensures at { result.at ≡ 0 }
    ensures from { result.from ≡ None }
    ensures rows { result.rows ≡ [] }
{
    Chunk {
        at: 0,
        from: None,
        upto: None,
        rows: Seq::new(alloc),
        more: false,
    }
}

/// The channel comes up over the table, and is fed.
fn feed(exporter: &mut Exporter<All>, chunk: &Chunk) -> Result<(), Fail>
    requires log { exporter.old.log ≡ [] }
    requires chunk { (spec : ExportSpec) → IsChunk spec chunk.now }
    requires at { chunk.now.at ≡ 0 }
    requires from { chunk.now.from ≡ None }
    requires rows { chunk.now.rows ≡ [] }
    requires every { exporter.old.spec.every ≡ false }
    ensures up { OnOk result (is_open exporter.new.log ≡ true) }
    ensures stays { OnOk result (exporter.new.flushing ≡ false) }
    ensures every { OnOk result (exporter.new.spec.every ≡ false) }
{
    exporter.up(0)?;
    exporter.fed(chunk)?;
    Ok(())
}

/// What is seen of a channel that was fed, is refreshed, and goes down.
#[derive(Clone, Copy, Debug, PartialEq, Eq)]
struct Course {
    is_settled: bool,
    is_done: bool,
    is_empty: bool,
    is_settled_again: bool,
    /// Before it goes down, and behind that.
    is_up: [bool; 2],
    items: usize,
    logged: usize,
}

fn observe(exporter: &mut Exporter<All>) -> Result<Course, Fail>
    requires up { is_open exporter.old.log ≡ true }
    requires stays { exporter.old.flushing ≡ false }
    requires every { exporter.old.spec.every ≡ false }
{
    let is_settled = exporter.is_settled(0);
    let is_done = exporter.feed_from() == FeedState::Done;
    let is_empty = exporter.standing()?.is_empty();
    exporter.refresh()?;
    let is_settled_again = exporter.is_settled(0);
    let was_up = exporter.is_up();
    exporter.down()?;
    Ok(Course {
        is_settled,
        is_done,
        is_empty,
        is_settled_again,
        is_up: [was_up, exporter.is_up()],
        items: exporter.items().len(),
        logged: exporter.log().len(),
    })
}

fn played(alloc: Global, hasher: RandomState) -> Result<Course, Fail> {
    let mut exporter = Exporter::make(alloc, hasher, spec(alloc), All);
    feed(&mut exporter, &whole(alloc))?;
    observe(&mut exporter)
}

#[test]
fn a_channel_is_fed_refreshed_and_ended(rt: HostRuntime) -> Result<(), Fail> {
    let expected = Course {
        is_settled: true,
        is_done: true,
        is_empty: true,
        is_settled_again: false,
        is_up: [true, false],
        items: 3,
        logged: 3,
    };
    assert_eq!(rt; played(rt.alloc(), RandomState::new(&rt)?)?, expected);
    Ok(())
}
