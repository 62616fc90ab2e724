//! What pipes join, and whether one more would close a cycle.

ghost use Rattle.std.specs.Prelude.{◌≡◌, ◌<◌, ◌∷◌, [], ℕ, List, length, get_or, IfOk};
ghost use Rattle.std.specs.List.{All};
ghost use Rattle.conf_names.specs.Joints.{IsWithin, joined};
ghost use Rattle.conf_names.specs.Regions.{AreRegions, renamed as of_renamed};

use bits_ip::OutOfMemory;
use std::alloc::Global;

/// The two tables of a pipe, by their numbers.
#[derive(Clone, Copy, Debug, PartialEq, Eq)]
pub struct Joint {
    /// The primary table.
    pub table: usize,
    pub peer: usize,
}

/// Each table in a region of its own.
fn apart(alloc: Global, tables: usize) -> Result<Vec<usize>, OutOfMemory>
    ensures { IfOk result (λ regions. AreRegions [] tables regions.items) }
{
    let mut regions = Vec::new(alloc);
    for table in 0..tables {
        regions.push(table)?;
    }
    Ok(regions)
}

fn renamed(from: usize, to: usize, region: usize) -> usize
    ensures { result ≡ of_renamed from to region }
{
    if region == from {
        return to;
    }
    region
}

/// What lies in one region lies in another one from now on.
fn rename(regions: &mut [usize], from: usize, to: usize)
    ensures length { length regions.new ≡ length regions.old }
    ensures renamed { (table : ℕ) → table < length regions.old
        → get_or regions.new table 0 ≡ of_renamed from to (get_or regions.old table 0) }
{
    for region in regions.iter_mut() {
        *region = renamed(from, to, *region);
    }
}

/// The regions behind one pipe more.
fn join(regions: &mut Vec<usize>, joint: Joint)
    requires { IsWithin (length regions.old.items) joint }
    ensures { (pipes : List Joint) (tables : ℕ) → AreRegions pipes tables regions.old.items
        → AreRegions (joint ∷ pipes) tables regions.new.items }
{
    let from = regions[joint.peer];
    let to = regions[joint.table];
    rename(regions.as_mut_slice(), from, to);
}

/// Which tables are joined: those of one region.
fn regions(alloc: Global, tables: usize, pipes: &[Joint]) -> Result<Vec<usize>, OutOfMemory>
    requires { All (IsWithin tables) pipes.now }
    ensures { IfOk result (λ regions. AreRegions pipes.now tables regions.items) }
{
    let mut regions = apart(alloc, tables)?;
    let mut left = pipes;
    while let [front @ .., joint] = left {
        join(&mut regions, *joint);
        left = front;
    }
    Ok(regions)
}

/// Whether pipes join these two tables already.
pub fn is_joined(
    alloc: Global,
    tables: usize,
    pipes: &[Joint],
    joint: Joint,
) -> Result<bool, OutOfMemory>
    requires pipes { All (IsWithin tables) pipes.now }
    requires joint { IsWithin tables joint }
    ensures { IfOk result (λ is_joined. is_joined ≡ joined pipes.now joint.table joint.peer) }
{
    let regions = regions(alloc, tables, pipes)?;
    Ok(regions[joint.table] == regions[joint.peer])
}
