//! What stands before the first phase.
ghost use Rattle.std.specs.Prelude.{◌<◌, ◌^◌, ◌+◌, ℕ, List, IfOk, OnOk, length, map};
ghost use Rattle.std.specs.List.{All};
ghost use Rattle.core_machine.specs.Lines.{Line};
ghost use Rattle.core_setup.specs.Pairs.{Pairs};
ghost use Rattle.core_setup.specs.Setup.{IsSetup};
ghost use Rattle.phase_room.specs.First.{first_phase};
ghost use Rattle.room_first.specs.Inside.{AreFirst, HasFewTables, IsFirstProtocol, IsFirstTable, own_channels};
ghost use Rattle.room_first.specs.Sent.{lent_by, sent_by};
ghost use Rattle.room_open.specs.Standing.{Stands};
ghost use Rattle.room_first.specs.First.{IsFirst};
ghost use Rattle.show_route.specs.declared.query.Query.{Query};
ghost use Rattle.sys_run.specs.Made.{Left, passed_at};
ghost use Rattle.sys_run.specs.Parts.{setup_seen, table_seen};
ghost use Rattle.sys_run.specs.declared.parts.ProtocolParts.{ProtocolParts as HeldParts};

use crate::counts::channels_of;
use crate::own::stand_source;
use crate::pipes::stand_pipe;
use attrs::Judge;
use bits_ip::OutOfMemory;
use phase_answers::Lent;
use phase_open::StandingTable;
use phase_pipes::laws::first_phases_have_pipes;
use phase_room::laws::first_phases_stand;
use rib::Rib;
use room_open::{Standing, StandingMember};
use std::alloc::Global;
use std::hash::RandomState;
use sys_run::{BodyParts, ProtocolParts, TableParts, passed_by};

/// What stands before the first phase of these tables and protocols, whose filters are lent.
pub fn stand_first<'p, J: Judge + Drop>(
    alloc: Global,
    hasher: RandomState,
    tables: &[TableParts],
    protocols: &'p [ProtocolParts<J>],
) -> Result<Standing<Lent<'p, J>>, OutOfMemory>
    requires tables { length tables.now < 2 ^ 32 }
    requires few { length protocols.now < 2 ^ 30 }
    requires fits { (cells : ℕ) × (choices : List J) × (queries : List Query)
        × IsSetup (setup_seen J.verdict tables.now protocols.now cells choices queries) }
    ensures stands { IfOk result (λ standing. (cells : ℕ) (choices : List J)
        (queries : List Query) (lines : List Line) (actors : ℕ)
        → IsSetup (setup_seen J.verdict tables.now protocols.now cells choices queries)
        → Stands (lent_by J.verdict)
        (first_phase (setup_seen J.verdict tables.now protocols.now cells choices queries) lines
        actors)
        (sent_by (setup_seen J.verdict tables.now protocols.now cells choices queries))
        standing) }
    ensures first { IfOk result (λ standing. IsFirst standing) }
{
    first_phases_stand::<Lent<'p, J>>();
    first_phases_have_pipes::<Lent<'p, J>>();
    let passed = passed_by(alloc, tables.len(), protocols)?;
    let stood = stand_tables(alloc, tables)?;
    let members = stand_members(alloc, hasher, tables, passed, protocols)?;
    Ok(Standing {
        tables: stood,
        members,
    })
}

fn stand_tables(alloc: Global, tables: &[TableParts]) -> Result<Vec<StandingTable>, OutOfMemory>
    ensures { IfOk result (λ stood.
        Pairs (λ number table stood. IsFirstTable table stood) 0 tables.now stood.items) }
{
    let mut stood = Vec::with_capacity(alloc, tables.len())?;
    for table in tables {
        stood.push(StandingTable {
            family: table.family,
            rows: Rib::make(alloc, table.family),
            before: Vec::new(alloc),
        })?;
    }
    Ok(stood)
}

/// All protocols. The directions of pipes take the sources that they pass.
fn stand_members<'p, J: Judge + Drop>(
    alloc: Global,
    hasher: RandomState,
    tables: &[TableParts],
    passed: Vec<Vec<u32>>,
    protocols: &'p [ProtocolParts<J>],
) -> Result<Vec<StandingMember<Lent<'p, J>>>, OutOfMemory>
    requires few { length protocols.now < 2 ^ 30 }
    requires tables { All (λ (p : HeldParts J). HasFewTables p.body) protocols.now }
    ensures { IfOk result (λ stood. AreFirst J.verdict (map table_seen tables.now)
        (passed_at passed.items) 0 0 protocols.now stood.items) }
{
    let mut passed = passed;
    let mut stood = Vec::with_capacity(alloc, protocols.len())?;
    let mut number: u32 = 0;
    let mut channel: u32 = 0;
    for protocol in protocols {
        let body = &protocol.body;
        let member = stand_member(alloc, hasher, tables, &mut passed, number, channel, body)?;
        stood.push(member)?;
        channel += channels_of(body);
        number += 1;
    }
    Ok(stood)
}

/// The protocol of this number, whose first channel has the number `channel`.
fn stand_member<'p, J: Judge + Drop>(
    alloc: Global,
    hasher: RandomState,
    tables: &[TableParts],
    passed: &mut Vec<Vec<u32>>,
    number: u32,
    channel: u32,
    body: &'p BodyParts<J>,
) -> Result<StandingMember<Lent<'p, J>>, OutOfMemory>
    requires next { channel < 2 ^ 31 }
    requires tables { HasFewTables body.now }
    ensures first { IfOk result (λ stood. (lists : ℕ → List ℕ)
        → Left channel passed.old.items lists
        → IsFirstProtocol J.verdict (map table_seen tables.now) lists number channel body.now
        stood) }
    ensures left { OnOk result ((lists : ℕ → List ℕ) → Left channel passed.old.items lists
        → Left (channel + own_channels body.now) passed.new.items lists) }
{
    match body {
        BodyParts::Source(source) => {
            let held = stand_source(alloc, hasher, channel, source)?;
            Ok(StandingMember::Own(held))
        }
        BodyParts::Pipe(pipe) => {
            let held = stand_pipe(alloc, hasher, tables, passed, number, channel, pipe)?;
            Ok(StandingMember::Pipe(held))
        }
    }
}
