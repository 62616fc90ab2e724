//! How long the log of each channel is.
ghost use Rattle.std.specs.Prelude.{◌≡◌, ◌++◌, ℕ, List, IfOk, OnOk, option_copied};
ghost use Rattle.core_machine.specs.Legal.{Joined, Printed, join};
ghost use Rattle.core_machine.specs.Lines.{Line};
ghost use Rattle.core_setup.specs.Setup.{Setup};
ghost use Rattle.sys_run.specs.declared.parts.TableParts.{TableParts};
ghost use Rattle.room_ends.specs.Prints.{Prints};
ghost use Rattle.room_report.specs.Described.{AreLogged, IsDescribed};
ghost use Rattle.room_report.specs.Inside.{all_lengths, lengths_in, own_lengths, pipe_lengths};

use attrs::Judge;
use bits_ip::OutOfMemory;
use export_core::Exporter;
use pipe_close::PipeEnded;
use room_ends::{MemberEnded, PlayedRoom};
use std::alloc::Global;

/// By channel how many items its log has behind a phase, which the report of the next phase leaves
/// out.
pub fn log_lengths<J: Judge + Drop>(
    alloc: Global,
    made: &PlayedRoom<J>,
) -> Result<Vec<usize>, OutOfMemory>
    ensures { IfOk result (λ lengths. (setup : Setup) (tables : List TableParts)
        (names actors : List (List ℕ)) (logged : List ℕ) (past : Joined) (lines : List Line)
        (p : Printed) → IsDescribed setup tables names actors logged past made.now
        → Prints setup lines past p made.now → AreLogged setup (join past p) lengths.items) }
{
    let members = made.ended.members.as_slice();
    let lengths = member_lengths(alloc, members)?;
    Ok(lengths)
}

fn member_lengths<J: Judge>(
    alloc: Global,
    members: &[MemberEnded<J>],
) -> Result<Vec<usize>, OutOfMemory>
    ensures { IfOk result (λ lengths. lengths.items ≡ all_lengths members.now) }
{
    let mut lengths = Vec::new(alloc);
    for member in members {
        add_lengths(member, &mut lengths)?;
    }
    Ok(lengths)
}

fn add_lengths<J: Judge>(
    member: &MemberEnded<J>,
    lengths: &mut Vec<usize>,
) -> Result<(), OutOfMemory>
    ensures { OnOk result (lengths.new.items ≡ lengths.old.items ++ lengths_in member.now) }
{
    match member {
        MemberEnded::Own(own) => add_own(own.exporter.as_ref(), lengths),
        MemberEnded::Pipe(pipe) => add_pipe(pipe, lengths),
    }
}

fn add_own<J: Judge>(
    exporter: Option<&Exporter<J>>,
    lengths: &mut Vec<usize>,
) -> Result<(), OutOfMemory>
    ensures { OnOk result (lengths.new.items
        ≡ lengths.old.items ++ own_lengths (option_copied exporter.entry)) }
{
    match exporter {
        Some(exporter) => {
            lengths.push(exporter.log().len())?;
            Ok(())
        }
        None => Ok(()),
    }
}

fn add_pipe<J: Judge>(pipe: &PipeEnded<J>, lengths: &mut Vec<usize>) -> Result<(), OutOfMemory>
    ensures { OnOk result (lengths.new.items ≡ lengths.old.items ++ pipe_lengths pipe.now) }
{
    lengths.push(pipe.out.log().len())?;
    lengths.push(pipe.back.log().len())?;
    Ok(())
}
