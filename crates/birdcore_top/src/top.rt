//! The one call that does all that the program does.
ghost use Rattle.std.specs.Prelude.{None, Some};
ghost use Rattle.birdcore_top.specs.Answered.{Answered, shelf_of, sink_of};
ghost use Rattle.birdcore_top.specs.Command.{Check, Play, Run, command_of};

use crate::files::{Files, read_conf, read_files};
use crate::laws::files_have_one_outcome;
use crate::play::play_phases;
use crate::run::run_phases;
use crate::status::Status;
use crate::words::{Asked, asked_by};
use crate::write::write_accepted;
use outside_io::{Gate, Shelf, Sink};
use report::Form;
use std::alloc::Global;
use std::random::RandomSource;
use std::sync::Wait;
use std::thread::Threads;

/// Does all that the program does: plays or runs the script over the configuration that the words
/// name, and writes the report, phase by phase, in the form that they ask for; or checks a
/// configuration, perhaps with a script over it, and writes `ok` where they are accepted.
///
/// The reports of a play are those to which the machine comes on the lines as they are written.
/// Those of a run are legal, and no more is promised of them: each actor has a thread of its own,
/// which passes the gate. Where there is more than threads have room for, one thread does all
/// lines.
///
/// What it answers and what stands written are one record of eleven promises (`specs/Answered`).
/// Want of memory may come in place of any answer; where a script is to be played or run, also for
/// want of random bytes.
pub fn top<R: RandomSource + Threads + Wait + Sync, F: Shelf, K: Sink, G: Gate + Sync>(
    rt: &R,
    alloc: Global,
    words: &[String],
    shelf: &mut F,
    out: &mut K,
    gate: &G,
) -> Status
    ensures { Answered (command_of words.now)
        (shelf_of (F.held shelf.old) (F.lacks shelf.old) (F.missed shelf.old) (F.faults shelf.old))
        (shelf_of (F.held shelf.new) (F.lacks shelf.new) (F.missed shelf.new) (F.faults shelf.new))
        (sink_of (K.contents out.old) (K.faults out.old))
        (sink_of (K.contents out.new) (K.faults out.new))
        result }
{
    do_asked(rt, alloc, words, shelf, out, gate)
}

/// Does what the words ask for.
fn do_asked<R: RandomSource + Threads + Wait + Sync, F: Shelf, K: Sink, G: Gate + Sync>(
    rt: &R,
    alloc: Global,
    words: &[String],
    shelf: &mut F,
    out: &mut K,
    gate: &G,
) -> Status
    ensures { Answered (command_of words.now)
        (shelf_of (F.held shelf.old) (F.lacks shelf.old) (F.missed shelf.old) (F.faults shelf.old))
        (shelf_of (F.held shelf.new) (F.lacks shelf.new) (F.missed shelf.new) (F.faults shelf.new))
        (sink_of (K.contents out.old) (K.faults out.old))
        (sink_of (K.contents out.new) (K.faults out.new))
        result }
{
    match asked_by(words) {
        Some(
            Asked::Play {
                conf,
                script,
                cells,
                form,
            },
        ) => { play_files(rt, alloc, conf, script, cells, form, shelf, out) }
        Some(
            Asked::Run {
                conf,
                script,
                cells,
                form,
            },
        ) => { run_files(rt, alloc, gate, conf, script, cells, form, shelf, out) }
        Some(Asked::CheckOne { conf }) => check_conf(alloc, conf, shelf, out),
        Some(Asked::CheckBoth { conf, script }) => check_files(alloc, conf, script, shelf, out),
        None => Status::Usage,
    }
}

/// Reads the two files, plays them, and writes the report.
fn play_files<R: RandomSource, F: Shelf, K: Sink>(
    rt: &R,
    alloc: Global,
    conf: &str,
    script: &str,
    cells: u32,
    form: Form,
    shelf: &mut F,
    out: &mut K,
) -> Status
    ensures { Answered (Some (Play conf.now script.now cells form))
        (shelf_of (F.held shelf.old) (F.lacks shelf.old) (F.missed shelf.old) (F.faults shelf.old))
        (shelf_of (F.held shelf.new) (F.lacks shelf.new) (F.missed shelf.new) (F.faults shelf.new))
        (sink_of (K.contents out.old) (K.faults out.old))
        (sink_of (K.contents out.new) (K.faults out.new))
        result }
{
    files_have_one_outcome();
    match read_files(alloc, conf, script, true, shelf) {
        Ok(Files { system, script }) => {
            Status::from(play_phases(rt, alloc, &system, cells, form, script, out))
        }
        Err(status) => status,
    }
}

/// Reads the two files, runs them, and writes the report. The script may not schedule.
fn run_files<R: RandomSource + Threads + Wait + Sync, F: Shelf, K: Sink, G: Gate + Sync>(
    rt: &R,
    alloc: Global,
    gate: &G,
    conf: &str,
    script: &str,
    cells: u32,
    form: Form,
    shelf: &mut F,
    out: &mut K,
) -> Status
    ensures { Answered (Some (Run conf.now script.now cells form))
        (shelf_of (F.held shelf.old) (F.lacks shelf.old) (F.missed shelf.old) (F.faults shelf.old))
        (shelf_of (F.held shelf.new) (F.lacks shelf.new) (F.missed shelf.new) (F.faults shelf.new))
        (sink_of (K.contents out.old) (K.faults out.old))
        (sink_of (K.contents out.new) (K.faults out.new))
        result }
{
    files_have_one_outcome();
    match read_files(alloc, conf, script, false, shelf) {
        Ok(Files { system, script }) => Status::from(run_phases(
            rt, alloc, gate, &system, cells, form, script, out,
        )),
        Err(status) => status,
    }
}

/// Reads the two files, and writes that they are accepted.
fn check_files<F: Shelf, K: Sink>(
    alloc: Global,
    conf: &str,
    script: &str,
    shelf: &mut F,
    out: &mut K,
) -> Status
    ensures { Answered (Some (Check conf.now (Some script.now)))
        (shelf_of (F.held shelf.old) (F.lacks shelf.old) (F.missed shelf.old) (F.faults shelf.old))
        (shelf_of (F.held shelf.new) (F.lacks shelf.new) (F.missed shelf.new) (F.faults shelf.new))
        (sink_of (K.contents out.old) (K.faults out.old))
        (sink_of (K.contents out.new) (K.faults out.new))
        result }
{
    files_have_one_outcome();
    match read_files(alloc, conf, script, true, shelf) {
        Ok(_files) => write_accepted(out),
        Err(status) => status,
    }
}

/// Reads the configuration, and writes that it is accepted.
fn check_conf<F: Shelf, K: Sink>(alloc: Global, conf: &str, shelf: &mut F, out: &mut K) -> Status
    ensures { Answered (Some (Check conf.now None))
        (shelf_of (F.held shelf.old) (F.lacks shelf.old) (F.missed shelf.old) (F.faults shelf.old))
        (shelf_of (F.held shelf.new) (F.lacks shelf.new) (F.missed shelf.new) (F.faults shelf.new))
        (sink_of (K.contents out.old) (K.faults out.old))
        (sink_of (K.contents out.new) (K.faults out.new))
        result }
{
    files_have_one_outcome();
    match read_conf(alloc, conf, shelf) {
        Ok(_system) => write_accepted(out),
        Err(status) => status,
    }
}
