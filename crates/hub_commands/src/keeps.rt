//! The call for `keep`: a day that is replayed, with the state after each window kept in a journal.
ghost use Rattle.std.specs.Prelude.{◌≡◌, IsTrue, None, map, string_bytes};
ghost use Rattle.hub_commands.specs.CommandsTaken.{keep_options_of};
ghost use Rattle.hub_commands.specs.Finishes.{read_off, written};
ghost use Rattle.hub_commands.specs.KeepCalls.{JournalIsOpened, KeepEnds, ScriptIsKept, opening_fault};
ghost use Rattle.hub_commands.specs.Statuses.{status_for_fault};
ghost use Rattle.hub_core.specs.Openings.{is_mode};
ghost use Rattle.routine_reader.specs.Scripts.{plain_script};
ghost use Rattle.routine_reader.specs.Sound.{IsSound};

use crate::day_words::{DayCall, read_day_words};
use crate::days::refuse;
use crate::faults::Fault;
use crate::finishes::Finish;
use crate::inputs::read_input;
use crate::kept_days::keep_day;
use command_words::{Options, WordFault};
use day_clock::{Sink, Source};
use device_states::Bench;
use home_journal::{Journal, OpenFault};
use hub_core::script_kinds;
use routine_reader::Script;
use slot_disks::Disk;
use std::alloc::Global;

/// Opens the journal of the script's home on the disk.
fn open_journal<Q: Disk>(alloc: Global, script: &Script, disk: Q) -> Result<Journal<Q>, (Q, Fault)>
    requires sound { IsSound (plain_script script.now) }
    ensures { JournalIsOpened Q.told Q.seen Q.images Q.moment Q.images_since Q.faults
        script.now disk result }
{
    let Ok(kinds) = script_kinds(alloc, script) else {
        return Err((disk, Fault::Memory));
    };
    match Journal::open(alloc, disk, &kinds, script.windows.len() as u32) {
        Ok(journal) => Ok(journal),
        Err((disk, fault)) => Err((disk, opening_fault(fault))),
    }
}

/// Why the call ends where the journal is not opened. A slot is counted from 1 here.
fn opening_fault(fault: OpenFault) -> Fault
    ensures { result ≡ opening_fault fault }
{
    match fault {
        OpenFault::NoMemory => Fault::Memory,
        OpenFault::Failed => Fault::Disk,
        OpenFault::Damaged(place) => Fault::Damaged(place.saturating_add(1)),
    }
}

/// Opens the journal, and goes on with the script's day behind the states that it keeps.
fn keep_script<K: Sink, B: Bench, Q: Disk>(
    alloc: Global,
    script: &Script,
    options: Options,
    sink: &mut K,
    bench: &mut B,
    disk: Q,
) -> (Finish<B::Dev>, Q)
    requires sound { IsSound (plain_script script.now) }
    requires goes { IsTrue (is_mode options.mode) }
    ensures status { result.0.status ≡ status_for_fault result.0.fault }
    ensures ends { ScriptIsKept B.Dev.shows Q.told Q.seen Q.images Q.moment Q.images_since Q.faults
        script.now options
        (written (K.holds sink.old) (K.holds sink.new) (K.faults sink.old) (K.faults sink.new)) disk
        result.1 result.0.day result.0.fault }
    ensures unasked { result.0.day ≡ None → bench.new ≡ bench.old }
{
    match open_journal(alloc, script, disk) {
        Ok(journal) => keep_day(alloc, script, options, journal, sink, bench),
        Err((disk, fault)) => (refuse(fault), disk),
    }
}

/// Runs the command `keep`: replays a day's script as `replay` does, and keeps the state after each
/// window in a journal on the disk, before the text of that window is written.
///
/// The day begins behind the windows whose states the disk keeps already: the home is resumed in
/// the last of them. Behind the head stands a line `kept K` with their number, and the total is
/// that of the windows of this call. The disk is handed back.
///
/// The status tells how the call ended, as that of `still_command` does, and besides: 9, the disk
/// failed, and the sink holds a first part of what was due; 10, the journal is damaged, and nothing
/// is written.
pub fn keep_command<S: Source, K: Sink, B: Bench, Q: Disk>(
    alloc: Global,
    words: &[String],
    source: &mut S,
    sink: &mut K,
    bench: &mut B,
    disk: Q,
) -> (Finish<B::Dev>, Q)
    ensures status { result.0.status ≡ status_for_fault result.0.fault }
    ensures ends { KeepEnds B.Dev.shows Q.told Q.seen Q.images Q.moment Q.images_since Q.faults
        (keep_options_of (map string_bytes words.now)) (read_off (S.left source.old)
        (S.left source.new) (S.faults source.old) (S.faults source.new))
        (written (K.holds sink.old) (K.holds sink.new) (K.faults sink.old) (K.faults sink.new)) disk
        result.1 result.0.day result.0.fault }
    // No device is built, so none is called, before a day begins.
    ensures unasked { result.0.day ≡ None → bench.new ≡ bench.old }
{
    let options = match read_day_words(alloc, DayCall::Keeps, words) {
        Ok(options) => options,
        Err(WordFault::Words) => return (refuse(Fault::Words), disk),
        Err(WordFault::NoMemory) => return (refuse(Fault::Memory), disk),
    };
    match read_input(alloc, source) {
        Ok(script) => keep_script(alloc, &script, options, sink, bench, disk),
        Err(fault) => (refuse(fault), disk),
    }
}
