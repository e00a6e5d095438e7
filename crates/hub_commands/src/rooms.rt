//! The call for `rooms`: a day that is run with threads, by a hub for each room.
ghost use Rattle.command_words.specs.RoomWords.{room_mode_of};
ghost use Rattle.hub_commands.specs.Finishes.{read_off, written};
ghost use Rattle.hub_commands.specs.RoomCalls.{IsSplitFault, RoomCallEnds, SplitBefore, SplitsEnd};
ghost use Rattle.hub_commands.specs.Statuses.{status_for_fault};
ghost use Rattle.room_hubs.specs.Rooms.{plain_rooms, rooms_of};
ghost use Rattle.routine_reader.specs.Scripts.{plain_script};
ghost use Rattle.routine_reader.specs.Sound.{IsSound};
ghost use Rattle.std.specs.Prelude.{◌≡◌, ◌<◌, ◌+◌, ◌^◌, Err, IfErr, IfOk, length, map, string_bytes};

use crate::faults::Fault;
use crate::inputs::read_input;
use crate::room_days::{refuse_rooms, run_room_day};
use crate::room_finishes::RoomFinish;
use command_words::{WordFault, read_room_words};
use day_clock::{Clock, Sink, Source};
use device_states::Bench;
use home_types::NoMemory;
use room_hubs::{Rooms, SplitFault, rooms, split};
use routine_reader::Script;
use std::alloc::Global;
use std::sync::Wait;
use std::thread::Threads;

/// The fault of the window with this number, from 0, that is not split.
fn cross_fault(window: u32, fault: SplitFault) -> Fault
    requires { window + 1 < 2 ^ 32 }
    ensures { IsSplitFault window fault result }
{
    match fault {
        SplitFault::NoMemory => Fault::Memory,
        SplitFault::CrossRoom(run) => Fault::Cross {
            window: window + 1,
            run,
            follow: false,
        },
        SplitFault::CrossFollow(run) => Fault::Cross {
            window: window + 1,
            run,
            follow: true,
        },
    }
}

/// Splits each window of the script among the rooms, to see that none is refused.
fn split_all(alloc: Global, script: &Script, rooms: &Rooms) -> Result<(), Fault>
    requires sound { IsSound (plain_script script.now) }
    requires rooms { plain_rooms rooms.now ≡ rooms_of script.now }
    ensures split { IfOk result (λ _. SplitBefore script.now (length script.now.windows.items)) }
    ensures refused { IfErr result (λ fault. SplitsEnd script.now fault) }
{
    'windows: for number in 0..script.windows.len() {
        let window = number as u32;
        match split(alloc, script, rooms, window) {
            Ok(rosters) => drop(rosters),
            Err(fault) => return Err(cross_fault(window, fault)),
        }
    }
    Ok(())
}

/// The rooms of the script, where each of its windows can be split among them.
fn rooms_of(alloc: Global, script: &Script) -> Result<Rooms, Fault>
    requires sound { IsSound (plain_script script.now) }
    ensures rooms { IfOk result (λ rooms. plain_rooms rooms ≡ rooms_of script.now) }
    ensures split { IfOk result (λ _. SplitBefore script.now (length script.now.windows.items)) }
    ensures refused { IfErr result (λ fault. SplitsEnd script.now fault) }
{
    let rooms = match rooms(alloc, script) {
        Ok(rooms) => rooms,
        Err(NoMemory) => return Err(Fault::Memory),
    };
    match split_all(alloc, script, &rooms) {
        Ok(()) => Ok(rooms),
        Err(fault) => Err(fault),
    }
}

/// Runs the command `rooms`, which may wait.
///
/// It does what `run_command` does for `run`, with a hub and a lock for each room of the home, all
/// at once. The room of a device is the part of its name before the first `_`, or the whole name.
/// The words are those of `run` without `--trace` and without the weak model.
///
/// The status tells how the call ended, as that of `run_command` does; and 11, a window has a run
/// with commands in two rooms, or one that follows a run of another room. All windows are looked at
/// before a device is built, and nothing is written then.
pub fn room_command<R: Threads + Wait + Sync, S: Source, K: Sink, B: Bench, C: Clock + Sync>(
    rt: &R,
    alloc: Global,
    words: &[String],
    source: &mut S,
    sink: &mut K,
    bench: &mut B,
    clock: &C,
) -> RoomFinish<B::Dev>
where
    B::Dev: Send,
    ensures status { result.status ≡ status_for_fault result.fault }
    ensures ends { RoomCallEnds (C.earliest clock.now) (C.latest clock.now) B.Dev.shows
        (room_mode_of (map string_bytes words.now)) bench.old bench.new (read_off
        (S.left source.old) (S.left source.new) (S.faults source.old) (S.faults source.new))
        (written (K.holds sink.old) (K.holds sink.new) (K.faults sink.old) (K.faults sink.new))
        result.windows.items result.devices result.fault }
{
    let mode = match read_room_words(alloc, words) {
        Ok(mode) => mode,
        Err(WordFault::Words) => return refuse_rooms(alloc, Fault::Words),
        Err(WordFault::NoMemory) => return refuse_rooms(alloc, Fault::Memory),
    };
    let script = match read_input(alloc, source) {
        Ok(script) => script,
        Err(fault) => return refuse_rooms(alloc, fault),
    };
    match rooms_of(alloc, &script) {
        Ok(rooms) => run_room_day(rt, alloc, &script, &rooms, mode, sink, bench, clock),
        Err(fault) => refuse_rooms(alloc, fault),
    }
}
