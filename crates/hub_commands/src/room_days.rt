//! A day of rooms, window after window: how it begins, goes on and ends, and what is written of it.
ghost use Rattle.home_types.specs.Limits.{most_devices, most_windows};
ghost use Rattle.hub_commands.specs.Finishes.{written};
ghost use Rattle.hub_commands.specs.RoomCalls.{RoomDayEnds, SplitBefore};
ghost use Rattle.hub_commands.specs.RoomDevices.{HasDevicesOf, HasRoomFor, IsRoomed};
ghost use Rattle.hub_commands.specs.RoomGoing.{AreNewHomes, IsFirstDay, IsNewHome, IsNextRoomDay, IsRoomDay, RoomGoesOn, RoomHasEnded, RoomHasWritten, RoomNextIs, RoomStopEnds, TellsLines};
ghost use Rattle.hub_commands.specs.Statuses.{status_for_fault};
ghost use Rattle.history_book.specs.Settings.{is_weak};
ghost use Rattle.hub_core.specs.Openings.{is_mode};
ghost use Rattle.day_report.specs.Days.{window_text as window_lines_of};
ghost use Rattle.room_hubs.specs.Merges.{HasOwnOrder, room_order};
ghost use Rattle.room_hubs.specs.RoomScripts.{room_devices};
ghost use Rattle.room_hubs.specs.Rooms.{plain_rooms, rooms_of};
ghost use Rattle.room_hubs.specs.ToldWindows.{IsToldOfRooms};
ghost use Rattle.routine_reader.specs.Scripts.{plain_script};
ghost use Rattle.routine_reader.specs.Sound.{IsSound};
ghost use Rattle.std.specs.Prelude.{◌≡◌, ◌<◌, ◌≤◌, ◌++◌, ◌∷◌, [], All, Err, IfOk, IsTrue, None, Ok, OnOk, Some, false, length};

use crate::chunks::{ChunkFault, write_chunk};
use crate::faults::Fault;
use crate::room_devices::{DeviceRoom, in_script_order};
use crate::room_finishes::RoomFinish;
use crate::room_plays::work_rooms;
use day_clock::{Clock, Sink};
use day_report::{head_text, total_text, window_text};
use device_states::{Bench, Device};
use history_book::WindowRecord;
use home_types::{Bytes, List, Mode, NoMemory};
use hub_core::Home;
use room_hubs::{RoomWindow, Rooms, room_for, room_script, told_window};
use routine_reader::Script;
use std::alloc::Global;
use std::sync::Wait;
use std::thread::Threads;

/// A day of rooms under way.
#[derive(Drop)]
struct RoomDay<Dev: Device> {
    /// The homes of the rooms after the last window.
    homes: List<Home<Dev>>,
    /// The windows that every room closed.
    windows: List<List<RoomWindow>>,
    /// What the lines of each of these windows tell.
    told: List<WindowRecord>,
    /// Room for the devices at the day's end.
    room: DeviceRoom<Dev>,
}

/// Ends the call before a window was closed.
pub fn refuse_rooms<Dev: Device>(alloc: Global, fault: Fault) -> RoomFinish<Dev>
    ensures status { result.status ≡ status_for_fault result.fault }
    ensures fault { result.fault ≡ Some fault }
    ensures windows { result.windows.items ≡ [] }
    ensures devices { result.devices ≡ None }
{
    end_without_devices(List::new(alloc), fault)
}

/// Ends the call with the windows that were closed, and without devices.
fn end_without_devices<Dev: Device>(
    windows: List<List<RoomWindow>>,
    fault: Fault,
) -> RoomFinish<Dev>
    ensures status { result.status ≡ status_for_fault result.fault }
    ensures fault { result.fault ≡ Some fault }
    ensures windows { result.windows ≡ windows }
    ensures devices { result.devices ≡ None }
{
    RoomFinish {
        status: fault.status(),
        windows,
        devices: None,
        fault: Some(fault),
    }
}

/// Ends a day on which a chunk of the record was not written: with its devices where the sink
/// failed, and without them where memory was wanted.
fn stop<Dev: Device>(rooms: &Rooms, day: RoomDay<Dev>, fault: ChunkFault) -> RoomFinish<Dev>
    requires room { HasRoomFor (length day.homes.items) (length rooms.now.room_of.items) day.room }
    requires rooms { IsRoomed rooms.now.room_of.items (length day.homes.items) }
    requires devices { HasDevicesOf rooms.now.room_of.items day.homes.items }
    ensures status { result.status ≡ status_for_fault result.fault }
    ensures windows { result.windows ≡ day.windows }
    ensures ends { RoomStopEnds rooms.now.room_of.items day.homes.items fault
        result.devices result.fault }
{
    let RoomDay {
        homes,
        windows,
        told,
        room,
    } = day;
    drop(told);
    match fault {
        ChunkFault::Sink => RoomFinish {
            status: Fault::Write.status(),
            windows,
            devices: Some(in_script_order(rooms.room_of.as_slice(), homes, room)),
            fault: Some(Fault::Write),
        },
        ChunkFault::Memory => {
            drop(homes);
            drop(room);
            end_without_devices(windows, Fault::Memory)
        }
    }
}

/// Builds the home of a room on the bench, from a script with the room's devices alone.
fn build_room<B: Bench>(
    alloc: Global,
    script: &Script,
    rooms: &Rooms,
    room: u32,
    bench: &mut B,
) -> Result<Home<B::Dev>, NoMemory>
    requires sound { IsSound (plain_script script.now) }
    requires rooms { plain_rooms rooms.now ≡ rooms_of script.now }
    ensures { IfOk result (λ home. IsNewHome B.Dev.shows (room_devices script.now room) home) }
{
    let own = room_script(alloc, script, rooms, room)?;
    let home = Home::build(alloc, bench, &own);
    drop(own);
    home
}

/// Builds the home of each room on the bench.
fn build_rooms<B: Bench>(
    alloc: Global,
    script: &Script,
    rooms: &Rooms,
    bench: &mut B,
) -> Result<List<Home<B::Dev>>, NoMemory>
    requires sound { IsSound (plain_script script.now) }
    requires rooms { plain_rooms rooms.now ≡ rooms_of script.now }
    ensures { IfOk result (λ homes. AreNewHomes B.Dev.shows script.now homes.items) }
{
    let mut homes = List::new(alloc);
    'rooms: for room in 0..rooms.names.len() {
        let home = match build_room(alloc, script, rooms, room as u32, bench) {
            Ok(home) => home,
            Err(NoMemory) => {
                drop(homes);
                return Err(NoMemory);
            }
        };
        if homes.push(home).is_err() {
            drop(homes);
            return Err(NoMemory);
        }
    }
    Ok(homes)
}

/// The day before its first window.
fn first_day<B: Bench>(
    alloc: Global,
    script: &Script,
    rooms: &Rooms,
    bench: &mut B,
) -> Result<RoomDay<B::Dev>, NoMemory>
    requires sound { IsSound (plain_script script.now) }
    requires rooms { plain_rooms rooms.now ≡ rooms_of script.now }
    ensures { IfOk result (λ day. IsFirstDay B.Dev.shows script.now day) }
{
    let windows = room_for(alloc, script.windows.len())?;
    let room = match DeviceRoom::reserve(alloc, rooms.names.len(), rooms.room_of.len()) {
        Ok(room) => room,
        Err(NoMemory) => {
            drop(windows);
            return Err(NoMemory);
        }
    };
    match build_rooms(alloc, script, rooms, bench) {
        Ok(homes) => Ok(RoomDay {
            homes,
            windows,
            told: List::new(alloc),
            room,
        }),
        Err(NoMemory) => {
            drop(windows);
            drop(room);
            Err(NoMemory)
        }
    }
}

/// Begins the script's day: has the devices built by the bench, and writes the head of the record.
fn begin<K: Sink, B: Bench, C: Clock>(
    alloc: Global,
    script: &Script,
    rooms: &Rooms,
    mode: Mode,
    sink: &mut K,
    bench: &mut B,
    _clock: &C,
) -> Result<RoomDay<B::Dev>, RoomFinish<B::Dev>>
    requires sound { IsSound (plain_script script.now) }
    requires rooms { plain_rooms rooms.now ≡ rooms_of script.now }
    requires splits { SplitBefore script.now (length script.now.windows.items) }
    requires strong { is_weak mode ≡ false }
    ensures { RoomGoesOn (C.earliest _clock.now) (C.latest _clock.now) B.Dev.shows script.now mode
        (written (K.holds sink.old) (K.holds sink.new) (K.faults sink.old) (K.faults sink.new)) 0
        result }
{
    let day = match first_day(alloc, script, rooms, bench) {
        Ok(day) => day,
        Err(NoMemory) => return Err(refuse_rooms(alloc, Fault::Memory)),
    };
    match write_chunk(sink, head_text(alloc, mode)) {
        Ok(()) => Ok(day),
        Err(fault) => Err(stop(rooms, day, fault)),
    }
}

/// Works the next window of the script in every room.
///
/// Where memory is wanted the windows before come back; the homes are dropped.
fn work_next<R: Threads + Wait + Sync, Dev: Device + Send, C: Clock + Sync>(
    rt: &R,
    alloc: Global,
    script: &Script,
    rooms: &Rooms,
    mode: Mode,
    day: RoomDay<Dev>,
    clock: &C,
) -> Result<RoomDay<Dev>, List<List<RoomWindow>>>
    requires sound { IsSound (plain_script script.now) }
    requires rooms { plain_rooms rooms.now ≡ rooms_of script.now }
    requires goes { IsTrue (is_mode mode) }
    requires strong { is_weak mode ≡ false }
    requires splits { SplitBefore script.now (length script.now.windows.items) }
    requires next { length day.windows.items < length script.now.windows.items }
    requires day { IsRoomDay (C.earliest clock.now)
        (C.latest clock.now) Dev.shows script.now mode day.windows.items day }
    ensures { RoomNextIs (C.earliest clock.now)
        (C.latest clock.now) Dev.shows script.now mode day.windows.items result }
{
    let RoomDay {
        homes,
        mut windows,
        told,
        room,
    } = day;
    let number = windows.len() as u32;
    match work_rooms(rt, alloc, script, rooms, mode, number, homes, clock) {
        Ok(closed) => {
            windows.push(closed.windows).unwrap();
            Ok(RoomDay {
                homes: closed.homes,
                windows,
                told,
                room,
            })
        }
        Err(NoMemory) => {
            drop(told);
            drop(room);
            Err(windows)
        }
    }
}

/// Puts what the lines of the last window tell behind what those before it told.
fn tell_last(
    alloc: Global,
    rooms: &Rooms,
    mode: Mode,
    windows: &List<List<RoomWindow>>,
    told: &mut List<WindowRecord>,
) -> Result<(), NoMemory>
    requires some { 0 < length windows.now.items }
    requires devices { length rooms.now.room_of.items ≤ most_devices }
    requires own { All (λ ws. All (λ window. HasOwnOrder (room_order window)) ws.items)
        windows.now.items }
    ensures { (before : _) (ws : _) → windows.now.items ≡ before ++ ws ∷ [] → OnOk result
        ((last : _) × IsToldOfRooms rooms.now.room_of.items ws.items last
        × (told.new.items ≡ told.old.items ++ last ∷ [])) }
{
    let number = windows.len() as usize - 1;
    let last = told_window(alloc, rooms, mode, &windows.as_slice()[number])?;
    told.push(last)
}

/// The lines of the last window that was told.
fn last_lines(
    alloc: Global,
    script: &Script,
    mode: Mode,
    told: &List<WindowRecord>,
) -> Result<Bytes, NoMemory>
    requires some { 0 < length told.now.items }
    requires few { length told.now.items ≤ most_windows }
    ensures { (before : _) (last : _) → told.now.items ≡ before ++ last ∷ [] → IfOk result
        (λ lines. lines ≡ window_lines_of script.now (length before) last mode false) }
{
    let number = told.len() as usize - 1;
    let last = &told.as_slice()[number];
    window_text(alloc, script, number as u32, last, mode, false)
}

/// Tells the last window, and makes its lines.
fn tell_lines(
    alloc: Global,
    script: &Script,
    rooms: &Rooms,
    mode: Mode,
    windows: &List<List<RoomWindow>>,
    told: &mut List<WindowRecord>,
) -> Result<Bytes, NoMemory>
    requires some { 0 < length windows.now.items }
    requires few { length told.old.items < most_windows }
    requires devices { length rooms.now.room_of.items ≤ most_devices }
    requires own { All (λ ws. All (λ window. HasOwnOrder (room_order window)) ws.items)
        windows.now.items }
    ensures { (before : _) (ws : _) → windows.now.items ≡ before ++ ws ∷ []
        → IfOk result (TellsLines script.now rooms.now.room_of.items mode ws.items told.old.items
        told.new.items) }
{
    match tell_last(alloc, rooms, mode, windows, told) {
        Ok(()) => last_lines(alloc, script, mode, told),
        Err(NoMemory) => Err(NoMemory),
    }
}

/// Goes on with what came of the next window: writes its lines.
fn go_on<Dev: Device, K: Sink, C: Clock>(
    alloc: Global,
    script: &Script,
    rooms: &Rooms,
    mode: Mode,
    next: Result<RoomDay<Dev>, List<List<RoomWindow>>>,
    sink: &mut K,
    _clock: &C,
) -> Result<RoomDay<Dev>, RoomFinish<Dev>>
    requires sound { IsSound (plain_script script.now) }
    requires rooms { plain_rooms rooms.now ≡ rooms_of script.now }
    requires splits { SplitBefore script.now (length script.now.windows.items) }
    requires strong { is_weak mode ≡ false }
    requires next { IsNextRoomDay (C.earliest _clock.now)
        (C.latest _clock.now) Dev.shows script.now mode next }
    ensures { RoomHasWritten (C.earliest _clock.now) (C.latest _clock.now) Dev.shows script.now mode
        (written (K.holds sink.old) (K.holds sink.new) (K.faults sink.old) (K.faults sink.new)) next
        result }
{
    let mut day = match next {
        Ok(day) => day,
        Err(windows) => return Err(end_without_devices(windows, Fault::Memory)),
    };
    let lines = tell_lines(alloc, script, rooms, mode, &day.windows, &mut day.told);
    match write_chunk(sink, lines) {
        Ok(()) => Ok(day),
        Err(fault) => Err(stop(rooms, day, fault)),
    }
}

/// Ends a day whose windows were all worked: writes the total.
fn end<Dev: Device, K: Sink, C: Clock>(
    alloc: Global,
    script: &Script,
    rooms: &Rooms,
    mode: Mode,
    day: RoomDay<Dev>,
    sink: &mut K,
    _clock: &C,
) -> RoomFinish<Dev>
    requires sound { IsSound (plain_script script.now) }
    requires rooms { plain_rooms rooms.now ≡ rooms_of script.now }
    requires splits { SplitBefore script.now (length script.now.windows.items) }
    requires strong { is_weak mode ≡ false }
    requires day { IsRoomDay (C.earliest _clock.now)
        (C.latest _clock.now) Dev.shows script.now mode day.windows.items day }
    requires all { length day.windows.items ≡ length script.now.windows.items }
    ensures status { result.status ≡ status_for_fault result.fault }
    ensures ends { RoomHasEnded (C.earliest _clock.now) (C.latest _clock.now) Dev.shows script.now
        mode (written (K.holds sink.old) (K.holds sink.new) (K.faults sink.old) (K.faults sink.new))
        day result }
{
    if let Err(fault) = write_chunk(sink, total_text(alloc, &day.told)) {
        return stop(rooms, day, fault);
    }
    let RoomDay {
        homes,
        windows,
        told,
        room,
    } = day;
    drop(told);
    RoomFinish {
        status: 0,
        windows,
        devices: Some(in_script_order(rooms.room_of.as_slice(), homes, room)),
        fault: None,
    }
}

/// Runs the script's day with a hub for each room, and writes its record: the head, each window as
/// every room has closed it, and the total.
pub fn run_room_day<R: Threads + Wait + Sync, K: Sink, B: Bench, C: Clock + Sync>(
    rt: &R,
    alloc: Global,
    script: &Script,
    rooms: &Rooms,
    mode: Mode,
    sink: &mut K,
    bench: &mut B,
    clock: &C,
) -> RoomFinish<B::Dev>
where
    B::Dev: Send,
    requires sound { IsSound (plain_script script.now) }
    requires rooms { plain_rooms rooms.now ≡ rooms_of script.now }
    requires goes { IsTrue (is_mode mode) }
    requires strong { is_weak mode ≡ false }
    requires splits { SplitBefore script.now (length script.now.windows.items) }
    ensures status { result.status ≡ status_for_fault result.fault }
    ensures ends { RoomDayEnds (C.earliest clock.now) (C.latest clock.now) B.Dev.shows script.now
        mode (written (K.holds sink.old) (K.holds sink.new) (K.faults sink.old) (K.faults sink.new))
        result.windows.items result.devices result.fault }
{
    let mut day = match begin(alloc, script, rooms, mode, sink, bench, clock) {
        Ok(day) => day,
        Err(finish) => return finish,
    };
    'windows: for _ in 0..script.windows.len() {
        let next = work_next(rt, alloc, script, rooms, mode, day, clock);
        day = match go_on(alloc, script, rooms, mode, next, sink, clock) {
            Ok(day) => day,
            Err(finish) => return finish,
        };
    }
    end(alloc, script, rooms, mode, day, sink, clock)
}
