//! What the lines of a home's window tell, from the windows of its rooms.
ghost use Rattle.room_hubs.specs.Merges.{HasOwnOrder, room_order};
ghost use Rattle.room_hubs.specs.Numbers.{plain_room};
ghost use Rattle.room_hubs.specs.ToldWindows.{IsToldOfRooms, end_in_home, joined_history, joined_home, last_of_room, stand_in, told_cause, told_device, told_entry, told_kept, told_run};
ghost use Rattle.home_types.specs.Limits.{most_devices};
ghost use Rattle.room_hubs.specs.Splits.{device_room};
ghost use Rattle.std.specs.Prelude.{◌≡◌, ◌<◌, ◌≤◌, ◌++◌, All, IfOk, OnOk, [], length, map, slice_index_or};

use crate::joins::joined;
use crate::numbers::place_in;
use crate::rosters::{RoomRoster, RoomWindow, Rooms};
use crate::splits::device_room;
use history_book::{Cause, End, Entry, Kept, WindowRecord};
use home_types::{DeviceNo, List, Mode, NoMemory, RunNo, Stand, World};
use std::alloc::Global;

/// A device that no room has.
const NOWHERE: Stand = Stand {
    value: 0,
    up: false,
};

/// The home's number of a device that an entry of the room names.
fn told_device(roster: &RoomRoster, device: DeviceNo) -> DeviceNo
    ensures { result ≡ told_device (plain_room roster.now) device }
{
    match roster.devices.as_slice().get(device.0 as usize) {
        Some(number) => *number,
        None => DeviceNo(0),
    }
}

/// The home's number of a run that an entry of the room names. Runs count from 1.
fn told_run(roster: &RoomRoster, run: RunNo) -> RunNo
    ensures { result ≡ told_run (plain_room roster.now) run }
{
    if run.0 == 0 {
        return RunNo(0);
    }
    match roster.runs.as_slice().get(run.0 as usize - 1) {
        Some(number) => *number,
        None => RunNo(0),
    }
}

/// A cause, in the home's numbers.
fn told_cause(roster: &RoomRoster, cause: Cause) -> Cause
    ensures { result ≡ told_cause (plain_room roster.now) cause }
{
    match cause {
        Cause::MustDown(command) => Cause::MustDown(command),
        Cause::Refuted(command, value) => Cause::Refuted(command, value),
        Cause::Lost(device) => Cause::Lost(told_device(roster, device)),
        Cause::Revoked {
            lender,
            device,
            deadline,
            moment,
        } => Cause::Revoked {
            lender: told_run(roster, lender),
            device: told_device(roster, device),
            deadline,
            moment,
        },
        Cause::DownAtEnd(device) => Cause::DownAtEnd(told_device(roster, device)),
    }
}

/// An end, with its cause in the home's numbers.
fn told_end(roster: &RoomRoster, end: End) -> End
    ensures { result ≡ end_in_home (plain_room roster.now) end }
{
    match end {
        End::Committed => End::Committed,
        End::Aborted(cause) => End::Aborted(told_cause(roster, cause)),
    }
}

/// An entry, in the home's numbers.
fn told_entry(roster: &RoomRoster, entry: Entry) -> Entry
    ensures { result ≡ told_entry (plain_room roster.now) entry }
{
    match entry {
        Entry::Arrived(run, moment) => Entry::Arrived(told_run(roster, run), moment),
        Entry::Placed(run, at, moment) => Entry::Placed(told_run(roster, run), at, moment),
        Entry::Did(run, command, answer) => Entry::Did(told_run(roster, run), command, answer),
        Entry::Undid(run, device, drove) => {
            Entry::Undid(told_run(roster, run), told_device(roster, device), drove)
        }
        Entry::Fell(device) => Entry::Fell(told_device(roster, device)),
        Entry::Rose(device) => Entry::Rose(told_device(roster, device)),
        Entry::Doomed(run, cause) => Entry::Doomed(
            told_run(roster, run),
            told_cause(roster, cause),
        ),
        Entry::Ended(run, end) => Entry::Ended(told_run(roster, run), told_end(roster, end)),
    }
}

/// An entry with its maker, in the home's numbers.
fn told_kept(roster: &RoomRoster, kept: Kept) -> Kept
    ensures { result ≡ told_kept (plain_room roster.now) kept }
{
    let maker = told_run(roster, RunNo(kept.maker));
    Kept {
        maker: maker.0,
        entry: told_entry(roster, kept.entry),
    }
}

/// Puts the history of a room at the end, in the home's numbers.
fn push_history(
    history: &mut List<Kept>,
    roster: &RoomRoster,
    entries: &[Kept],
) -> Result<(), NoMemory>
    ensures { OnOk result (history.new.items
        ≡ history.old.items ++ map (told_kept (plain_room roster.now)) entries.now) }
{
    'entries: for kept in entries {
        history.push(told_kept(roster, *kept))?;
    }
    Ok(())
}

/// The histories of the rooms, room after room, in the home's numbers.
fn told_history(alloc: Global, windows: &[RoomWindow]) -> Result<List<Kept>, NoMemory>
    ensures { IfOk result (λ history. history.items ≡ joined_history windows.now) }
{
    let mut history = List::new(alloc);
    'windows: for window in windows {
        push_history(
            &mut history,
            &window.roster,
            window.closed.history.as_slice(),
        )?;
    }
    Ok(history)
}

/// Where a device of the home stands at the end of the window of its room.
fn last_stand(window: &RoomWindow, device: DeviceNo) -> Stand
    ensures { result ≡ stand_in (last_of_room window.now) device.0 }
{
    let place = place_in(window.roster.devices.as_slice(), device);
    match window.closed.last.devices.as_slice().get(place) {
        Some(stand) => *stand,
        None => NOWHERE,
    }
}

/// Where a device of the home stands at the end of the windows of its rooms.
fn joined_stand(room_of: &[u32], windows: &[RoomWindow], device: DeviceNo) -> Stand
    ensures { result ≡ stand_in
        (slice_index_or (map last_of_room windows.now) (device_room room_of.now device.0) ([], []))
        device.0 }
{
    match windows.get(device_room(room_of, device) as usize) {
        Some(window) => last_stand(window, device),
        None => NOWHERE,
    }
}

/// How the home stands at the end of the rooms' windows.
fn joined_home(
    alloc: Global,
    room_of: &[u32],
    windows: &[RoomWindow],
) -> Result<List<Stand>, NoMemory>
    requires { length room_of.now ≤ most_devices }
    ensures { IfOk result
        (λ home. home.items ≡ joined_home room_of.now (map last_of_room windows.now)) }
{
    let mut home = List::new(alloc);
    'devices: for d in 0..room_of.len() {
        home.push(joined_stand(room_of, windows, DeviceNo(d as u16)))?;
    }
    Ok(home)
}

/// What the lines of a home's window tell of the windows of its rooms, but for a trace: the entries
/// of the rooms, room after room, the joined order, and how the home stands at last, all in the
/// home's numbers. It has no first state and no counts, since no line tells them.
///
/// Answers `NoMemory` where there is none to be had.
pub fn told_window(
    alloc: Global,
    rooms: &Rooms,
    mode: Mode,
    windows: &List<RoomWindow>,
) -> Result<WindowRecord, NoMemory>
    requires devices { length rooms.now.room_of.items ≤ most_devices }
    requires own { All (λ window. HasOwnOrder (room_order window)) windows.now.items }
    ensures { IfOk result (λ told. IsToldOfRooms rooms.now.room_of.items windows.now.items told) }
{
    let order = joined(alloc, windows)?;
    let history = told_history(alloc, windows.as_slice())?;
    let devices = joined_home(alloc, rooms.room_of.as_slice(), windows.as_slice())?;
    Ok(WindowRecord {
        mode,
        first: World {
            devices: List::new(alloc),
        },
        history,
        order,
        last: World { devices },
        turns: List::new(alloc),
        faults: List::new(alloc),
    })
}
