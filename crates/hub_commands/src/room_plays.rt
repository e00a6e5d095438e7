//! The next window of every room: opened, worked and closed.
ghost use Rattle.hub_commands.specs.RoomDays.{RoomsAreUnderWay, Windows};
ghost use Rattle.hub_commands.specs.RoomPlays.{AreOpened, AreTakenApart, IsRoomOpened, MayAllOpen, RoomsWent};
ghost use Rattle.hub_core.specs.Homes.{setting_for};
ghost use Rattle.hub_core.specs.Openings.{MayOpen, is_mode};
ghost use Rattle.room_hubs.specs.Rooms.{plain_rooms, rooms_of};
ghost use Rattle.room_hubs.specs.Splits.{script_split};
ghost use Rattle.routine_reader.specs.Scripts.{plain_script};
ghost use Rattle.routine_reader.specs.Sound.{IsSound};
ghost use Rattle.std.specs.Prelude.{◌≡◌, ◌<◌, ◌≤◌, [], IfOk, IsOk, IsTrue, Some, length, reverse, slice_get};

use day_clock::Clock;
use device_states::Device;
use home_types::{List, Mode, NoMemory};
use hub_core::Home;
use hub_threads::{RoomDone, RoomHub, run_rooms};
use room_hubs::{RoomRoster, RoomWindow, Rooms, reversed, room_for, split, turned};
use routine_reader::Script;
use std::alloc::Global;
use std::sync::Wait;
use std::thread::Threads;

/// The homes of the rooms, and their windows that were just closed, both in the order of the rooms.
#[derive(Drop)]
pub struct ClosedRooms<Dev: Device> {
    pub homes: List<Home<Dev>>,
    pub windows: List<RoomWindow>,
}

/// Opens the window of this room on its home.
fn open_room<Dev: Device>(
    alloc: Global,
    roster: RoomRoster,
    mode: Mode,
    rounds: u32,
    home: Home<Dev>,
) -> Result<RoomHub<Dev>, NoMemory>
    requires { MayOpen (setting_for home roster.roster mode) rounds home.opened }
    ensures roster { IfOk result (λ room. room.roster ≡ roster) }
    ensures opened { IfOk result (λ room. IsRoomOpened Dev.shows mode rounds home room) }
{
    let runs = match roster.runs_again(alloc) {
        Ok(runs) => runs,
        Err(NoMemory) => {
            drop(roster);
            drop(home);
            return Err(NoMemory);
        }
    };
    match home.open_window(alloc, runs, mode, rounds) {
        Ok(hub) => Ok(RoomHub { roster, hub }),
        Err(refused) => {
            drop(refused);
            drop(roster);
            Err(NoMemory)
        }
    }
}

/// Opens the windows of these rooms on their homes, those of the last room first.
fn open_backward<Dev: Device>(
    alloc: Global,
    mut rosters: List<RoomRoster>,
    mode: Mode,
    rounds: u32,
    mut homes: List<Home<Dev>>,
    mut hubs: List<RoomHub<Dev>>,
) -> Result<List<RoomHub<Dev>>, NoMemory>
    requires may { MayAllOpen mode rounds rosters.items homes.items }
    requires count { length rosters.items ≡ length homes.items }
    requires empty { hubs.items ≡ [] }
    requires room { length homes.items ≤ hubs.spare }
    ensures { IfOk result (λ backward. AreOpened Dev.shows mode rounds rosters.items homes.items
        (reverse backward.items)) }
{
    'rooms: while let Some(home) = homes.pop() {
        let roster = rosters.pop().unwrap();
        match open_room(alloc, roster, mode, rounds, home) {
            Ok(hub) => hubs.push(hub).unwrap(),
            Err(NoMemory) => {
                drop(rosters);
                drop(homes);
                drop(hubs);
                return Err(NoMemory);
            }
        }
    }
    drop(rosters);
    drop(homes);
    Ok(hubs)
}

/// Opens the windows of these rooms on their homes, in order.
fn open_rooms<Dev: Device>(
    alloc: Global,
    rosters: List<RoomRoster>,
    mode: Mode,
    rounds: u32,
    homes: List<Home<Dev>>,
) -> Result<List<RoomHub<Dev>>, NoMemory>
    requires may { MayAllOpen mode rounds rosters.items homes.items }
    requires count { length rosters.items ≡ length homes.items }
    ensures { IfOk result
        (λ hubs. AreOpened Dev.shows mode rounds rosters.items homes.items hubs.items) }
{
    let room = match room_for(alloc, rosters.len()) {
        Ok(room) => room,
        Err(NoMemory) => {
            drop(rosters);
            drop(homes);
            return Err(NoMemory);
        }
    };
    match open_backward(alloc, rosters, mode, rounds, homes, room) {
        Ok(backward) => reversed(alloc, backward),
        Err(NoMemory) => Err(NoMemory),
    }
}

/// Room for the rooms that are closed, so that none is lost for want of memory.
#[derive(Drop)]
struct ClosingRoom<Dev: Device> {
    done: List<RoomDone<Dev>>,
    homes: List<Home<Dev>>,
    windows: List<RoomWindow>,
}

impl<Dev: Device> ClosingRoom<Dev> {
    /// Room for so many rooms, or `NoMemory`.
    fn reserve(alloc: Global, rooms: u64) -> Result<ClosingRoom<Dev>, NoMemory>
        ensures empty { IfOk result
            (λ room. (room.done.items ≡ []) × (room.homes.items ≡ []) × (room.windows.items ≡ [])) }
        ensures room { IfOk result (λ room. (rooms ≤ room.done.spare) × (rooms ≤ room.homes.spare)
            × (rooms ≤ room.windows.spare)) }
    {
        Ok(ClosingRoom {
            done: room_for(alloc, rooms)?,
            homes: room_for(alloc, rooms)?,
            windows: room_for(alloc, rooms)?,
        })
    }

    /// The homes and the windows of the rooms that were worked.
    fn close(self, done: List<RoomDone<Dev>>) -> ClosedRooms<Dev>
        requires empty { (self.done.items ≡ []) × (self.homes.items ≡ [])
            × (self.windows.items ≡ []) }
        requires room { (length done.items ≤ self.done.spare)
            × (length done.items ≤ self.homes.spare) × (length done.items ≤ self.windows.spare) }
        ensures { AreTakenApart Dev.shows done.items result.homes.items result.windows.items }
    {
        let ClosingRoom {
            done: room,
            mut homes,
            mut windows,
        } = self;
        let mut backward = turned(done, room);
        'rooms: while let Some(room) = backward.pop() {
            let RoomDone { window, home } = room;
            home.kept_invariant();
            homes.push(home).unwrap();
            windows.push(window).unwrap();
        }
        ClosedRooms { homes, windows }
    }
}

/// Works the window of this number, from 0, in every room: each by its own hub, all at once.
///
/// Answers `NoMemory` where there is none to be had; the homes are dropped then. It may wait.
pub fn work_rooms<R: Threads + Wait + Sync, Dev: Device + Send, C: Clock + Sync>(
    rt: &R,
    alloc: Global,
    script: &Script,
    rooms: &Rooms,
    mode: Mode,
    number: u32,
    homes: List<Home<Dev>>,
    clock: &C,
) -> Result<ClosedRooms<Dev>, NoMemory>
    requires sound { IsSound (plain_script script.now) }
    requires rooms { plain_rooms rooms.now ≡ rooms_of script.now }
    requires goes { IsTrue (is_mode mode) }
    requires there { number < length script.now.windows.items }
    requires splits { IsOk (script_split script.now number) }
    requires under_way { (windows : Windows) × (length windows ≡ number) × RoomsAreUnderWay
        (C.earliest clock.now) (C.latest clock.now) Dev.shows script.now mode homes.items windows }
    ensures { (window : _) → slice_get script.now.windows.items number ≡ Some window
        → IfOk result (λ closed. RoomsWent Dev.shows (C.earliest clock.now) (C.latest clock.now)
        script.now mode number window.probes homes.items closed.homes.items closed.windows.items) }
{
    let rounds = script.windows.as_slice()[number as usize].probes;
    let rosters = match split(alloc, script, rooms, number) {
        Ok(rosters) => rosters,
        Err(_) => {
            drop(homes);
            return Err(NoMemory);
        }
    };
    let hubs = open_rooms(alloc, rosters, mode, rounds, homes)?;
    let room = match ClosingRoom::reserve(alloc, hubs.len()) {
        Ok(room) => room,
        Err(NoMemory) => {
            drop(hubs);
            return Err(NoMemory);
        }
    };
    match run_rooms(rt, alloc, hubs, rounds, clock) {
        Ok(done) => Ok(room.close(done)),
        Err(NoMemory) => {
            drop(room);
            Err(NoMemory)
        }
    }
}
