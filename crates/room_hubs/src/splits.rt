//! How a window is split among the rooms of the home.
ghost use Rattle.command_rules.specs.Rosters.{commands_of, plain_run, runs_of};
ghost use Rattle.home_types.specs.Limits.{most_devices, most_runs};
ghost use Rattle.room_hubs.specs.Numbers.{numbers_of_devices, numbers_of_runs, own_command, own_run, plain_room};
ghost use Rattle.room_hubs.specs.Rooms.{plain_rooms, rooms_of};
ghost use Rattle.room_hubs.specs.Splits.{all_rooms, cross_fault, crosses, crosses_rooms, device_room, devices_in, follows_across, own_runs, room_at, run_room, runs_in, script_split, window_split};
ghost use Rattle.routine_reader.specs.Scripts.{plain_script};
ghost use Rattle.routine_reader.specs.Sound.{IsSound};
ghost use Rattle.std.specs.List.{position};
ghost use Rattle.std.specs.Prelude.{◌≡◌, ◌≢◌, ◌<◌, ◌≤◌, All, IfErr, IfOk, IfSome, Err, Ok, length, map};

use crate::numbers::{own_command, own_run_no};
use crate::rosters::{RoomRoster, Rooms};
use command_rules::{Roster, RosterRun};
use home_types::{Command, DeviceNo, List, NoMemory, Routine, RunNo};
use routine_reader::{Script, roster};
use std::alloc::Global;

/// Why a window is not split among the rooms.
#[derive(Clone, Copy, Debug, PartialEq, Eq)]
pub enum SplitFault {
    /// Want of memory.
    NoMemory,
    /// The run is the first one that crosses rooms, and has commands in two of them.
    CrossRoom(RunNo),
    /// The run is the first one that crosses rooms: it follows a run of another room.
    CrossFollow(RunNo),
}

/// The room of a device.
pub(crate) fn device_room(room_of: &[u32], device: DeviceNo) -> u32
    ensures { result ≡ device_room room_of.now device.0 }
{
    match room_of.get(device.0 as usize) {
        Some(room) => *room,
        None => 0,
    }
}

/// The room of a run with these commands.
fn run_room(room_of: &[u32], commands: &[Command]) -> u32
    ensures { result ≡ run_room room_of.now commands.now }
{
    match commands.first() {
        Some(first) => device_room(room_of, first.device),
        None => 0,
    }
}

/// The commands of a run, none where there is no such run.
fn commands_of(runs: &[RosterRun], run: RunNo) -> &[Command]
    ensures { result.now ≡ commands_of (map plain_run runs.now) run.0 }
{
    if run.0 == 0 {
        return &[];
    }
    match runs.get(run.0 as usize - 1) {
        Some(run) => run.routine.commands.as_slice(),
        None => &[],
    }
}

/// Whether a run with these commands has some in two rooms.
fn crosses_rooms(room_of: &[u32], commands: &[Command]) -> bool
    ensures { result ≡ crosses_rooms room_of.now commands.now }
{
    let room = run_room(room_of, commands);
    commands
        .iter()
        .any(|command| device_room(room_of, command.device) != room)
}

/// Whether a run follows one of another room.
fn follows_across(room_of: &[u32], runs: &[RosterRun], run: &RosterRun) -> bool
    ensures { result ≡ follows_across room_of.now (map plain_run runs.now) (plain_run run.now) }
{
    match run.follows {
        Some(followed) => {
            let there = run_room(room_of, commands_of(runs, followed));
            there != run_room(room_of, run.routine.commands.as_slice())
        }
        None => false,
    }
}

fn crosses(room_of: &[u32], runs: &[RosterRun], run: &RosterRun) -> bool
    ensures { result ≡ crosses room_of.now (map plain_run runs.now) (plain_run run.now) }
{
    crosses_rooms(room_of, run.routine.commands.as_slice()) || follows_across(room_of, runs, run)
}

/// The place of the first run that crosses.
fn first_crossing(room_of: &[u32], runs: &[RosterRun]) -> Option<usize>
    ensures place { result
        ≡ position (λ run. crosses room_of.now (map plain_run runs.now) (plain_run run)) runs.now }
    ensures within { IfSome result (λ place. place < length runs.now) }
{
    runs.iter().position(|run| crosses(room_of, runs, run))
}

/// The refusal of a window.
fn cross_fault(room_of: &[u32], runs: &[RosterRun]) -> Option<SplitFault>
    requires { length runs.now ≤ most_runs }
    ensures { result ≡ cross_fault room_of.now (map plain_run runs.now) }
{
    match first_crossing(room_of, runs) {
        Some(place) => {
            let run = RunNo(place as u32 + 1);
            if crosses_rooms(room_of, commands_of(runs, run)) {
                Some(SplitFault::CrossRoom(run))
            } else {
                Some(SplitFault::CrossFollow(run))
            }
        }
        None => None,
    }
}

/// The home's numbers of the devices of a room, in ascending order.
pub(crate) fn devices_in(
    alloc: Global,
    room_of: &[u32],
    room: u32,
) -> Result<List<DeviceNo>, NoMemory>
    requires { length room_of.now ≤ most_devices }
    ensures { IfOk result
        (λ devices. numbers_of_devices devices.items ≡ devices_in room_of.now room) }
{
    let mut devices = List::new(alloc);
    'devices: for d in 0..room_of.len() {
        if room_of[d] == room {
            devices.push(DeviceNo(d as u16))?;
        }
    }
    Ok(devices)
}

/// The home's numbers of the runs of a room, in ascending order.
fn runs_in(
    alloc: Global,
    room_of: &[u32],
    roster: &[RosterRun],
    room: u32,
) -> Result<List<RunNo>, NoMemory>
    requires { length roster.now ≤ most_runs }
    ensures { IfOk result
        (λ runs. numbers_of_runs runs.items ≡ runs_in room_of.now (map plain_run roster.now) room) }
{
    let mut runs = List::new(alloc);
    'runs: for place in 0..roster.len() {
        let run = RunNo(place as u32 + 1);
        let here = run_room(room_of, commands_of(roster, run));
        if here == room {
            runs.push(run)?;
        }
    }
    Ok(runs)
}

/// These commands in the own numbers of a room with these devices.
fn own_commands(
    alloc: Global,
    devices: &[DeviceNo],
    commands: &[Command],
) -> Result<List<Command>, NoMemory>
    requires { length devices.now ≤ most_devices }
    ensures { IfOk result
        (λ own. own.items ≡ map (own_command (numbers_of_devices devices.now)) commands.now) }
{
    let mut own = List::new(alloc);
    own.reserve(commands.len() as u64)?;
    'commands: for command in commands {
        own.push(own_command(devices, *command))?;
    }
    Ok(own)
}

/// A run of the home in the own numbers of a room with these devices and runs.
fn own_run(
    alloc: Global,
    devices: &[DeviceNo],
    mine: &[RunNo],
    run: &RosterRun,
) -> Result<RosterRun, NoMemory>
    requires devices { length devices.now ≤ most_devices }
    requires runs { length mine.now ≤ most_runs }
    ensures { IfOk result (λ own. plain_run own
        ≡ own_run (numbers_of_devices devices.now) (numbers_of_runs mine.now) (plain_run run.now)) }
{
    let commands = own_commands(alloc, devices, run.routine.commands.as_slice())?;
    let follows = match run.follows {
        Some(followed) => Some(own_run_no(mine, followed)),
        None => None,
    };
    Ok(RosterRun {
        routine: Routine::new(alloc, commands)?,
        follows,
    })
}

/// The runs of a room in its own numbers.
fn own_roster(
    alloc: Global,
    devices: &[DeviceNo],
    mine: &[RunNo],
    runs: &[RosterRun],
) -> Result<Roster, NoMemory>
    requires devices { length devices.now ≤ most_devices }
    requires few { length mine.now ≤ most_runs }
    requires there { All (λ run. (1 ≤ run.0) × (run.0 ≤ length runs.now)) mine.now }
    ensures { IfOk result (λ own. runs_of own ≡ own_runs (numbers_of_devices devices.now)
        (numbers_of_runs mine.now) (map plain_run runs.now)) }
{
    let mut own = List::new(alloc);
    own.reserve(mine.len() as u64)?;
    'mine: for number in mine {
        let run = &runs[number.0 as usize - 1];
        own.push(own_run(alloc, devices, mine, run)?)?;
    }
    Ok(Roster { runs: own })
}

/// What a room has of a window with these runs.
fn room_roster(
    alloc: Global,
    room_of: &[u32],
    runs: &[RosterRun],
    room: u32,
) -> Result<RoomRoster, NoMemory>
    requires devices { length room_of.now ≤ most_devices }
    requires runs { length runs.now ≤ most_runs }
    ensures { IfOk result (λ own.
        plain_room own ≡ room_at room_of.now (map plain_run runs.now) room) }
{
    let devices = devices_in(alloc, room_of, room)?;
    let mine = runs_in(alloc, room_of, runs, room)?;
    let roster = own_roster(alloc, devices.as_slice(), mine.as_slice(), runs)?;
    Ok(RoomRoster {
        room,
        devices,
        runs: mine,
        roster,
    })
}

/// What each room has of a window with these runs.
fn room_rosters(
    alloc: Global,
    rooms: &Rooms,
    runs: &[RosterRun],
) -> Result<List<RoomRoster>, NoMemory>
    requires names { length rooms.now.names.items ≤ most_devices }
    requires devices { length rooms.now.room_of.items ≤ most_devices }
    requires runs { length runs.now ≤ most_runs }
    ensures { IfOk result (λ all. map plain_room all.items
        ≡ all_rooms (plain_rooms rooms.now) (map plain_run runs.now)) }
{
    let mut rosters = List::new(alloc);
    'rooms: for room in 0..rooms.names.len() {
        rosters.push(room_roster(alloc, rooms.room_of.as_slice(), runs, room as u32)?)?;
    }
    Ok(rosters)
}

fn split_runs(
    alloc: Global,
    rooms: &Rooms,
    runs: &[RosterRun],
) -> Result<List<RoomRoster>, SplitFault>
    requires names { length rooms.now.names.items ≤ most_devices }
    requires devices { length rooms.now.room_of.items ≤ most_devices }
    requires runs { length runs.now ≤ most_runs }
    ensures rosters { IfOk result (λ all. window_split (plain_rooms rooms.now)
        (map plain_run runs.now) ≡ Ok (map plain_room all.items)) }
    ensures refused { IfErr result (λ e. e ≢ SplitFault.NoMemory
        → window_split (plain_rooms rooms.now) (map plain_run runs.now) ≡ Err e) }
{
    if let Some(fault) = cross_fault(rooms.room_of.as_slice(), runs) {
        return Err(fault);
    }
    match room_rosters(alloc, rooms, runs) {
        Ok(rosters) => Ok(rosters),
        Err(NoMemory) => Err(SplitFault::NoMemory),
    }
}

/// What each room has of the window with this number, from 0, in the order of the rooms: its
/// devices, its runs, and these as a window of its own.
///
/// Answers the smallest run that has commands in two rooms or follows a run of another room: by
/// `CrossRoom` where it has commands in two rooms, else by `CrossFollow`. Answers `NoMemory` where
/// there is none to be had.
pub fn split(
    alloc: Global,
    script: &Script,
    rooms: &Rooms,
    window: u32,
) -> Result<List<RoomRoster>, SplitFault>
    requires window { window < length script.now.windows.items }
    requires sound { IsSound (plain_script script.now) }
    requires rooms { plain_rooms rooms.now ≡ rooms_of script.now }
    ensures rosters { IfOk result
        (λ all. script_split script.now window ≡ Ok (map plain_room all.items)) }
    ensures refused { IfErr result
        (λ e. e ≢ SplitFault.NoMemory → script_split script.now window ≡ Err e) }
{
    let roster = match roster(alloc, script, window) {
        Ok(roster) => roster,
        Err(NoMemory) => return Err(SplitFault::NoMemory),
    };
    let rosters = split_runs(alloc, rooms, roster.runs.as_slice());
    drop(roster);
    rosters
}
