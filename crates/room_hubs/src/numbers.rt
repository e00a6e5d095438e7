//! The numbers of a room's devices and runs: its own, and those of the home.
ghost use Rattle.command_rules.specs.Rosters.{device_no, run_no};
ghost use Rattle.home_types.specs.Limits.{most_devices, most_runs};
ghost use Rattle.room_hubs.specs.Numbers.{IsOwnDevice, IsOwnItem, IsOwnRun, home_device, home_item, home_run, numbers_of_devices, numbers_of_runs, own_command, own_device, own_run_no, place_in, plain_room};
ghost use Rattle.std.specs.List.{position};
ghost use Rattle.std.specs.Prelude.{◌≡◌, ◌<◌, ◌≤◌, ◌==◌, IfSome, length};

use crate::rosters::RoomRoster;
use home_types::{Command, DeviceNo, Item, RunNo};

impl RoomRoster {
    /// The home's number of a device of the room.
    pub fn home_device(&self, device: DeviceNo) -> DeviceNo
        requires { IsOwnDevice (plain_room self.now) device.0 }
        ensures { result ≡ device_no (home_device (plain_room self.now) device.0) }
    {
        self.devices.as_slice()[device.0 as usize]
    }

    /// The home's number of a run of the room.
    pub fn home_run(&self, run: RunNo) -> RunNo
        requires { IsOwnRun (plain_room self.now) run.0 }
        ensures { result ≡ run_no (home_run (plain_room self.now) run.0) }
    {
        self.runs.as_slice()[run.0 as usize - 1]
    }

    /// An item of the room, in the home's numbers.
    pub fn home_item(&self, item: Item) -> Item
        requires { IsOwnItem (plain_room self.now) item }
        ensures { result ≡ home_item (plain_room self.now) item }
    {
        match item {
            Item::Ran(run) => Item::Ran(self.home_run(run)),
            Item::Failed(device, number) => Item::Failed(self.home_device(device), number),
            Item::Back(device, number) => Item::Back(self.home_device(device), number),
        }
    }
}

fn place_of_device(devices: &[DeviceNo], device: DeviceNo) -> Option<usize>
    ensures place { result ≡ position (λ known. known.0 == device.0) devices.now }
    ensures within { IfSome result (λ place. place < length devices.now) }
{
    devices.iter().position(|known| known.0 == device.0)
}

fn place_of_run(runs: &[RunNo], run: RunNo) -> Option<usize>
    ensures place { result ≡ position (λ known. known.0 == run.0) runs.now }
    ensures within { IfSome result (λ place. place < length runs.now) }
{
    runs.iter().position(|known| known.0 == run.0)
}

/// The place of a device among these: how many they are, where it is none of them.
pub(crate) fn place_in(devices: &[DeviceNo], device: DeviceNo) -> usize
    ensures { result ≡ place_in (numbers_of_devices devices.now) device.0 }
{
    match place_of_device(devices, device) {
        Some(place) => place,
        None => devices.len(),
    }
}

/// A device of the home in the own numbers of a room with these devices: how many they are, where
/// it is none of them.
fn own_device(devices: &[DeviceNo], device: DeviceNo) -> DeviceNo
    requires { length devices.now ≤ most_devices }
    ensures { result ≡ own_device (numbers_of_devices devices.now) device }
{
    match place_of_device(devices, device) {
        Some(place) => DeviceNo(place as u16),
        None => DeviceNo(devices.len() as u16),
    }
}

/// A command of the home in the own numbers of a room with these devices.
pub fn own_command(devices: &[DeviceNo], command: Command) -> Command
    requires { length devices.now ≤ most_devices }
    ensures { result ≡ own_command (numbers_of_devices devices.now) command }
{
    Command {
        device: own_device(devices, command.device),
        ..command
    }
}

/// A run of the home in the own numbers of a room with these runs, which count from 1: one more
/// than they are, where it is none of them.
pub fn own_run_no(runs: &[RunNo], run: RunNo) -> RunNo
    requires { length runs.now ≤ most_runs }
    ensures { result ≡ own_run_no (numbers_of_runs runs.now) run }
{
    match place_of_run(runs, run) {
        Some(place) => RunNo(place as u32 + 1),
        None => RunNo(runs.len() as u32 + 1),
    }
}
