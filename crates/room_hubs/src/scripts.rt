//! The script of a room: the devices of the home that are in it, and nothing else.
ghost use Rattle.home_types.specs.Limits.{most_devices};
ghost use Rattle.room_hubs.specs.Numbers.{numbers_of_devices};
ghost use Rattle.room_hubs.specs.RoomScripts.{devices_at, plain_devices, room_devices};
ghost use Rattle.room_hubs.specs.Rooms.{plain_rooms, rooms_of};
ghost use Rattle.routine_reader.specs.Scripts.{plain_device, plain_script};
ghost use Rattle.routine_reader.specs.Sound.{IsSound};
ghost use Rattle.std.specs.Prelude.{◌≡◌, ◌<◌, All, IfOk, length, map};

use crate::rosters::Rooms;
use crate::splits::devices_in;
use home_types::{DeviceNo, List, NoMemory, Text};
use routine_reader::{DeviceText, Script};
use std::alloc::Global;

/// The same names.
fn copy_names(alloc: Global, names: &[Text]) -> Result<List<Text>, NoMemory>
    ensures { IfOk result (λ copy. copy.items ≡ names.now) }
{
    let mut copy = List::new(alloc);
    'names: for name in names {
        copy.push(Text::of(alloc, name.as_str())?)?;
    }
    Ok(copy)
}

/// The same device.
fn copy_device(alloc: Global, device: &DeviceText) -> Result<DeviceText, NoMemory>
    ensures { IfOk result (λ copy. plain_device copy ≡ plain_device device.now) }
{
    let name = Text::of(alloc, device.name.as_str())?;
    let states = copy_names(alloc, device.states.as_slice())?;
    let downs = List::of(alloc, device.downs.as_slice())?;
    Ok(DeviceText {
        name,
        kind: device.kind,
        states,
        start: device.start,
        downs,
    })
}

/// The devices of the home with these numbers.
fn copy_devices(
    alloc: Global,
    devices: &[DeviceText],
    numbers: &[DeviceNo],
) -> Result<List<DeviceText>, NoMemory>
    requires { All (λ number. number.0 < length devices.now) numbers.now }
    ensures { IfOk result (λ copy. plain_devices copy.items
        ≡ plain_devices (devices_at devices.now (numbers_of_devices numbers.now))) }
{
    let mut copy = List::new(alloc);
    'numbers: for number in numbers {
        let device = &devices[number.0 as usize];
        copy.push(copy_device(alloc, device)?)?;
    }
    Ok(copy)
}

/// A script with the devices of this room alone, and with no window, or `NoMemory`.
pub fn room_script(
    alloc: Global,
    script: &Script,
    rooms: &Rooms,
    room: u32,
) -> Result<Script, NoMemory>
    requires sound { IsSound (plain_script script.now) }
    requires rooms { plain_rooms rooms.now ≡ rooms_of script.now }
    ensures devices { IfOk result
        (λ own. plain_devices own.devices.items ≡ plain_devices (room_devices script.now room)) }
    ensures sound { IfOk result (λ own. IsSound (plain_script own)) }
{
    let numbers = devices_in(alloc, rooms.room_of.as_slice(), room)?;
    let devices = copy_devices(alloc, script.devices.as_slice(), numbers.as_slice())?;
    Ok(Script {
        devices,
        routines: List::new(alloc),
        windows: List::new(alloc),
    })
}
