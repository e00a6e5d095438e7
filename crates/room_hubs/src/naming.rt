//! Which rooms a home has.
ghost use Rattle.home_types.specs.Limits.{most_devices};
ghost use Rattle.room_hubs.specs.Rooms.{plain_rooms, room_name, rooms_named, rooms_of, with_room};
ghost use Rattle.routine_reader.specs.Names.{place_of};
ghost use Rattle.routine_reader.specs.Scripts.{plain_script};
ghost use Rattle.routine_reader.specs.Sound.{IsSound};
ghost use Rattle.std.specs.List.{position_or_len};
ghost use Rattle.std.specs.Prelude.{◌≡◌, ◌<◌, ◌≤◌, IfOk, IfSome, OnOk, length, map};
ghost use Rattle.std.specs.Str.{bytes_eq};

use crate::rosters::Rooms;
use home_types::{List, NoMemory, Text};
use routine_reader::{DeviceText, Script};
use std::alloc::Global;

/// The name of the room of a device with this name: what stands before the first `_`, or all of it.
fn room_name(device: &str) -> &str
    ensures { result.now ≡ room_name device.now }
{
    match device.split_once('_') {
        Some((room, _)) => room,
        None => device,
    }
}

/// The place of a room among rooms with these names.
fn place_of(names: &[Text], room: &str) -> Option<usize>
    ensures place { result ≡ place_of names.now room.now }
    ensures within { IfSome result (λ place. place < length names.now) }
{
    names.iter().position(|name| room == name.as_str())
}

/// The number of a room. One that is new gets the next number.
fn number_of(alloc: Global, names: &mut List<Text>, room: &str) -> Result<u32, NoMemory>
    requires { length names.old.items < most_devices }
    ensures number { IfOk result (λ n. n ≡ position_or_len (bytes_eq room.now) names.old.items) }
    ensures names { OnOk result (names.new.items ≡ with_room names.old.items room.now) }
{
    match place_of(names.as_slice(), room) {
        Some(place) => Ok(place as u32),
        None => {
            let next = names.len() as u32;
            names.push(Text::of(alloc, room)?)?;
            Ok(next)
        }
    }
}

/// The rooms of these devices.
fn rooms_among(alloc: Global, devices: &[DeviceText]) -> Result<Rooms, NoMemory>
    requires { length devices.now ≤ most_devices }
    ensures { IfOk result
        (λ rooms. plain_rooms rooms ≡ rooms_named (map (λ device. device.name) devices.now)) }
{
    let mut names = List::new(alloc);
    let mut room_of = List::new(alloc);
    'devices: for device in devices {
        let room = room_name(device.name.as_str());
        room_of.push(number_of(alloc, &mut names, room)?)?;
    }
    Ok(Rooms { names, room_of })
}

/// The rooms of the home of a script, numbered from 0 in the order of their first devices, or
/// `NoMemory`. The room of a device is the part of its name before the first `_`, or the whole
/// name.
pub fn rooms(alloc: Global, script: &Script) -> Result<Rooms, NoMemory>
    requires { IsSound (plain_script script.now) }
    ensures { IfOk result (λ rooms. plain_rooms rooms ≡ rooms_of script.now) }
{
    rooms_among(alloc, script.devices.as_slice())
}
