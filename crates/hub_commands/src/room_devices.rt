//! The devices of all rooms, in the order of the script.
ghost use Rattle.hub_commands.specs.RoomDevices.{AreAllPlaced, HasDevicesOf, HasRoomFor, IsRoomed};
ghost use Rattle.std.specs.Prelude.{◌≡◌, ◌≤◌, [], IfOk, length, map, vec_capacity};

use device_states::Device;
use home_types::{List, NoMemory};
use hub_core::Home;
use room_hubs::{room_for, turned};
use std::alloc::Global;

/// Room for the devices of all rooms: they are put in order with no memory.
#[derive(Drop)]
pub struct DeviceRoom<Dev: Device> {
    /// For the devices of each room.
    of_rooms: Vec<List<Dev>>,
    /// For all devices, the last one first.
    backward: List<Dev>,
    /// For all devices, in order.
    ordered: List<Dev>,
}

impl<Dev: Device> DeviceRoom<Dev> {
    /// Room for so many devices in so many rooms, or `NoMemory`.
    pub fn reserve(alloc: Global, rooms: u64, devices: u64) -> Result<DeviceRoom<Dev>, NoMemory>
        ensures { IfOk result (λ room. HasRoomFor rooms devices room) }
    {
        let of_rooms = match Vec::with_capacity(alloc, rooms as usize) {
            Ok(of_rooms) => of_rooms,
            Err(_) => return Err(NoMemory),
        };
        Ok(DeviceRoom {
            of_rooms,
            backward: room_for(alloc, devices)?,
            ordered: room_for(alloc, devices)?,
        })
    }
}

/// The devices of each home, in the order of the homes.
fn devices_of<Dev: Device>(
    mut homes: List<Home<Dev>>,
    mut of_rooms: Vec<List<Dev>>,
) -> Vec<List<Dev>>
    requires empty { of_rooms.items ≡ [] }
    requires room { length homes.items ≤ vec_capacity of_rooms }
    ensures { map (λ devices. devices.items) result.items ≡ map (λ home. home.devices) homes.items }
{
    'homes: while let Some(home) = homes.pop() {
        of_rooms.push_reserved(home.into_devices());
    }
    of_rooms.reverse();
    of_rooms
}

/// The devices of the rooms' homes, in the order of the script. The number of each device's room is
/// given.
pub fn in_script_order<Dev: Device>(
    room_of: &[u32],
    homes: List<Home<Dev>>,
    room: DeviceRoom<Dev>,
) -> List<Dev>
    requires room { HasRoomFor (length homes.items) (length room_of.now) room }
    requires rooms { IsRoomed room_of.now (length homes.items) }
    requires devices { HasDevicesOf room_of.now homes.items }
    ensures size { length result.items ≡ length room_of.now }
    ensures placed { AreAllPlaced room_of.now homes.items result.items }
{
    let DeviceRoom {
        of_rooms,
        mut backward,
        ordered,
    } = room;
    let mut of_rooms = devices_of(homes, of_rooms);
    let mut left = room_of.len();
    'devices: while left > 0 {
        left -= 1;
        let place = room_of[left] as usize;
        if let Some(device) = of_rooms[place].pop() {
            backward.push(device).unwrap();
        }
    }
    turned(backward, ordered)
}
