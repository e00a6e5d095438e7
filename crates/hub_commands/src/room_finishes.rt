//! What a call that runs rooms hands back.
use crate::faults::Fault;
use device_states::Device;
use home_types::List;
use room_hubs::RoomWindow;

/// How a call that runs rooms ended.
#[derive(Drop)]
pub struct RoomFinish<Dev: Device> {
    /// The status with which the program ends.
    pub status: u8,
    /// The windows that every room closed, in order, each with one window for each room, in the
    /// order of the rooms.
    pub windows: List<List<RoomWindow>>,
    /// The devices of the home as they were left, in the order of the script; there exactly at the
    /// statuses 0 and 4. The number that a device has on the bench is the one in its room.
    pub devices: Option<List<Dev>>,
    /// Why the status is not 0; none exactly at 0.
    pub fault: Option<Fault>,
}
