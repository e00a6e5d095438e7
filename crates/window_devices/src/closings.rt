//! The devices of a window that closes: by how much their counts rose, and how they are known to
//! stand.
ghost use Rattle.std.specs.Prelude.{[], length, ◌≡◌, ◌≤◌};
ghost use Rattle.window_devices.specs.LeftDevices.{HaveRisen, NoneFell, all_known_left};

use crate::known::DeviceProgress;
use device_states::Device;
use home_types::{DeviceNo, List, Stand};
use lineage_table::Table;

/// By how much the counts of each device rose in a window.
#[derive(Drop)]
pub struct Risen {
    pub turns: List<u64>,
    pub faults: List<u64>,
}

/// By how much the turns and the faults of each device rose, in lists that have room for them.
pub fn rises_in<D: Device>(
    turns: List<u64>,
    faults: List<u64>,
    known: &List<DeviceProgress>,
    devices: &List<D>,
) -> Risen
    requires no_turns { turns.items ≡ [] }
    requires no_faults { faults.items ≡ [] }
    requires turns_room { length known.now.items ≤ turns.spare }
    requires faults_room { length known.now.items ≤ faults.spare }
    requires turns_fell { NoneFell (λ device. (D.shows device).turns)
        (λ device. device.at_opening.turns) known.now.items devices.now.items }
    requires faults_fell { NoneFell (λ device. (D.shows device).faults)
        (λ device. device.at_opening.faults) known.now.items devices.now.items }
    ensures turns { HaveRisen (λ device. (D.shows device).turns) (λ device. device.at_opening.turns)
        known.now.items devices.now.items (length known.now.items) result.turns.items }
    ensures faults { HaveRisen (λ device. (D.shows device).faults)
        (λ device. device.at_opening.faults) known.now.items devices.now.items
        (length known.now.items) result.faults.items }
{
    let mut rises = Risen { turns, faults };
    'devices: for at in 0..known.len() {
        let device = devices.get(at).unwrap();
        let then = known.get(at).unwrap().at_opening;
        let turned = rises.turns.push(device.turns() - then.turns);
        turned.unwrap();
        let failed = rises.faults.push(device.faults() - then.faults);
        failed.unwrap();
    }
    rises
}

/// How the devices are known to stand, up or down as the table counts them, in a list that has room
/// for them.
pub fn stands_known(empty: List<Stand>, table: &Table, known: &List<DeviceProgress>) -> List<Stand>
    requires empty { empty.items ≡ [] }
    requires room { length table.now ≤ empty.spare }
    requires size { length known.now.items ≡ length table.now }
    ensures { result.items ≡ all_known_left known.now.items table.now (length table.now) }
{
    let mut stands = empty;
    'devices: for at in 0..table.devices() {
        let pushed = stands.push(Stand {
            value: known.get(at as u64).unwrap().held,
            up: table.is_up(DeviceNo(at as u16)),
        });
        pushed.unwrap();
    }
    stands
}
