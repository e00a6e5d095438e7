//! The devices of a trial's script.
ghost use Rattle.routine_reader.specs.Scripts.{plain_device};
ghost use Rattle.std.specs.Prelude.{◌≡◌, ◌<◌, IfOk, map};
ghost use Rattle.trial_scripts.specs.TrialDevices.{trial_device, trial_devices};

use crate::names::numbered_name;
use home_types::{Kind, List, NoMemory, Value};
use routine_reader::DeviceText;
use std::alloc::Global;

/// How many devices the home has.
pub const HOME_DEVICES: u32 = 32;

/// The greatest value of a device. The least is 0, and there it starts.
const HIGHEST: Value = 999;

/// The device with this number, from 0.
fn make_device(alloc: Global, number: u32) -> Result<DeviceText, NoMemory>
    requires { number < 100 }
    ensures { IfOk result (λ device. plain_device device ≡ trial_device number) }
{
    Ok(DeviceText {
        name: numbered_name(alloc, 'd', number)?,
        kind: Kind::Range(0, HIGHEST),
        states: List::new(alloc),
        start: 0,
        downs: List::new(alloc),
    })
}

/// The devices of the home, none of which is ever down, or `NoMemory`.
pub fn make_devices(alloc: Global) -> Result<List<DeviceText>, NoMemory>
    ensures { IfOk result (λ devices. map plain_device devices.items ≡ trial_devices) }
{
    let mut devices = List::new(alloc);
    'devices: for number in 0..HOME_DEVICES {
        devices.push(make_device(alloc, number)?)?;
    }
    Ok(devices)
}
