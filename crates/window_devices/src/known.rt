//! What is known of each device beside the history.
ghost use Rattle.std.specs.Prelude.{◌+◌, ◌<◌, ◌^◌, ◌≡◌};
ghost use Rattle.window_devices.specs.KnownDevices.{events_after};

use device_gate::{Task, Told};
use home_types::Value;
use lock_leasing::Purpose;

/// The three counts of a device.
#[derive(Clone, Copy, Debug, PartialEq, Eq)]
pub struct DeviceCallCounts {
    /// Its drives and senses that worked.
    pub turns: u64,
    pub probes: u64,
    pub faults: u64,
}

/// How often a device has failed and come back in the window, as the history tells.
#[derive(Clone, Copy, Debug, PartialEq, Eq)]
pub struct Events {
    pub fell: u32,
    pub rose: u32,
}

impl Events {
    /// The same with what the device told of its task: one that was counted up, and died, has
    /// failed, and one that was counted down, and answered, is back.
    #[inline(always)]
    pub(crate) fn after(self, task: Task, told: Told) -> Events
        requires fell { self.fell + 1 < 2 ^ 32 }
        requires rose { self.rose + 1 < 2 ^ 32 }
        ensures { result ≡ events_after task told self }
    {
        match (task.is_counted_up(), told.died()) {
            (true, true) => Events {
                fell: self.fell + 1,
                ..self
            },
            (false, false) => Events {
                rose: self.rose + 1,
                ..self
            },
            (true, false) | (false, true) => self,
        }
    }
}

/// No failure and no restart.
pub(crate) const NO_EVENTS: Events = Events { fell: 0, rose: 0 };

/// What the hub knows of a device, home or out.
#[derive(Clone, Copy, Debug, PartialEq, Eq)]
pub struct DeviceProgress {
    /// Where it stands, or stood as it went out.
    pub held: Value,
    /// How many probes of it may still be taken.
    pub probes_left: u32,
    /// For what it is out, or was when it went out last.
    pub purpose: Purpose,
    /// Its counts when the window was opened.
    pub at_opening: DeviceCallCounts,
    pub events: Events,
}
