//! The devices of a window: which are home and which are away with a grip, what is known of each,
//! and which one each run holds.
ghost use Rattle.std.specs.Prelude.{◌<◌, ◌≡◌};
ghost use Rattle.device_gate.specs.Calls.{held_after};
ghost use Rattle.device_gate.specs.Grips.{WasCalled};
ghost use Rattle.window_devices.specs.Checkouts.{IsHomeAgain, IsSent, MayComeHome, MaySend};
ghost use Rattle.window_devices.specs.KnownDevices.{events_after, progress_at};

use crate::known::{DeviceCallCounts, DeviceProgress, Events, NO_EVENTS};
use device_gate::{Done, Gate, Grip, Ready, Task, Told};
use device_states::Device;
use home_types::{DeviceNo, List, Value};
use lock_leasing::Purpose;

/// What is known of no device.
const NOT_KNOWN: DeviceProgress = DeviceProgress {
    held: 0,
    probes_left: 0,
    purpose: Purpose::Commands(0),
    at_opening: DeviceCallCounts {
        turns: 0,
        probes: 0,
        faults: 0,
    },
    events: NO_EVENTS,
};

/// The devices of a window, home or away.
#[derive(Drop)]
pub struct Checkouts<D: Device> {
    pub gate: Gate<D>,
    pub known: List<DeviceProgress>,
    /// For each run the device whose grip it holds.
    pub held_tokens: List<Option<DeviceNo>>,
}

/// What a device told that came home, where it is known to stand, and how often it has failed and
/// come back.
#[derive(Drop)]
pub struct ReturnedDevice {
    pub told: Told,
    pub held: Value,
    pub events: Events,
}

impl<D: Device> Checkouts<D> {
    /// What is known of the device, nothing of no device of the home.
    #[inline(always)]
    pub fn known(&self, d: DeviceNo) -> DeviceProgress
        ensures { result ≡ progress_at self.now.known.items d.0 }
    {
        match self.known.get(d.0 as u64) {
            Some(known) => *known,
            None => NOT_KNOWN,
        }
    }

    /// The device goes out to the maker, a run or 0 for the detector, for this task; this is known
    /// of it then. A run holds it.
    #[inline(always)]
    pub fn send(
        &mut self,
        d: DeviceNo,
        maker: u32,
        known: DeviceProgress,
        task: Task,
    ) -> Grip<D, Ready>
        requires may { MaySend D.shows self.old d.0 maker known.held task }
        ensures sent { IsSent D.shows self.old d maker known task result self.new }
    {
        self.known.set(d.0 as u64, known);
        if maker > 0 {
            self.held_tokens.set(maker as u64 - 1, Some(d));
        }
        self.gate.hand_out(d, maker, known.held, task)
    }

    /// The device of the grip comes home, with what it told. No run holds it.
    #[inline(always)]
    pub fn come_home(&mut self, grip: Grip<D, Done>) -> ReturnedDevice
        requires may { MayComeHome self.old grip }
        ensures home { IsHomeAgain self.old grip self.new }
        ensures told { result.told ≡ grip.stage.told }
        ensures held { result.held ≡ held_after grip.stage.told grip.task
            (progress_at self.old.known.items grip.slip.device.0).held }
        ensures events { result.events ≡ events_after grip.task grip.stage.told
            (progress_at self.old.known.items grip.slip.device.0).events }
        ensures called { WasCalled grip.stage.told grip.task grip.slip (D.shows grip.device) }
    {
        let slip = grip.slip();
        let task = grip.task();
        let told = grip.told();
        let known = self.known(slip.device);
        let held = task.held_after(told, known.held);
        let events = known.events.after(task, told);
        self.known.set(
            slip.device.0 as u64,
            DeviceProgress {
                held,
                events,
                ..known
            },
        );
        if slip.maker > 0 {
            self.held_tokens.set(slip.maker as u64 - 1, None);
        }
        self.gate.take_in(grip);
        ReturnedDevice { told, held, events }
    }
}
