//! The detector takes a device for a probe, and gives it back.
ghost use Rattle.std.specs.Prelude.{Some, false, not, true, ◌<◌, ◌≡◌};
ghost use Rattle.device_gate.specs.Calls.{has_died};
ghost use Rattle.device_gate.specs.Places.{IsKept};
ghost use Rattle.history_book.specs.Settings.{is_device};
ghost use Rattle.hub_core.specs.HubCalls.{IsProbeGiven, IsProbed, SameWindow};
ghost use Rattle.hub_core.specs.OpenHubs.{configuration_of};
ghost use Rattle.hub_core.specs.Steps.{may_probe, restored};
ghost use Rattle.lock_leasing.specs.Configurations.{read_of};

use crate::failures::{doom_lost, note_fall, note_rise};
use crate::open_windows::OpenWindow;
use device_gate::{Done, Grip, Ready, Stranger, Task};
use device_states::Device;
use history_book::{Made, NONE_MADE, one_made};
use home_types::{DeviceNo, Value};
use lock_leasing::Purpose;
use window_devices::DeviceProgress;

impl<D: Device> OpenWindow<D> {
    /// Hands out a probe of the device: none where it is out or no device of the home, or no probe
    /// of it is left.
    ///
    /// Where the device is counted down, and answers the probe, the grip drives it to the value at
    /// which it should stand. Takes no memory.
    pub(crate) fn take_probe(&mut self, d: DeviceNo) -> Option<Grip<D, Ready>>
        ensures probed { IsProbed self.old d.0 result self.new }
        ensures window { SameWindow self.old self.new }
    {
        if self.may_probe(d) {
            Some(self.send_probe(d))
        } else {
            None
        }
    }

    /// Takes the device of the detector's grip home.
    ///
    /// Answers the entries that it makes: a device that was counted up, and did not answer, has
    /// failed, and the run is doomed that sees it up and is not done with it; one that was counted
    /// down, and answered, is back. A grip that is not the one with which its device is out, or
    /// that is a run's, comes back with a `Stranger`, and nothing changes. Takes no memory.
    pub(crate) fn give_probe(
        &mut self,
        grip: Grip<D, Done>,
    ) -> Result<Made, (Grip<D, Done>, Stranger)>
        ensures given { IsProbeGiven self.old grip result self.new }
        ensures window { SameWindow self.old self.new }
    {
        if grip.slip().maker != 0 || !self.checkouts.gate.is_kept(&grip) {
            let stranger = self.checkouts.gate.stranger(&grip);
            return Err((grip, stranger));
        }
        let up = self.order.table.is_up(grip.slip().device);
        let died = grip.told().died();
        if up != died {
            Ok(self.find_same(grip))
        } else if died {
            Ok(self.find_dead(grip))
        } else {
            Ok(self.find_back(grip))
        }
    }

    /// Whether a probe of the device may go out: it is home, and a probe of it is left.
    fn may_probe(&self, d: DeviceNo) -> bool
        ensures { result ≡ may_probe (configuration_of self.now) d.0 }
    {
        self.checkouts.gate.is_home(d) && self.checkouts.known(d).probes_left > 0
    }

    /// A probe of the device goes out.
    fn send_probe(&mut self, d: DeviceNo) -> Grip<D, Ready>
        requires { may_probe (configuration_of self.old) d.0 ≡ true }
        ensures probed { IsProbed self.old d.0 (Some result) self.new }
        ensures window { SameWindow self.old self.new }
    {
        let value = self.restored(d);
        let known = self.checkouts.known(d);
        let sent = DeviceProgress {
            probes_left: known.probes_left - 1,
            purpose: Purpose::Probes(value),
            ..known
        };
        self.checkouts.send(d, 0, sent, Task::Probe(value))
    }

    /// The value that a probe of the device restores: where it is counted down, the one at which it
    /// should stand.
    fn restored(&self, d: DeviceNo) -> Option<Value>
        requires { is_device self.now.setting d.0 ≡ true }
        ensures { result ≡ restored (configuration_of self.now) d.0 }
    {
        self.order.table.kept_invariant();
        if self.order.table.is_up(d) {
            None
        } else if self.history.is_weak() {
            Some(self.checkouts.known(d).held)
        } else {
            Some(self.order.table.stand(d))
        }
    }

    /// The probe finds the device as it is counted: it answers and is counted up, or it does not
    /// and is counted down.
    fn find_same(&mut self, grip: Grip<D, Done>) -> Made
        requires kept { IsKept self.old.places grip.slip grip.task }
        requires maker { grip.slip.maker ≡ 0 }
        requires same { (read_of (configuration_of self.old)).up grip.slip.device.0
            ≡ not (has_died grip.stage.told) }
        ensures given { IsProbeGiven self.old grip (Ok result) self.new }
        ensures window { SameWindow self.old self.new }
    {
        self.checkouts.come_home(grip);
        NONE_MADE
    }

    /// The probe finds that the device, which was counted up, has failed.
    fn find_dead(&mut self, grip: Grip<D, Done>) -> Made
        requires kept { IsKept self.old.places grip.slip grip.task }
        requires maker { grip.slip.maker ≡ 0 }
        requires up { (read_of (configuration_of self.old)).up grip.slip.device.0 ≡ true }
        requires died { has_died grip.stage.told ≡ true }
        ensures given { IsProbeGiven self.old grip (Ok result) self.new }
        ensures window { SameWindow self.old self.new }
    {
        let d = grip.slip().device;
        let came = self.checkouts.come_home(grip);
        let fell = note_fall(
            &mut self.history,
            &mut self.order,
            0,
            d,
            came.events.fell,
            None,
        );
        let doomed = doom_lost(
            &mut self.history,
            &mut self.order,
            &self.checkouts.held_tokens,
            d,
            fell.lost,
        );
        Made {
            a: Some(fell.entry),
            b: doomed,
            c: None,
        }
    }

    /// The probe finds that the device, which was counted down, is back.
    fn find_back(&mut self, grip: Grip<D, Done>) -> Made
        requires kept { IsKept self.old.places grip.slip grip.task }
        requires maker { grip.slip.maker ≡ 0 }
        requires down { (read_of (configuration_of self.old)).up grip.slip.device.0 ≡ false }
        requires lives { has_died grip.stage.told ≡ false }
        ensures given { IsProbeGiven self.old grip (Ok result) self.new }
        ensures window { SameWindow self.old self.new }
    {
        let d = grip.slip().device;
        let came = self.checkouts.come_home(grip);
        one_made(note_rise(&mut self.history, &mut self.order, 0, d, came.events.rose))
    }
}
