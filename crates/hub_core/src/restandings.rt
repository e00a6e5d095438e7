//! Where the devices of a home were found between two windows, and which were lost.
ghost use Rattle.std.specs.Option.{option_copied};
ghost use Rattle.std.specs.Prelude.{◌≡◌, ◌<◌, IsTrue, length, slice_get};
ghost use Rattle.home_types.specs.Kinds.{has_value, kind_at};
ghost use Rattle.hub_core.specs.Homes.{CountsAreLow};
ghost use Rattle.hub_core.specs.Restandings.{lost, restood};

use crate::homes::Home;
use device_states::Device;
use home_types::{DeviceNo, Kind, Stand, Value};

impl<D: Device> Home<D> {
    /// The device of this number, `None` where the home has none.
    pub fn device(&self, d: DeviceNo) -> Option<&D>
        ensures { option_copied result ≡ slice_get self.now.devices d.0 }
    {
        self.devices.get(d.0 as u64)
    }

    /// The kind of the device, `None` where the home has none of this number.
    pub fn kind(&self, d: DeviceNo) -> Option<Kind>
        ensures { result ≡ slice_get self.now.kinds d.0 }
    {
        self.kinds.get(d.0 as u64).copied()
    }

    /// Tells the home that the device was found up at this value, as somebody turned it by hand:
    /// the next window begins from there. The device that stood for it is let go for one that
    /// stands at the value.
    ///
    /// Asks that the value is one of its kind, and that the counts of the device are no higher than
    /// the windows allow.
    pub fn restand(&mut self, d: DeviceNo, device: D, value: Value)
        requires there { d.0 < length self.old.devices }
        requires value { IsTrue (has_value (kind_at self.old.kinds d.0) value) }
        requires stands { (D.shows device).stands ≡ value }
        requires tag { (D.shows device).tag ≡ d.0 }
        requires counts { CountsAreLow self.old.opened (D.shows device).turns
            (D.shows device).probes (D.shows device).faults }
        ensures { self.new ≡ restood self.old d.0 device value }
    {
        self.world
            .devices
            .set(d.0 as u64, Stand { value, up: true });
        self.devices.set(d.0 as u64, device);
    }

    /// Tells the home that the device is lost, as its own protocol said: the next window begins
    /// with it counted down, and a probe finds it. Nothing is called, and the state of the home
    /// keeps its value. One that is down already stays as it is.
    pub fn lose(&mut self, d: DeviceNo)
        requires there { d.0 < length self.old.devices }
        ensures { self.new ≡ lost self.old d.0 }
    {
        let value = self.world.devices.get(d.0 as u64).unwrap().value;
        self.world
            .devices
            .set(d.0 as u64, Stand { value, up: false });
    }
}
