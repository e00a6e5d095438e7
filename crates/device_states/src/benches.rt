//! A bench, which builds the devices of a home.
ghost use Rattle.std.specs.Prelude.{◌≡◌, IfOk, IfSome};

use crate::devices::Device;
use home_types::{DeviceNo, NoMemory, Value};
use std::alloc::Global;

/// Makes the devices of a home.
pub trait Bench {
    type Dev: Device;

    /// Builds the device `d`, which stands at `start`.
    ///
    /// `downs` lists the ranges of calls in which a simulated device is down: from the first number
    /// to before the second. A real device does not heed them.
    fn build(
        &mut self,
        alloc: Global,
        d: DeviceNo,
        start: Value,
        downs: &[(u32, u32)],
    ) -> Result<Self::Dev, NoMemory>
        ensures tag { IfOk result (λ device. (Self.Dev.shows device).tag ≡ d.0) }
        ensures plan { IfOk result
            (λ device. IfSome (Self.Dev.shows device).plan (λ told. told ≡ downs.now)) }
        ensures stands { IfOk result (λ device. (Self.Dev.shows device).stands ≡ start) }
        ensures turns { IfOk result (λ device. (Self.Dev.shows device).turns ≡ 0) }
        ensures drives { IfOk result (λ device. (Self.Dev.shows device).drives ≡ 0) }
        ensures probes { IfOk result (λ device. (Self.Dev.shows device).probes ≡ 0) }
        ensures faults { IfOk result (λ device. (Self.Dev.shows device).faults ≡ 0) };
}
