//! How a live home stands between its windows, and the names and numbers of its script.
ghost use Rattle.std.specs.Prelude.{◌≡◌, IfErr, IfOk, length};
ghost use Rattle.home_states.specs.Readings.{DeviceStandsAt, MayNotStand, run_count, script_device_name, script_routine_name, value_name};

use crate::homes::{LiveHome, Phase};
use crate::refusals::NotStanding;
use home_types::{DeviceNo, Stand, Value};

impl LiveHome {
    /// How the device stands between two windows. Refused in a window, and of a device that there
    /// is not.
    pub fn stand(&self, d: DeviceNo) -> Result<Stand, NotStanding>
        ensures stands { IfOk result (λ stand. DeviceStandsAt self.now d.0 stand) }
        ensures refused { IfErr result (λ why. MayNotStand self.now d.0 why) }
    {
        match &self.phase {
            Phase::Between(home) => match home.world().devices.get(d.0 as u64) {
                Some(stand) => Ok(*stand),
                None => Err(NotStanding::Absent),
            },
            Phase::InWindow(_, _) => Err(NotStanding::InWindow),
            Phase::Moving => unreachable!(),
        }
    }

    /// How many devices the script has.
    pub fn device_count(&self) -> u64
        ensures { result ≡ length self.now.script.devices.items }
    {
        self.script.script().devices.len()
    }

    /// How many routines the script has.
    pub fn routine_count(&self) -> u64
        ensures { result ≡ length self.now.script.routines.items }
    {
        self.script.script().routines.len()
    }

    /// How many windows the script has, those with it that were begun.
    pub fn window_count(&self) -> u64
        ensures { result ≡ length self.now.script.windows.items }
    {
        self.script.script().windows.len()
    }

    /// How many runs the window of the script has, 0 where there is none of this number.
    pub fn run_count(&self, window: u32) -> u64
        ensures { result ≡ run_count self.now window }
    {
        match self.script.script().windows.get(window as u64) {
            Some(window) => window.runs.len(),
            None => 0,
        }
    }

    /// The name of the device, empty where there is none.
    pub fn device_name(&self, d: u32) -> &str
        ensures { result.now ≡ script_device_name self.now.script d }
    {
        match self.script.script().devices.get(d as u64) {
            Some(device) => device.name.as_str(),
            None => "",
        }
    }

    /// The name of the routine, counted from 0, empty where there is none.
    pub fn routine_name(&self, routine: u32) -> &str
        ensures { result.now ≡ script_routine_name self.now.script routine }
    {
        match self.script.script().routines.get(routine as u64) {
            Some(routine) => routine.name.as_str(),
            None => "",
        }
    }

    /// The name of the value of the device, empty where it has none.
    pub fn value_name(&self, d: u32, value: Value) -> &str
        ensures { result.now ≡ value_name self.now.script d value }
    {
        match self.script.script().devices.get(d as u64) {
            Some(device) => match device.states.get(value as u64) {
                Some(name) => name.as_str(),
                None => "",
            },
            None => "",
        }
    }
}
