//! A script, as it is held.
use day_clock::When;
use home_types::{Kind, List, Routine, RunNo, Text, Value};

/// A day: the devices of the home, the routines, and the windows, one after the other.
#[derive(Drop)]
pub struct Script {
    pub devices: List<DeviceText>,
    pub routines: List<RoutineText>,
    pub windows: List<WindowText>,
}

/// A device of the home. Its number is its place in the script, from 0.
#[derive(Drop)]
pub struct DeviceText {
    pub name: Text,
    pub kind: Kind,
    /// The names of the values of a device with states, none of one with a range.
    pub states: List<Text>,
    /// The value at which it starts.
    pub start: Value,
    /// The calls at which a simulated device is down: from the first number to before the second.
    pub downs: List<(u32, u32)>,
}

/// A routine with its name.
#[derive(Drop)]
pub struct RoutineText {
    pub name: Text,
    pub routine: Routine,
}

/// A window: the runs that may be live at once, and what its replay goes by.
#[derive(Drop)]
pub struct WindowText {
    /// Its time, a label: later than that of the window before.
    pub at: When,
    /// The state with which the generator of picks starts.
    pub seed: u64,
    /// The detector's rounds of probes.
    pub probes: u32,
    /// The actors that are picked first: runs, or 0 for the detector.
    pub turns: List<u32>,
    pub runs: List<RunText>,
}

/// A run of a window. Its number is its place in the window, from 1.
#[derive(Drop)]
pub struct RunText {
    /// The routine, counted from 0.
    pub routine: u32,
    /// A run with a smaller number, for whose end it waits.
    pub follows: Option<RunNo>,
}
