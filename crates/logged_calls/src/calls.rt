//! A call of a live home that changed it, as a value.
use day_clock::When;
use device_gate::Told;
use home_types::{DeviceNo, RunNo, Value};

/// How many bytes a call has.
pub const CALL_SIZE: usize = 24;

/// A call of a live home that was not refused and changed something, with all that did not come
/// from the home itself.
///
/// A step of a run that waits is left out: it changes the moment alone, and the next call that has
/// a moment brings one that is no earlier.
#[derive(Clone, Copy, Debug, PartialEq, Eq)]
pub enum Logged {
    /// A window was begun at this time, with so many rounds of probes.
    Began(When, u32),
    /// A run of the routine, counted from 0, was added, and follows the other, where there is one.
    Added(u32, Option<RunNo>),
    /// The window of the script with this number, counted from 0, was opened.
    Opened(u32),
    /// The run made a step at this moment, in ms from the window's beginning.
    Took(RunNo, u64),
    /// The device answered the call with this ticket so, at this moment, in ms from the window's
    /// beginning.
    Gave(DeviceNo, u64, Told, u64),
    /// A probe was sent to the device.
    Probed(DeviceNo),
    /// The window was closed.
    Closed,
    /// The device was found up at this value, between two windows.
    Restood(DeviceNo, Value),
    /// The device was found down, between two windows.
    Lost(DeviceNo),
}
