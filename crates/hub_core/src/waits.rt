//! Why a run waits.
use home_types::{DeviceNo, RunNo};

/// For what a run waits.
#[derive(Clone, Copy, Debug, PartialEq, Eq)]
pub enum Why {
    /// The run that it follows has not ended.
    Follow(RunNo),
    /// The scheduler denies it the device, which this run holds or has written.
    Denied(DeviceNo, RunNo),
    /// This run stands before it and holds the device.
    Behind(DeviceNo, RunNo),
    /// It would read what this run before it has written and may still undo.
    Dirty(DeviceNo, RunNo),
    /// A strict model lets this run end first.
    Strict(RunNo),
    /// The device is out: its grip is in someone's hands.
    Busy(DeviceNo),
}
