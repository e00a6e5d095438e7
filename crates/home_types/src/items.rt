//! The items of a line: runs, failures and restarts.
use crate::numbers::{DeviceNo, RunNo};

/// An item of a serial order.
#[derive(Clone, Copy, Debug, PartialEq, Eq)]
pub enum Item {
    /// A run, done whole.
    Ran(RunNo),
    /// The device's failure of this number in the window, counted from 1.
    Failed(DeviceNo, u32),
    /// The device's restart of this number in the window, counted from 1.
    Back(DeviceNo, u32),
}
