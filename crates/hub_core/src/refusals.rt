//! Why a window cannot be closed.
use home_types::{DeviceNo, RunNo};

/// Why a window cannot be closed yet.
#[derive(Clone, Copy, Debug, PartialEq, Eq)]
pub enum NotQuiet {
    /// The smallest run that has not ended.
    StillLive(RunNo),
    /// Every run has ended, and this is the smallest device that is out.
    StillOut(DeviceNo),
}
