//! What just-in-time admission answers.
use home_types::{DeviceNo, RunNo};

/// What a run that is to be placed is told.
#[derive(Clone, Copy, Debug, PartialEq, Eq)]
pub enum Admit {
    /// No device is denied: it is placed at this place, counted from 0, the first one where it may
    /// stand.
    At(u32),
    /// This device, the smallest one that is denied, is denied by this run.
    Denied(DeviceNo, RunNo),
    /// A device is denied, but the run has waited long enough: it is placed at the end of the line.
    Patience,
}
