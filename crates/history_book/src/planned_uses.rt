//! From when and to when a run that is placed is planned to use a device.

/// From when and to when a run is planned to use a device: moments of its window, in ms.
#[derive(Clone, Copy, Debug, PartialEq, Eq)]
pub struct PlannedUse {
    pub from: u64,
    pub to: u64,
}
