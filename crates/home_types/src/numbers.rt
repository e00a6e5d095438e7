/// A device of the home, counted from 0 in the order of the script.
#[derive(Clone, Copy, Debug, PartialEq, Eq)]
pub struct DeviceNo(pub u16);

/// A run of a window, counted from 1. The number 0 is the detector's.
#[derive(Clone, Copy, Debug, PartialEq, Eq)]
pub struct RunNo(pub u32);

/// The value at which a device stands: the place of a state, or a number of a range.
pub type Value = u32;
