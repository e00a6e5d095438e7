//! An access of a run to a device, and its status.
use home_types::{RunNo, Value, View};

/// How the lease of a run on a device stands.
#[derive(Clone, Copy, Debug, PartialEq, Eq)]
pub enum Status {
    /// The run is done with the device.
    Released,
    /// The run has an answer on the device, and has more to do there.
    Acquired,
    /// The run has no answer on the device yet. It has touched the device all the same where the
    /// grip of its first command there is out.
    Scheduled,
}

/// The access of a run to a device.
#[derive(Clone, Copy, Debug, PartialEq, Eq)]
pub struct Access {
    pub run: RunNo,
    pub status: Status,
    /// How the run sees the device, from its first answer there on.
    pub view: Option<View>,
    /// The last value that the run wrote, unless it was undone.
    pub wrote: Option<Value>,
    /// The planned start on the device, in ms.
    pub from: u64,
    /// The planned end on the device, in ms.
    pub to: u64,
}
