//! What an order of a device is made of: the uses of runs, and the device's failures and restarts.
use home_types::{Value, View};

/// How far a run of the line is with a device, and whether its answers count.
///
/// A run counts while it is neither doomed nor about to be doomed by the step under way.
#[derive(Clone, Copy)]
pub enum RunStage {
    /// The run is committed.
    Committed,
    /// The run counts, and a command of it on the device has no answer.
    Pending,
    /// The run counts, and each of its commands on the device has an answer.
    Done,
    /// The run is doomed, and a command of it on the device has no answer.
    DoomedPending,
    /// The run is doomed, and each of its commands on the device has an answer.
    DoomedDone,
}

/// What a run holds the grip of a device for.
#[derive(Clone, Copy)]
pub enum HeldGrip {
    /// The run does not hold it.
    Free,
    /// A command that reads.
    Reads,
    /// A command that writes.
    Writes,
    /// An undo of the run's writes, which drives the value.
    Undoes(Value),
}

/// The use that one run makes of a device.
#[derive(Clone, Copy)]
pub struct Usage {
    pub stage: RunStage,
    /// How the run sees the device; none before its first answer there.
    pub view: Option<View>,
    /// What the run read before its first write.
    pub read: Option<Value>,
    /// The last value that it wrote.
    pub wrote: Option<Value>,
    /// Whether its writes were undone. An undo that is out does not count yet.
    pub undid: bool,
    pub grip: HeldGrip,
}

/// What happens to a device by itself.
#[derive(Clone, Copy)]
pub enum Event {
    Failure,
    Restart,
}

/// What stands in the order of a device.
#[derive(Clone, Copy)]
pub enum OrderEntry {
    Occurred(Event),
    Used(Usage),
}

/// A probe of a device that is out.
#[derive(Clone, Copy)]
pub enum Probe {
    /// None is out.
    Unprobed,
    /// It asks whether a device that is counted up still answers.
    Asks,
    /// It tries to bring a device that is counted down to the value.
    Restores(Value),
}
