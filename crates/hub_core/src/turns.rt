//! What a turn comes to.
use crate::waits::Why;
use device_gate::{Grip, Ready};
use device_states::Device;
use history_book::{End, Made};

/// What the step of a run does.
pub enum Turn<D: Device> {
    /// It hands out a device: the grip is to act, and then to be given back.
    Go(Grip<D, Ready>),
    /// It made these entries.
    Moved(Made),
    /// The run waits: nothing has changed, but that the hub's last moment may be later.
    Wait(Why),
    /// The run has ended so, with these entries where it ended in this step.
    Over(End, Made),
    /// The window has no such run.
    Absent,
}
