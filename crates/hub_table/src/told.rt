//! What the calls of a table tell.
use device_gate::{Slip, Task};
use history_book::{End, Made};
use hub_core::Why;

/// What the step of a run did.
#[derive(Clone, Copy, Debug, PartialEq, Eq)]
pub enum Taken {
    /// A device is out, with this slip and for this task.
    Out(Slip, Task),
    /// It made entries.
    Moved(Made),
    /// It must wait.
    Waits(Why),
    /// It has ended, with the entries of this step.
    Over(End, Made),
    /// The window has no such run.
    Absent,
}

/// Why an answer is not taken. Nothing has changed then.
#[derive(Clone, Copy, Debug, PartialEq, Eq)]
pub enum NotTaken {
    /// The device is not out, or is out with another ticket.
    NotOut,
    /// It is no answer to the task: a found value where none was asked for, or none where one was.
    OtherKind,
    /// The value found is another than that at which the device stood.
    Differs,
}
