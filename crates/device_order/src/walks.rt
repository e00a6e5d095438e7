//! What the walk along the order of a device has seen, from left to right.

use home_types::Value;

/// The grip that is out of a device, as the walk along its order has seen it.
#[derive(Clone, Copy)]
pub enum GripOut {
    /// None is.
    Home,
    /// That of a command, and whether it reads for a run that has written nothing there.
    Commands(bool),
    /// That of an undo, with its value.
    Undo(Value),
}

/// What the walk has seen so far.
#[derive(Clone, Copy)]
pub struct WalkState {
    /// Whether the last event left the device up.
    pub up: bool,
    /// The value of the last committed write.
    pub value: Value,
    /// The value of the last write in effect.
    pub stand: Value,
    /// Whether that write is a committed run's, or there is none.
    pub settled: bool,
    /// Whether the last write that no entry undid is of the run whose undo is out.
    pub undoing: bool,
    /// Whether some run that counts has a command on the device without an answer.
    pub opened: bool,
    /// Whether such a run has no answer there.
    pub waiting: bool,
    /// Whether such a run sees the device up.
    pub spanned: bool,
    /// Whether some run that is not committed has a write that no entry undid, with no committed
    /// write behind it.
    pub exposed: bool,
    pub out: GripOut,
}
