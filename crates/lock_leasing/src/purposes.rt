//! What a device is out for.
use home_types::Value;

/// For what a device is out.
#[derive(Clone, Copy, Debug, PartialEq, Eq)]
pub enum Purpose {
    /// The run's command of this number, counted from 0.
    Commands(u32),
    /// To undo the run's write: this value is driven.
    Undoes(Value),
    /// The detector's probe, with the value that it restores where the device is counted down.
    Probes(Option<Value>),
}
